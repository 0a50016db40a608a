//! Which sets of the two players are connected, and the relevant pairs of their sequences, in order.
//!
//! It stands on `corr_game` and `sequences`. Sets are connected where a node of one is above a node of the other; a
//! pair of sequences is relevant where one is empty or their last sets are connected. `Pairs` is seen as the
//! sequences, a table of connected sets, the list of relevant pairs and the index of each pair in it.
#![tactic(auto)]

mod ends;
mod laws;
mod pairs;
mod table;

pub use laws::{a_game_has_one_table_of_pairs, relevance_goes_back};
pub use pairs::Pairs;
