//! Whether each player remembers the own earlier moves, and the last of them before each set.
//!
//! It stands on `corr_game`. `recall` answers for a whole game: a `Recalled`, seen as the last own move before each
//! set of each player, or the first pair of nodes at which a player forgets. The layer above numbers sequences by it.
#![tactic(auto)]

mod recalls;

pub use recalls::{RecallRefusal, Recalled, recall};
