//! The numbers of each player's sequences.
//!
//! It stands on `corr_game` and `tree_recall`. A sequence is the list of a player's own moves, each a set and an
//! action, on a path. Sequence 0 is empty; the others are numbered by set and by action. `Seqs` is seen, for each
//! player, as the place of each set in that numbering, the last move of each sequence and the sequence of each node.
#![tactic(auto)]

mod laws;
mod nodes;
mod numbers;
mod places;
mod seqs;

pub use laws::a_game_has_one_numbering;
pub use seqs::Seqs;
