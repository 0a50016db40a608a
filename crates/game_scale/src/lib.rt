//! A game with whole amounts, of one whose payoffs are fractions along the paths of its tree.
//!
//! It stands on the raw game of `efg_reader`, the fractions of `corr_num` and the game of `corr_game`. A leaf's amount is
//! the probability of its path times the sum of a player's payoffs on it, times the player's scale: the least number
//! that makes all of these whole. The layer above uses `scale` alone, and by laws: a file's game has one such game at most, one
//! refusal of `scale` at most, and not both, want of memory aside.
#![tactic(auto)]

mod amounts;
mod laws;
mod paths;
mod refusal;
mod scales;
mod scaling;
mod ways;

pub use laws::{
    a_game_has_one_scaling, no_refusal_of_a_scaled_game, nodes_have_one_path, one_refusal_of_scales,
};
pub use refusal::ScaleRefusal;
pub use scaling::scale;
