//! The correlation rows and the payoff rows of a game, over its relevant pairs of sequences.
//!
//! It stands on `lp_form` and `connected_pairs`, and counts rows as `incentive_rows` does. The layer above uses `polytope`, whose program has one column per
//! relevant pair: its first row says that the pair of empty sequences has 1, each further one that a set of one player
//! passes on what its own sequence has beside one sequence of the other player (von Stengel and Forges 2008). What solves
//! the program meets those rows as equations, and what it pays is bounded.
#![tactic(auto)]

mod laws;
mod payoffs;
mod polytopes;
mod rows;

pub use laws::notions_have_one_program;
pub use polytopes::polytope;
