//! Linear programs with whole coefficients, and the small values that solvers and reports share.
//!
//! It stands on `corr_game` for the two players. An `Lp` is seen as its number of columns, the stored entries of each
//! row in ascending order of their columns, the right sides and the two payoff rows; `coefficient`, `right_of` and
//! `payoff_of` read it as a matrix, 0 where nothing is stored. What solves joined programs solves the first, and is paid
//! the same. The layer above uses `Lp`, whose `row` lends a row's entries to loops that pass over the zeros, `NumList`,
//! and the names of places in a tableau.
#![tactic(auto)]

mod entries;
mod laws;
mod numbers;
mod places;
mod programs;

pub use entries::Entry;
pub use laws::{certified_directions_are_bounded, shown_programs_are_empty};
pub use numbers::NumList;
pub use places::{Place, RowName};
pub use programs::Lp;
