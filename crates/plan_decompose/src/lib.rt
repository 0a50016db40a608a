//! Whole numbers at the relevant pairs of sequences as weights of pairs of plans.
//!
//! It stands on `connected_pairs` and `triangle_test`. A walk settles one open set at a time, a set to which the chosen
//! actions lead, and so picks two reduced plans; `decompose` takes such pairs of plans off the values until none is
//! left. The values are a solution: they meet the correlation rows, with a positive total, in a game without a triangle.
#![tactic(auto)]

mod actions;
mod decompositions;
mod entries;
mod laws;
mod opens;
mod picks;
mod walks;

pub use decompositions::decompose;
pub use laws::{sums_of_reduced_plans_meet_the_rows, two_lists_together_add_their_sums};
pub use picks::pick;
