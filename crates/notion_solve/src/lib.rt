//! The block of a report for one notion of correlated equilibrium.
//!
//! `solve` makes the notion's program and asks `polygon_search` for its polygon. Where `polygon_check` accepts what is
//! proposed, that is the answer. Else a tableau goes through both phases of the simplex method and once round the polygon
//! of payoffs. Each corner's solution is decomposed into pairs of plans. The crate depends on all crates of the solver, and
//! on `equilibrium_solutions` for what the program's solutions are. The layer above uses that the block
//! is right for the notion (`IsRightFor`): a polygon inside of which lies exactly what equilibrium lists pay, or that there
//! is no such list, or a basis that is too wide; and that every number of it is in a report's ranges.
#![tactic(auto)]

mod blocks;
mod corners;
mod laws;
mod polygons;
mod programs;
mod searches;
mod wide;

pub use blocks::solve;
pub use laws::{
    a_right_polygon_is_not_empty, right_blocks_are_too_wide_by_a_tableau, right_polygons_are_one,
    shown_blocks_are_right, what_lists_pay_is_mixed_of_corners, what_solutions_pay_lies_inside,
};
