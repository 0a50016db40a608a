//! The corners and sides of the polygon of payoffs that a program's solutions reach.
//!
//! `sweep` turns a direction once round, from the first player's axis counter-clockwise, and takes down each corner that
//! it meets, with a solution there, and each side, with multipliers that certify it. It stands on `bland_simplex`, which
//! leads from one direction's optimum to the next one's, and on `plane_hull` for directions and sides. The layer above
//! uses what was swept (`IsSwept`): corners that solutions pay, sides that are certified at their corners, narrow numbers; and that the
//! sides go once round the corners (`GoneRound`), so that they are a belt.
#![tactic(auto)]

mod bearings;
mod corners;
mod laws;
mod readings;
mod sweeps;

pub use corners::{CornerList, Swept, SweptCorner};
pub use laws::what_goes_round_is_a_belt;
pub use sweeps::sweep;
