//! Slow and plain programs whose contracts are definitions: what a reader believes, computed by going over everything.
//!
//! It stands on the crates that hold the definitions. No layer of the program stands on it: tests call it, to hold the
//! program's answers against a definition, or to meet what a call asks for by a test.
//!
//! - `leads`, `is_reduced`: to which sets a plan leads, and whether it names an action at those alone
//! - `is_below`, `graft`: the sets below another, and the plan of a player who leaves at a set
//! - `is_equilibrium`: whether a list of pairs of plans is an equilibrium list of a notion and a slack
//! - `payoff_point`: what such a list pays on average
//! - `is_solution`: whether numbers solve a linear program
//! - `certifies`, `shows_empty`: whether multipliers certify a direction, or show that a program has no solution
//! - `is_inside`: whether a point lies inside a polygon
#![tactic(auto)]

mod certificates;
mod deviations;
mod equilibria;
mod grafts;
mod insides;
mod plans;
mod points;
mod samples;
mod solutions;
mod sums;

pub use certificates::{are_moderate, certifies, is_moderate, shows_empty};
pub use equilibria::{Slack, are_entries, is_equilibrium};
pub use grafts::{graft, is_below};
pub use insides::{Place, is_inside};
pub use plans::{is_reduced, leads};
pub use points::{PayoffPoint, payoff_point};
pub use samples::a_list_of_chicken_that_is_none;
pub use solutions::is_solution;
pub use sums::are_weights;
