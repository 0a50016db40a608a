//! A report held against its game, apart from the solver that may have written it.
//!
//! `check` goes over the scales and the blocks of a report in order: a corner's pairs of plans, whether a player gains by
//! leaving the mediator, the belt of sides, each side's multipliers against the program of the notion. It depends on
//! `deviation_gains` for plans and gains, on `incentive_rows` and `plan_polytope` for that program, on `plane_hull` for
//! the belt. The layer above uses `check`, whose verdict is the one that the report gets.
#![tactic(auto)]

mod blocks;
mod corners;
mod faults;
mod laws;
mod multipliers;
mod programs;
mod sides;

pub use blocks::{check, some_too_wide};
pub use laws::{
    blocks_have_one_fault, corners_break_one_rule_first, each_report_has_one_verdict,
    true_blocks_have_no_fault, true_multipliers_show_empty, true_reports_are_accepted,
    true_sides_are_certified,
};
