//! Equilibrium lists and solutions of a notion's program are the same: laws alone, no function.
//!
//! It stands on `equilibrium`, whose lists are of pairs of plans, and on `plan_polytope` and `incentive_rows`, whose programs are of pairs
//! of sequences.
#![tactic(auto)]

mod decisions;
mod laws;

pub use decisions::{
    a_choice_gains_what_it_gets_more, choices_get_no_more_than_values, departures_are_decisions,
    none_gains_exactly_where_there_are_values, some_choice_gets_its_values, triggers_have_rows,
};
pub use laws::{
    column_sums_are_one_and_add_up, equilibrium_lists_are_solutions, numbered_games_have_recall,
    programs_pay_what_following_pays,
};
