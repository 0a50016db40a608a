//! The simplex method over integer tableaus, in two phases and for two payoff rows.
//!
//! `feasible` answers with a feasible tableau or with multipliers which show that there is none, and `best` leads on to a
//! tableau that is optimal for a direction and, among the optima, for its left turn. It stands on `int_tableau`, whose
//! `Tableau` is all that it asks, and on `plane_hull` for directions. Columns stand in one fixed order: the program's from
//! the last to the first, then the artificial ones. By Bland's rule in that order both calls end by themselves. `Steps` says
//! which pivots lead to the basis that they leave, also where it is too wide.
#![tactic(auto)]

mod driving;
mod first_phase;
mod laws;
mod leaving;
mod shapes;
mod turning;

pub use first_phase::{Found, feasible};
pub use laws::{
    a_basis_is_listed_in_one_way, never_wide_has_no_wide_basis, phase_is_the_artificial_sum,
    reachable_tableaus_keep_the_start, ready_tableaus_are_lowered, steps_lead_on,
    steps_may_end_wide,
};
pub use lp_form::NumList;
pub use plane_hull::Dir;
pub use shapes::Shape;
pub use turning::best;
