//! Correlated equilibrium in the field's words: plans that lead to sets, deviations, equilibrium lists, reached points.
//!
//! It stands on `corr_game` and holds definitions with laws of them, over pairs of plans and the tree alone: no sequences, no
//! pairs of sequences, no linear program. `Trigger` is the one type; each law is the clause of a function that does nothing.
#![tactic(auto)]

mod laws;
mod triggers;

pub use laws::{
    a_graft_above_all_sets_is_the_whole_replacement, each_node_has_one_own_sequence,
    grafts_choose_below, grafts_leave_other_sets, greater_slacks_allow_more,
    kids_add_their_parents_move, leaving_at_first_sets_is_leaving_at_the_start, lists_together,
    mixtures_are_reached, plans_lead_along_own_sequences, plans_lead_by_recall,
    plans_pay_what_the_leaves_that_they_play_pay, reduced_plans_name_one_action_where_they_play,
    sets_below_have_nodes_below, told_sets_are_reached,
};
pub use triggers::Trigger;
