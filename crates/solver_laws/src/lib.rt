//! Laws of definitions that stand in other crates: of the simplex method, of programs and certificates, and of the plain tests.
//!
//! They stand apart from those crates so that a law more proves none of them again. Each law is the clause of a function that does
//! nothing.
#![tactic(auto)]

mod bases;
mod bounds;
mod first_phase;
mod optima;
mod pairs;
mod plain;
mod rows;
mod sizes;
mod trees;

pub use bases::{
    bases_are_one_in_any_order, bases_are_sets_of_columns, blands_rule_stops_at_an_optimum,
    blands_rule_takes_one_step, program_rows_start_with_their_right_sides,
    programs_start_in_one_way, start_lists_are_narrow_as_their_rows,
};
pub use bounds::{
    rows_of_words_have_small_steps, steps_are_of_units_and_amounts, sums_within_are_all_within,
};
pub use first_phase::{
    a_tableau_has_one_answer, answers_are_true, columns_lower_by_their_sums,
    driven_where_none_drives_out, multipliers_are_one_list, open_tableaus_have_one_shape,
    ready_tableaus_are_driven, stuck_phases_lower_no_more, stuck_tableaus_are_not_lowered,
    the_start_has_ones_as_multipliers, the_start_is_open,
};
pub use optima::{
    greatest_payoffs_are_one, left_turns_are_directions, the_right_pays_the_first_player,
};
pub use pairs::{
    parts_of_drawn_lists_are_drawn, reduced_pairs_are_drawn, reduced_plans_spread_their_corner,
    spread_corners_have_the_total_of_their_weights,
};
pub use plain::{
    moderate_multipliers_have_narrow_columns, moderate_products_are_small, plans_alike_get_alike,
    plans_are_reduced_set_by_set, plans_name_actions_where_they_lead,
    players_get_the_leaves_that_both_plans_play, players_get_what_their_plans_get,
    what_is_left_turns_with_the_direction, zeros_are_moderate_up_to_256_rows,
};
pub use rows::{
    correlation_rows_are_one_number, each_correlation_row_stands_there,
    more_rows_leave_the_correlation_rows_met, solutions_of_correlation_rows_meet_them,
    the_total_row_is_of_the_first_column,
};
pub use sizes::{
    blocks_fit_one_by_one, leaves_are_in_their_ranges, the_start_has_the_size_of_its_program,
};
pub use trees::{
    connected_sets_are_met, nodes_alike_to_one_are_alike, nodes_have_their_sets_sequence,
    recall_is_one_sequence_a_set, recalled_sets_are_not_met_from_themselves,
    relevant_sequences_go_back, sequences_at_a_node_are_relevant, sets_are_met_from_above,
};
