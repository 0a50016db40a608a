//! Laws of the definitions of texts, answers, bytes and ports, which stand in other crates.
//!
//! It holds laws alone, apart from the crates of the definitions, so that a law more proves none of them again. Each law is the
//! clause of a function that does nothing.
#![tactic(auto)]

mod answers;
mod draws;
mod lines;
mod numbers;
mod ports;
mod texts;

pub use answers::{
    games_are_generated_once, inputs_are_refused_by_one_line, reports_are_on_one_game,
    standing_lines_are_told_apart, work_refuses_what_solve_refuses,
};
pub use draws::{
    digits_are_drawn, seeds_count_up_to_the_modulus, seeds_never_meet, states_follow_each_other,
};
pub use lines::{
    bytes_are_read_in_one_way, bytes_separate_or_stand_in_words, cursors_cut_bytes,
    places_stay_places, turns_go_by_the_actions_listed, what_is_seen_is_known,
};
pub use numbers::{
    bytes_are_left_by_place, no_block_says_no_payoff, sizes_are_refused_once, wholes_are_numbers,
};
pub use ports::{
    a_front_may_be_all_or_none, counts_rise_to_their_last_value,
    fronts_behind_whole_pieces_are_fronts, given_and_left_bytes_are_all, rises_go_on,
};
pub use texts::{
    blocks_are_told_by_their_texts, one_text_is_of_one_report, refusals_are_no_answers,
    refusals_are_told_by_their_lines, summaries_count_nodes_and_tell_points,
    verdicts_are_told_by_their_lines,
};
