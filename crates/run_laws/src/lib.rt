//! Laws of what a run answers, as functions that do nothing.
//!
//! They are about definitions of `corr_run`, `cert_check` and `notion_solve`, on which they depend: bytes say one game at
//! most and have one first refusal at most, and none where their game is accepted; the exit number tells what ended
//! otherwise than well; right blocks are true by the checker's rules, and true blocks are exact. No crate of the program
//! depends on them.
#![tactic(auto)]

mod refusals;
mod reports;

pub use refusals::{
    accepted_bytes_are_not_refused, bytes_are_refused_once, bytes_say_one_game,
    exit_numbers_tell_statuses, no_refusal_of_a_game, one_refusal_a_step,
};
pub use reports::{
    right_blocks_are_true, right_reports_are_true, true_blocks_are_exact, yes_means_exact,
};
