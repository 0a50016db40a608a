//! What `check` and `work` print: the line of a verdict, and the summary of a generated game's polygons.
//!
//! It depends on `report_form` for the verdicts and the blocks, on `game_gen` for the kinds, and on `report_text` and
//! `text_pieces` for writing. The two calls are `write_verdict` and `write_summary`; their texts are
//! functions in `specs/VerdictText` and `specs/SummaryText`.
#![tactic(auto)]

mod names;
mod summaries;
mod verdicts;

pub use summaries::write_summary;
pub use verdicts::write_verdict;
