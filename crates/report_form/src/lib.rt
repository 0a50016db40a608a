//! What a command has to say: a report on a game's polygons, a refusal, or a verdict on a report.
//!
//! It depends on `corr_game`, `lp_form` and `plane_hull` for the values inside. It holds types alone: a `Report`
//! keeps the ranges of its numbers and the order of its blocks. The layers above make the values; `report_text` and
//! `answer_text` give their texts.
#![tactic(auto)]

mod refusals;
mod reports;
mod verdicts;

pub use refusals::{NodeRule, Refusal};
pub use reports::{Block, BlockList, ColumnList, Corner, Corners, NamedBlock, Report};
pub use verdicts::{Cause, Item, Verdict};
