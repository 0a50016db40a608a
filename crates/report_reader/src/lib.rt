//! The reader of reports in the first format: the report with which some bytes begin, or the place where they leave the
//! format.
//!
//! It stands on `report_form` for the values. `report_text` writes what is read here, and holds the definition of the text.
//! The one call is `read_report`. A report that it reads is in the ranges of `IsReport`, and its text is a front of the bytes;
//! each function says by `Reads` of specs/Reading which text it has read. Which report some bytes begin with, and the place where
//! they leave the format, is defined in specs/Syntax; by laws there is one such place at most, and none where a report is read.
//! That a refusal's place is that one isn't proved yet; of a single value `StopsAt` says that its reader stops only before a piece
//! that is the text of no good value.
#![tactic(auto)]

mod blocks;
mod items;
mod laws;
mod lines;
mod lists;
mod pieces;
mod refusals;
mod reports;
mod words;

pub use laws::{one_place_of_syntax, pieces_of_bytes, reports_end_within};
pub use refusals::ReportRefusal;
pub use reports::read_report;
