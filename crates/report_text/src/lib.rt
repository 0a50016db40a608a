//! The text of a report in the first format, the lines of refusals, and the parts of a report one by one.
//!
//! It stands on `report_form` for the values and on `text_pieces` for writing. What each call writes is a function of its
//! value in `specs/`: the text of a report in `ReportText`, that of a refusal in `RefusalText`, the five parts that other
//! texts share in `PartText`. The calls that add a part say what stands in `out` after want of memory too: a front of it.
#![tactic(auto)]

mod blocks;
mod laws;
mod lists;
mod names;
mod parts;
mod refusals;
mod reports;

pub use laws::names_tell_apart;
pub use parts::{add_frac, add_multipliers, add_pair, add_place, add_side};
pub use refusals::write_refusal;
pub use reports::write_report;
