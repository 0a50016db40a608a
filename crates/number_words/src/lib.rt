//! The numbers that words of a game file write: their exact values in lowest terms, within the limits of the format, and
//! the rules on the probabilities of a list.
//!
//! It stands on the fractions of `corr_num`. The layer above may use that `whole_value` and `number_value` are the
//! values that `specs/Value` says, none exactly where a word passes a limit, that a `Number` is in lowest terms, so that
//! equal numbers are equal values, and that the three tests on probabilities are those of `specs/Chances`.
#![tactic(auto)]

mod chances;
mod number;
mod values;
mod words;

pub use chances::{common_denominator, has_negative, sums_to_one};
pub use number::Number;
pub use values::{number_value, whole_value};
pub use words::{is_number, is_whole};
