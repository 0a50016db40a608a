//! The commands of `corr`: what is read, what is answered, and with which status the program ends.
//!
//! It stands on all crates below. `corr_cli` makes a source and a sink of the process' streams and calls `run`, whose
//! contract says, for every source and every sink, which text is written when.
#![tactic(auto)]

mod answer;
mod checking;
mod games;
mod input;
mod one_node;
mod prepare;
mod solving;
mod status;
mod top;

pub use command_words::{Command, Notions, read_words};
pub use prepare::{Ready, ReadyEnd};
pub use status::Status;
pub use top::run;
