//! The words behind the program's name: which of them mean a command, and which one.
//!
//! A word for what is to be done comes first, then pairs of an option and its value, in any order, each option at most
//! once. It stands on `corr_game` for the notions, on `game_gen` for the kinds and on `clap`, which hands out the values of
//! options by their names once the words are known to mean a command. The one call is `read_words`; which words mean what
//! is said in `specs/Words` and `specs/Options`.
#![tactic(auto)]

mod commands;
mod options;
mod values;
mod words;

pub use commands::{Command, Notions};
pub use words::read_words;
