//! Tests of streams, words and texts: what is read, what words mean, what is printed.
//!
//! They stand apart from the crates that they call, since a crate with tests is proved twice. No layer depends on them.
#![tactic(auto)]

#[cfg(test)]
mod generated;
#[cfg(test)]
mod pieces;
#[cfg(test)]
mod reports;
#[cfg(test)]
mod streams;
#[cfg(test)]
mod texts;
#[cfg(test)]
mod words;
