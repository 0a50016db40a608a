//! Tests of the way from a file's bytes to its game: tokens, number words, lines, nodes, the one-node form.
//!
//! They stand apart from the crates that they call, since a crate with tests is proved twice. No layer depends on them.
#![tactic(auto)]

#[cfg(test)]
mod building;
#[cfg(test)]
mod cutting;
#[cfg(test)]
mod grammar;
#[cfg(test)]
mod one_node;
#[cfg(test)]
mod values;
