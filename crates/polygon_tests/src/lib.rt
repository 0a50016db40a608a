//! Tests of which proposals `polygon_check` and the belt accept, over one small program.
//!
//! They stand apart from the crates that they call, since a crate with tests is proved twice. No
//! layer depends on them.
#![tactic(auto)]

#[cfg(test)]
mod programs;
#[cfg(test)]
mod proposals;
