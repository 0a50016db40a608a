//! Tests of what is read off a game's tree: amounts, recall, sequences, relevant pairs, triangles, the rows of a notion's program.
//!
//! `games` has their games as files, and `opened` the relevant pairs of a game. The tests stand apart from the crates that they call, since a crate with tests is
//! proved twice. No layer depends on them.
#![tactic(auto)]

#[cfg(test)]
mod games;
#[cfg(test)]
mod incentives;
#[cfg(test)]
mod memory;
#[cfg(test)]
mod numbering;
#[cfg(test)]
mod opened;
#[cfg(test)]
mod plain;
#[cfg(test)]
mod polytopes;
#[cfg(test)]
mod relevance;
#[cfg(test)]
mod scaled;
#[cfg(test)]
mod triangles;
