//! Slow and plain programs of the tree alone, whose contracts are definitions, by going through all nodes.
//!
//! It stands on the crates that hold the definitions, and no layer of the program stands on it: tests call it.
//!
//! - `is_above`, `are_connected`: which nodes lie above others, and which sets are connected
//! - `own_sequence`, `has_recall`: the own moves on the path to a node, and whether a player remembers them
//! - `are_relevant`: whether a pair of sequences is relevant
//! - `least_triangle`: the least triangle of information sets
//! - `has_public_chance`: whether no set has nodes under two kids of one chance node
#![tactic(auto)]

mod chances;
mod connections;
mod nodes;
mod own_moves;
mod triangles;

pub use chances::has_public_chance;
pub use connections::{are_connected, are_relevant, is_above};
pub use own_moves::{has_recall, own_sequence};
pub use triangles::least_triangle;
