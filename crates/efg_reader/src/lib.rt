//! What the node lines of a game file say: the tree, the sets and the payoffs of each node's own outcome, by `build`.
//!
//! A refusal of `build` is the first that the lines break, by specs/FirstRefusal, in the order of `FileRefusal`; there is no
//! game exactly where they break one, unless memory ran out. The raw game is the one that the lines say, by specs/FileGame.
//! By a law it is a tree: each node is a kid in one place at most, and of a node before it.
//!
//! It stands on the lines of `efg_lines`, the numbers of `number_words` and the nodes and sets of `corr_game`. The layer
//! above may use that the tree and the sets of a `RawGame` keep all rules of a game, that its chance nodes have a
//! probability for each kid, and that its probabilities and payoffs are within their limits.
#![tactic(auto)]

mod builder;
mod entry;
mod events;
mod first_lists;
mod laws;
mod outcomes;
mod outline;
mod raw_game;
mod set_lists;
mod tree;

pub use builder::build;
pub use laws::each_node_has_one_parent;
pub use raw_game::{FracList, RawGame, RawNode, RawParts, Shape};
