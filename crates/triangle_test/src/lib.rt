//! Whether a game has a triangle, and whether its chance is public. No call takes memory.
//!
//! It stands on `corr_game` and `connected_pairs`. A triangle is two sets of each player, with one own sequence per
//! player, of which three pairs are connected. The layer above refuses games that have one.
#![tactic(auto)]

mod chances;
mod laws;
mod triangles;

pub use chances::public_chance;
pub use laws::{
    public_chance_keeps_sets_below_one_kid, public_chance_leaves_no_triangle,
    sets_of_one_node_keep_chance_public, the_least_triangle_is_that_of_the_tree,
    triangles_are_those_of_the_tree, without_chance_it_is_public,
};
pub use triangles::{Quad, triangle};
