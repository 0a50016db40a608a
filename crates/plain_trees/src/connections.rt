// Which nodes are above others, which sets are connected, and which pairs of sequences are relevant.
ghost use Rattle.std.specs.Prelude.{◌≡◌, ◌↔◌, ◌⊎◌, ◌<◌, ℕ, Some, length, slice_get, IsTrue};
ghost use Rattle.connected_pairs.specs.Table.{AreConnected};
ghost use Rattle.corr_game.specs.declared.sides.Side.TheVariants.{Two};
ghost use Rattle.plain_trees.specs.Meeting.{IsMetFrom};
ghost use Rattle.plain_trees.specs.Relevant.{AreRelevant};
ghost use Rattle.tree_recall.specs.Tree.{IsAbove, set_of};

use crate::nodes::{is_of_set, kids_of};
use corr_game::{Game, SetId, Side};

/// Whether a node is above another one: that is a kid of it, or below a kid of it.
pub fn is_above(game: &Game, m: u32, n: u32) -> bool
    requires { m < length game.now.nodes }
    ensures { IsTrue result ↔ IsAbove game.now m n }
{
    let Some(kids) = kids_of(game.node(m)) else {
        return false;
    };
    for k in 0..kids.len() {
        let kid = *kids.at(k);
        if kid == n || is_above(game, kid, n) {
            return true;
        }
    }
    false
}

/// Whether a set of player 1 and a set of player 2 are connected: some node of one is above some node of the other.
pub fn are_connected(game: &Game, one: SetId, two: SetId) -> bool
    ensures { IsTrue result ↔ AreConnected game.now one.0 two.0 }
{
    for m in 0..game.len() {
        if is_of_set(game, Side::One, one, m) && is_met_from(game, m, two) {
            return true;
        }
    }
    false
}

/// Whether a node is above or below some node of a set of player 2.
fn is_met_from(game: &Game, m: u32, two: SetId) -> bool
    requires { m < length game.now.nodes }
    ensures { IsTrue result ↔ IsMetFrom game.now m two.0 }
{
    for n in 0..game.len() {
        if is_of_set(game, Side::Two, two, n) && lie_on_a_path(game, m, n) {
            return true;
        }
    }
    false
}

/// Whether one of two nodes is above the other.
fn lie_on_a_path(game: &Game, m: u32, n: u32) -> bool
    requires m_in { m < length game.now.nodes }
    requires n_in { n < length game.now.nodes }
    ensures { IsTrue result ↔ (IsAbove game.now m n ⊎ IsAbove game.now n m) }
{
    is_above(game, m, n) || is_above(game, n, m)
}

/// Whether a sequence of player 1 and one of player 2, each the latest move first, are relevant: one is empty, or their
/// last sets are connected.
pub fn are_relevant(game: &Game, one: &[(SetId, usize)], two: &[(SetId, usize)]) -> bool
    ensures { IsTrue result ↔ AreRelevant game.now one.now two.now }
{
    let (Some(first), Some(second)) = (one.first(), two.first()) else {
        return true;
    };
    are_connected(game, first.0, second.0)
}
