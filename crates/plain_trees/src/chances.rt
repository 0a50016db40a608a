// Public chance, by comparing each two kids of each chance node.
ghost use Rattle.std.specs.Prelude.{◌≡◌, ◌↔◌, ◌<◌, ℕ, length, All, IsTrue};
ghost use Rattle.plain_trees.specs.Chances.{AreMates, HasMateUnder, PartsFrom, PartsSet};
ghost use Rattle.triangle_test.specs.PublicChance.{IsAtOrBelow, IsPublicChance, ShareSet};

use crate::connections::is_above;
use crate::own_moves::are_of_one_set;
use corr_game::{Game, Node, NodeList, Side};

/// Whether no set has nodes at or below two different kids of one chance node.
pub fn has_public_chance(game: &Game) -> bool
    ensures { IsTrue result ↔ IsPublicChance game.now }
{
    for n in 0..game.len() {
        if parts_a_set(game, n) {
            return false;
        }
    }
    true
}

/// Whether nature moves at a node, and two different kids of it share a set.
fn parts_a_set(game: &Game, n: u32) -> bool
    requires { n < length game.now.nodes }
    ensures { IsTrue result ↔ PartsSet game.now n }
{
    let Node::Chance { kids } = game.node(n) else {
        return false;
    };
    for k in 0..kids.len() {
        if parts_from(game, kids, *kids.at(k)) {
            return true;
        }
    }
    false
}

/// Whether one of these kids is another one than this, and they share a set.
fn parts_from(game: &Game, kids: &NodeList, kid: u32) -> bool
    requires inside { All (λ other. other < length game.now.nodes) kids.now }
    requires kid_in { kid < length game.now.nodes }
    ensures { IsTrue result ↔ PartsFrom game.now kids.now kid }
{
    for k in 0..kids.len() {
        let other = *kids.at(k);
        if kid != other && share_set(game, kid, other) {
            return true;
        }
    }
    false
}

/// Whether a set has a node at or below one node and a node at or below another.
fn share_set(game: &Game, a: u32, b: u32) -> bool
    requires a_in { a < length game.now.nodes }
    requires b_in { b < length game.now.nodes }
    ensures { IsTrue result ↔ ShareSet game.now a b }
{
    for m in 0..game.len() {
        if is_at_or_below(game, a, m) && has_mate_under(game, m, b) {
            return true;
        }
    }
    false
}

/// Whether a node is of a set that has a node at or below another one.
fn has_mate_under(game: &Game, m: u32, top: u32) -> bool
    requires m_in { m < length game.now.nodes }
    requires top_in { top < length game.now.nodes }
    ensures { IsTrue result ↔ HasMateUnder game.now m top }
{
    for n in 0..game.len() {
        if is_at_or_below(game, top, n) && are_mates(game, m, n) {
            return true;
        }
    }
    false
}

/// Whether a node is this one or below it.
fn is_at_or_below(game: &Game, top: u32, n: u32) -> bool
    requires { top < length game.now.nodes }
    ensures { IsTrue result ↔ IsAtOrBelow game.now top n }
{
    top == n || is_above(game, top, n)
}

/// Whether two nodes are of one set of some player.
fn are_mates(game: &Game, m: u32, n: u32) -> bool
    requires m_in { m < length game.now.nodes }
    requires n_in { n < length game.now.nodes }
    ensures { IsTrue result ↔ AreMates game.now m n }
{
    are_of_one_set(game, Side::One, m, n) || are_of_one_set(game, Side::Two, m, n)
}
