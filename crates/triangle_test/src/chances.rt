ghost use Rattle.std.specs.Prelude.{◌≡◌, ◌↔◌, ◌<◌, ◌≤◌, ◌+◌, ℕ, Some, length, IfNone, IfSome, IsTrue};
ghost use Rattle.corr_game.specs.Node.{same_side};
ghost use Rattle.tree_recall.specs.Tree.{set_of};
ghost use Rattle.triangle_test.specs.Parting.{AreUpTo, IsCommonKid, IsLastOfSet, IsNextOfSet, IsUnder, PartAtChance, PartsFromNext};
ghost use Rattle.triangle_test.specs.PublicChance.{IsPublicChance};

use corr_game::{Game, Node, NodeList, SetId, Side};

/// Whether no set of a player has nodes under two kids of one chance node.
///
/// Two nodes part at the last node above both. Of all the nodes of a set, in file order, two that part at the highest
/// place are next to each other, so each node is compared with the next of its set alone.
pub fn public_chance(game: &Game) -> bool
    ensures { IsTrue result ↔ IsPublicChance game.now }
{
    for n in 0..game.len() {
        if parts_from_next(game, n) {
            return false;
        }
    }
    true
}

/// Whether a node and the next of its set part at a chance node.
fn parts_from_next(game: &Game, n: u32) -> bool
    requires { n < length game.now.nodes }
    ensures { IsTrue result ↔ PartsFromNext game.now n }
{
    let _ = game.len();
    let Some(next) = next_of_set(game, n) else {
        return false;
    };
    parts_at_chance(game, 0, n, next)
}

/// The next node of this node's set, if it has a set and there is one.
fn next_of_set(game: &Game, n: u32) -> Option<u32>
    requires { n < length game.now.nodes }
    ensures inside { IfSome result (λ next. next < length game.now.nodes) }
    ensures some { IfSome result (IsNextOfSet game.now n) }
    ensures none { IfNone result (IsLastOfSet game.now n) }
{
    let Node::Choice { side, set, .. } = game.node(n) else {
        return None;
    };
    for m in n + 1..game.len() {
        if is_of_set(game, *side, *set, m) {
            return Some(m);
        }
    }
    None
}

/// Whether a node is of this player's set.
fn is_of_set(game: &Game, side: Side, set: SetId, n: u32) -> bool
    requires { n < length game.now.nodes }
    ensures { IsTrue result ↔ (set_of game.now side n ≡ Some set.0) }
{
    match game.node(n) {
        Node::Leaf { .. } | Node::Chance { .. } => false,
        Node::Choice {
            side: mover,
            set: there,
            ..
        } => same_side(side, *mover) && there.0 == set.0,
    }
}

fn same_side(one: Side, other: Side) -> bool
    ensures { result ≡ same_side one other }
{
    match one {
        Side::One => matches!(other, Side::One),
        Side::Two => matches!(other, Side::Two),
    }
}

/// Whether two nodes under `above` part at a chance node.
fn parts_at_chance(game: &Game, above: u32, first: u32, second: u32) -> bool
    requires inside { above < length game.now.nodes }
    requires first_under { IsUnder game.now above first }
    requires second_under { IsUnder game.now above second }
    ensures { IsTrue result ↔ PartAtChance game.now above first second }
{
    match game.node(above) {
        Node::Leaf { .. } => false,
        Node::Chance { kids } => match common_kid(kids, first, second) {
            Some(kid) => parts_at_chance(game, kid, first, second),
            None => true,
        },
        Node::Choice { kids, .. } => match common_kid(kids, first, second) {
            Some(kid) => parts_at_chance(game, kid, first, second),
            None => false,
        },
    }
}

/// The kid whose subtree holds both nodes, or none.
fn common_kid(kids: &NodeList, first: u32, second: u32) -> Option<u32>
    ensures some { IfSome result (IsCommonKid kids.now first second) }
    ensures none { IfNone result ((k : ℕ) → AreUpTo kids.now first (k + 1) → AreUpTo kids.now second (k + 1) → ⊥) }
{
    let towards = kids_up_to(kids, first);
    if towards > 0 && towards == kids_up_to(kids, second) {
        Some(*kids.at(towards - 1))
    } else {
        None
    }
}

/// How many kids have a number of at most this one.
fn kids_up_to(kids: &NodeList, n: u32) -> usize
    ensures { AreUpTo kids.now n result }
{
    for k in 0..kids.len() {
        if *kids.at(k) > n {
            return k;
        }
    }
    kids.len()
}
