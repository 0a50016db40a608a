// What a node is: its kids, its set, and the action that leads to a kid.
ghost use Rattle.std.specs.Prelude.{◌≡◌, ◌↔◌, ◌<◌, ℕ, Some, None, [], length, slice_get, IfNone, IfSome, IsTrue};
ghost use Rattle.corr_game.specs.Node.{kids_of, same_side, set_at};
ghost use Rattle.tree_recall.specs.Tree.{kid_of, set_of};

use corr_game::{Game, Node, NodeList, SetId, Side};

pub fn kids_of(node: &Node) -> Option<&NodeList>
    ensures some { IfSome result (λ kids. kids.now ≡ kids_of node.now) }
    ensures none { IfNone result (kids_of node.now ≡ []) }
{
    match node {
        Node::Leaf { .. } => None,
        Node::Chance { kids } => Some(kids),
        Node::Choice { kids, .. } => Some(kids),
    }
}

fn same_side(one: Side, other: Side) -> bool
    ensures { result ≡ same_side one other }
{
    match one {
        Side::One => matches!(other, Side::One),
        Side::Two => matches!(other, Side::Two),
    }
}

/// The set of a node where this player moves.
fn own_set_at(node: &Node, side: Side) -> Option<SetId>
    ensures some { IfSome result (λ set. set_at side node.now ≡ Some set.0) }
    ensures none { IfNone result (set_at side node.now ≡ None) }
{
    let Node::Choice {
        side: mover,
        set,
        ..
    } = node
    else {
        return None;
    };
    if same_side(side, *mover) {
        Some(*set)
    } else {
        None
    }
}

/// The set at a node of the game where this player moves.
pub fn own_set(game: &Game, side: Side, n: u32) -> Option<SetId>
    requires { n < length game.now.nodes }
    ensures some { IfSome result (λ set. set_of game.now side n ≡ Some set.0) }
    ensures none { IfNone result (set_of game.now side n ≡ None) }
{
    own_set_at(game.node(n), side)
}

/// Whether a node of the game is of this player's set.
pub fn is_of_set(game: &Game, side: Side, set: SetId, n: u32) -> bool
    requires { n < length game.now.nodes }
    ensures { IsTrue result ↔ (set_of game.now side n ≡ Some set.0) }
{
    match own_set(game, side, n) {
        Some(there) => there.0 == set.0,
        None => false,
    }
}

/// The action by which a node leads to a kid.
fn action_towards(node: &Node, kid: u32) -> Option<usize>
    ensures some { IfSome result (λ action. slice_get (kids_of node.now) action ≡ Some kid) }
    ensures none { IfNone result ((action : ℕ) → slice_get (kids_of node.now) action ≡ Some kid → ⊥) }
{
    let kids = kids_of(node)?;
    for k in 0..kids.len() {
        if *kids.at(k) == kid {
            return Some(k);
        }
    }
    None
}

/// The action by which a node of the game leads to a kid.
pub fn action_to(game: &Game, n: u32, kid: u32) -> Option<usize>
    requires { n < length game.now.nodes }
    ensures some { IfSome result (λ action. kid_of game.now n action ≡ Some kid) }
    ensures none { IfNone result ((action : ℕ) → kid_of game.now n action ≡ Some kid → ⊥) }
{
    action_towards(game.node(n), kid)
}
