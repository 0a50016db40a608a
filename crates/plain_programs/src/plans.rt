// To which sets a plan leads, by a walk down the tree that tries every action it allows.
ghost use Rattle.std.specs.Prelude.{◌≡◌, ◌↔◌, ◌<◌, ℕ, Some, [], length, slice_get, IfNone, IfSome, IsTrue};
ghost use Rattle.corr_game.specs.Game.{sets_of};
ghost use Rattle.corr_game.specs.Node.{kids_of, same_side, set_at};
ghost use Rattle.equilibrium.specs.Reach.{allows, comes_to, is_set, leads, names};
ghost use Rattle.equilibrium.specs.ReducedPlan.{IsReduced};
ghost use Rattle.plain_programs.specs.ReducedAt.{IsReducedAt};

use corr_game::{Game, Node, NodeList, Plan, SetId, Side};

/// Whether a plan leads to a set: chance and the other player may move so that some node of it is reached.
pub fn leads(game: &Game, side: Side, plan: &Plan, set: SetId) -> bool
    requires { length plan.now ≡ length (sets_of side game.now) }
    ensures { result ≡ leads side game.now plan.now set.0 }
{
    leads_from(game, side, plan, set, root(game))
}

/// The number of the root, which a game always has.
fn root(game: &Game) -> u32
    ensures first { result ≡ 0 }
    ensures in_range { result < length game.now.nodes }
{
    let _ = game.len();
    0
}

/// Whether a plan is reduced: it names one of a set's actions exactly at the sets to which it leads.
pub fn is_reduced(game: &Game, side: Side, plan: &Plan) -> bool
    ensures { IsTrue result ↔ IsReduced side game.now plan.now }
{
    if plan.len() != game.sets(side) as usize {
        return false;
    }
    for set in 0..game.sets(side) {
        if !is_reduced_at(game, side, plan, SetId(set)) {
            return false;
        }
    }
    true
}

fn is_reduced_at(game: &Game, side: Side, plan: &Plan, set: SetId) -> bool
    requires per_set { length plan.now ≡ length (sets_of side game.now) }
    requires set_in { set.0 < length (sets_of side game.now) }
    ensures { IsTrue result ↔ IsReducedAt side game.now plan.now set.0 }
{
    let led = leads(game, side, plan, set);
    match plan.at(set) {
        Some(action) => {
            let actions = game.set(side, set).actions;
            led && action < actions
        }
        None => !led,
    }
}

fn leads_from(game: &Game, side: Side, plan: &Plan, set: SetId, n: u32) -> bool
    requires per_set { length plan.now ≡ length (sets_of side game.now) }
    requires in_range { n < length game.now.nodes }
    ensures { result ≡ comes_to (allows side plan.now) side game.now set.0 n }
{
    let node = game.node(n);
    if is_of_set(node, side, set) {
        return true;
    }
    let Some(kids) = kids_of(node) else {
        return false;
    };
    for k in 0..kids.len() {
        if allows(side, plan, node, k) && leads_from(game, side, plan, set, *kids.at(k)) {
            return true;
        }
    }
    false
}

pub fn kids_of(node: &Node) -> Option<&NodeList>
    ensures some { IfSome result (λ kids. kids.now ≡ kids_of node.now) }
    ensures none { IfNone result (kids_of node.now ≡ []) }
{
    match node {
        Node::Leaf { .. } => None,
        Node::Chance { kids } => Some(kids),
        Node::Choice { kids, .. } => Some(kids),
    }
}

fn same_side(one: Side, other: Side) -> bool
    ensures { result ≡ same_side one other }
{
    match one {
        Side::One => matches!(other, Side::One),
        Side::Two => matches!(other, Side::Two),
    }
}

/// Whether a node is of this player's set.
pub fn is_of_set(node: &Node, side: Side, set: SetId) -> bool
    ensures { result ≡ is_set set.0 (set_at side node.now) }
{
    match node {
        Node::Leaf { .. } => false,
        Node::Chance { .. } => false,
        Node::Choice {
            side: mover,
            set: at,
            ..
        } => {
            if same_side(side, *mover) {
                at.0 == set.0
            } else {
                false
            }
        }
    }
}

/// Whether a plan allows an action at a node: where its player moves the one that it names, elsewhere each.
fn allows(side: Side, plan: &Plan, node: &Node, action: usize) -> bool
    requires covered { (set : ℕ) → set_at side node.now ≡ Some set → set < length plan.now }
    ensures { result ≡ allows side plan.now node.now action }
{
    match node {
        Node::Leaf { .. } => true,
        Node::Chance { .. } => true,
        Node::Choice {
            side: mover,
            set,
            ..
        } => {
            if same_side(side, *mover) {
                names(plan, *set, action)
            } else {
                true
            }
        }
    }
}

/// Whether a plan names this action at a set.
pub fn names(plan: &Plan, set: SetId, action: usize) -> bool
    requires { set.0 < length plan.now }
    ensures { result ≡ names action (slice_get plan.now set.0) }
{
    match plan.at(set) {
        Some(named) => named as usize == action,
        None => false,
    }
}
