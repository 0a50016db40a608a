// A player's own sequence at a node, by going up to the root, and perfect recall, by comparing each two nodes of a set.
ghost use Rattle.std.specs.Prelude.{◌≡◌, ◌↔◌, ◌<◌, ℕ, Some, length, IfNone, IfOk, IfSome, IsTrue};
ghost use Rattle.plain_trees.specs.Remembering.{AreAlikeAt, AreOfOneSet, IsAdded};
ghost use Rattle.tree_recall.specs.OwnSequence.{HasRecall, IsOwnAt};
ghost use Rattle.tree_recall.specs.Tree.{kid_of};

use crate::nodes::{action_to, own_set};
use corr_game::{Game, SetId, Side};
use std::alloc::{AllocError as NoMemory, Global};

/// The node right above another one, and the action that leads from it to that.
#[derive(Clone, Copy, Debug)]
struct Step {
    from: u32,
    action: usize,
}

/// The step to a node, which only the root lacks.
fn step_to(game: &Game, n: u32) -> Option<Step>
    ensures some { IfSome result (λ step. kid_of game.now step.from step.action ≡ Some n) }
    ensures none { IfNone result ((m action : ℕ) → kid_of game.now m action ≡ Some n → ⊥) }
{
    for m in 0..game.len() {
        if let Some(action) = action_to(game, m, n) {
            return Some(Step { from: m, action });
        }
    }
    None
}

/// The own moves on the path to a node, the latest first.
pub fn own_sequence(
    alloc: Global,
    game: &Game,
    side: Side,
    n: u32,
) -> Result<Vec<(SetId, usize)>, NoMemory>
    requires { n < length game.now.nodes }
    ensures { IfOk result (λ moves. IsOwnAt game.now side n moves.items) }
{
    let _ = game.len();
    let mut moves = Vec::new(alloc);
    let mut at = n;
    while let Some(step) = step_to(game, at) {
        add_move(game, side, step, &mut moves)?;
        at = step.from;
    }
    Ok(moves)
}

/// Puts the move of a step behind others, if it is the player's own.
fn add_move(
    game: &Game,
    side: Side,
    step: Step,
    moves: &mut Vec<(SetId, usize)>,
) -> Result<(), NoMemory>
    requires { step.from < length game.now.nodes }
    ensures { IfOk result (λ _. IsAdded game.now side step.from step.action moves.old.items moves.new.items) }
{
    if let Some(set) = own_set(game, side, step.from) {
        moves.push((set, step.action))?;
    }
    Ok(())
}

/// Whether a player has perfect recall: all nodes of a set have the same own sequence.
pub fn has_recall(alloc: Global, game: &Game, side: Side) -> Result<bool, NoMemory>
    ensures { IfOk result (λ answer. IsTrue answer ↔ HasRecall game.now side) }
{
    for m in 0..game.len() {
        if !is_alike_from(alloc, game, side, m)? {
            return Ok(false);
        }
    }
    Ok(true)
}

/// Whether a node has the own sequence of each node of its set.
fn is_alike_from(alloc: Global, game: &Game, side: Side, m: u32) -> Result<bool, NoMemory>
    requires { m < length game.now.nodes }
    ensures { IfOk result (λ answer. IsTrue answer ↔ ((n : ℕ) → AreAlikeAt game.now side m n)) }
{
    for n in 0..game.len() {
        if !are_alike_at(alloc, game, side, m, n)? {
            return Ok(false);
        }
    }
    Ok(true)
}

/// Whether two nodes, if they are of one set, have one own sequence.
fn are_alike_at(alloc: Global, game: &Game, side: Side, m: u32, n: u32) -> Result<bool, NoMemory>
    requires m_in { m < length game.now.nodes }
    requires n_in { n < length game.now.nodes }
    ensures { IfOk result (λ answer. IsTrue answer ↔ AreAlikeAt game.now side m n) }
{
    let _ = game.len();
    if !are_of_one_set(game, side, m, n) {
        return Ok(true);
    }
    let a = own_sequence(alloc, game, side, m)?;
    let b = own_sequence(alloc, game, side, n)?;
    Ok(are_same(&a, &b))
}

/// Whether two nodes are of one set of a player.
pub fn are_of_one_set(game: &Game, side: Side, m: u32, n: u32) -> bool
    requires m_in { m < length game.now.nodes }
    requires n_in { n < length game.now.nodes }
    ensures { IsTrue result ↔ AreOfOneSet game.now side m n }
{
    let (Some(a), Some(b)) = (own_set(game, side, m), own_set(game, side, n)) else {
        return false;
    };
    a.0 == b.0
}

/// Whether two sequences are the same, move by move.
pub fn are_same(a: &[(SetId, usize)], b: &[(SetId, usize)]) -> bool
    ensures { IsTrue result ↔ (a.now ≡ b.now) }
{
    if a.len() != b.len() {
        return false;
    }
    for k in 0..a.len() {
        if !is_same_move(a[k], b[k]) {
            return false;
        }
    }
    true
}

fn is_same_move(a: (SetId, usize), b: (SetId, usize)) -> bool
    ensures { IsTrue result ↔ (a ≡ b) }
{
    a.0.0 == b.0.0 && a.1 == b.1
}
