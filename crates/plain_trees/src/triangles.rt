// Triangles of information sets, by going through all sets and nodes of the tree.
ghost use Rattle.std.specs.Prelude.{◌≡◌, ◌↔◌, ◌∷◌, [], ◌<◌, ℕ, length, IfNone, IfOk, IfSome, IsTrue};
ghost use Rattle.plain_trees.specs.Siblings.{HasSequenceOf, HaveOwnAlike};
ghost use Rattle.plain_trees.specs.Least.{IsLeastWith, NoneWith};
ghost use Rattle.triangle_test.specs.TreeTriangle.{AreTreeSiblings, HasNoTreeTriangle, HaveOneSequence, IsLeastTreeTriangle, IsTreeTriangle};

use crate::connections::are_connected;
use crate::nodes::is_of_set;
use crate::own_moves::{are_same, own_sequence};
use corr_game::{Game, SetId, Side};
use std::alloc::{AllocError as NoMemory, Global};
use triangle_test::Quad;

/// The least triangle of the tree, compared by set numbers from the left, or none.
pub fn least_triangle(alloc: Global, game: &Game) -> Result<Option<Quad>, NoMemory>
    ensures some { IfOk result (λ found. IfSome found (IsLeastTreeTriangle game.now)) }
    ensures none { IfOk result (λ found. IfNone found (HasNoTreeTriangle game.now)) }
{
    for one_a in 0..game.sets(Side::One) {
        if let Some(quad) = least_with_one(alloc, game, SetId(one_a))? {
            return Ok(Some(quad));
        }
    }
    Ok(None)
}

/// The least triangle with this first set of player 1.
fn least_with_one(alloc: Global, game: &Game, one_a: SetId) -> Result<Option<Quad>, NoMemory>
    ensures some { IfOk result (λ found. IfSome found (IsLeastWith game.now (one_a.0 ∷ []))) }
    ensures none { IfOk result (λ found. IfNone found (NoneWith game.now (one_a.0 ∷ []))) }
{
    for one_b in 0..game.sets(Side::One) {
        if let Some(quad) = least_with_two(alloc, game, one_a, SetId(one_b))? {
            return Ok(Some(quad));
        }
    }
    Ok(None)
}

/// The least triangle with these two sets of player 1.
fn least_with_two(
    alloc: Global,
    game: &Game,
    one_a: SetId,
    one_b: SetId,
) -> Result<Option<Quad>, NoMemory>
    ensures some { IfOk result (λ found. IfSome found (IsLeastWith game.now (one_a.0 ∷ one_b.0 ∷ []))) }
    ensures none { IfOk result (λ found. IfNone found (NoneWith game.now (one_a.0 ∷ one_b.0 ∷ []))) }
{
    for two_a in 0..game.sets(Side::Two) {
        if let Some(quad) = least_with_three(alloc, game, one_a, one_b, SetId(two_a))? {
            return Ok(Some(quad));
        }
    }
    Ok(None)
}

/// The least triangle with these three sets.
fn least_with_three(
    alloc: Global,
    game: &Game,
    one_a: SetId,
    one_b: SetId,
    two_a: SetId,
) -> Result<Option<Quad>, NoMemory>
    ensures some { IfOk result
        (λ found. IfSome found (IsLeastWith game.now (one_a.0 ∷ one_b.0 ∷ two_a.0 ∷ []))) }
    ensures none { IfOk result
        (λ found. IfNone found (NoneWith game.now (one_a.0 ∷ one_b.0 ∷ two_a.0 ∷ []))) }
{
    for two_b in 0..game.sets(Side::Two) {
        let quad = Quad {
            one_a,
            one_b,
            two_a,
            two_b: SetId(two_b),
        };
        if is_triangle(alloc, game, quad)? {
            return Ok(Some(quad));
        }
    }
    Ok(None)
}

/// Whether four sets make a triangle.
fn is_triangle(alloc: Global, game: &Game, quad: Quad) -> Result<bool, NoMemory>
    ensures { IfOk result (λ answer. IsTrue answer ↔ IsTreeTriangle game.now quad) }
{
    if !are_connected(game, quad.one_a, quad.two_a) {
        return Ok(false);
    }
    if !are_connected(game, quad.one_b, quad.two_b) {
        return Ok(false);
    }
    if !are_connected(game, quad.one_a, quad.two_b) {
        return Ok(false);
    }
    if !are_siblings(alloc, game, Side::One, quad.one_a, quad.one_b)? {
        return Ok(false);
    }
    are_siblings(alloc, game, Side::Two, quad.two_a, quad.two_b)
}

/// Whether two sets of a player are different and have one own sequence.
fn are_siblings(
    alloc: Global,
    game: &Game,
    side: Side,
    a: SetId,
    b: SetId,
) -> Result<bool, NoMemory>
    ensures { IfOk result (λ answer. IsTrue answer ↔ AreTreeSiblings game.now side a.0 b.0) }
{
    if a.0 == b.0 {
        return Ok(false);
    }
    have_one_sequence(alloc, game, side, a, b)
}

/// Whether the own sequence is the same at some node of one set and some node of another.
fn have_one_sequence(
    alloc: Global,
    game: &Game,
    side: Side,
    a: SetId,
    b: SetId,
) -> Result<bool, NoMemory>
    ensures { IfOk result (λ answer. IsTrue answer ↔ HaveOneSequence game.now side a.0 b.0) }
{
    for m in 0..game.len() {
        if is_of_set(game, side, a, m) {
            if has_sequence_of(alloc, game, side, m, b)? {
                return Ok(true);
            }
        }
    }
    Ok(false)
}

/// Whether a node has the own sequence of some node of a set.
fn has_sequence_of(
    alloc: Global,
    game: &Game,
    side: Side,
    m: u32,
    set: SetId,
) -> Result<bool, NoMemory>
    requires { m < length game.now.nodes }
    ensures { IfOk result (λ answer. IsTrue answer ↔ HasSequenceOf game.now side m set.0) }
{
    for n in 0..game.len() {
        if is_of_set(game, side, set, n) {
            if have_own_alike(alloc, game, side, m, n)? {
                return Ok(true);
            }
        }
    }
    Ok(false)
}

/// Whether two nodes have one own sequence.
fn have_own_alike(alloc: Global, game: &Game, side: Side, m: u32, n: u32) -> Result<bool, NoMemory>
    requires m_in { m < length game.now.nodes }
    requires n_in { n < length game.now.nodes }
    ensures { IfOk result (λ answer. IsTrue answer ↔ HaveOwnAlike game.now side m n) }
{
    let _ = game.len();
    let a = own_sequence(alloc, game, side, m)?;
    let b = own_sequence(alloc, game, side, n)?;
    Ok(are_same(&a, &b))
}
