ghost use Rattle.std.specs.Prelude.{◌≡◌, ◌<◌, ◌↔◌, ℕ, IfSome, IsTrue, None, length, false, true};
ghost use Rattle.sequences.specs.Number.{side_of};
ghost use Rattle.connected_pairs.specs.Connected.{IsPairsOf, are_connected};
ghost use Rattle.triangle_test.specs.Triangle.{AreSiblings, HasNoTriangle, IsLast, IsLeastFrom, IsLeastOver, IsLeastTriangle, IsLeastWith, IsMet, IsPartner, NoneAcross, NoneFrom, NoneOf, NoneOver, NoneWith};

use connected_pairs::Pairs;
use corr_game::{Game, SetId, Side};

/// Two sets of each player.
#[derive(Clone, Copy, Debug, PartialEq, Eq)]
pub struct Quad {
    pub one_a: SetId,
    pub one_b: SetId,
    pub two_a: SetId,
    pub two_b: SetId,
}

/// The least triangle, compared by set numbers from the left, or none.
pub fn triangle(game: &Game, pairs: &Pairs) -> Option<Quad>
    requires { IsPairsOf game.now pairs.now }
    ensures some { IfSome result (IsLeastTriangle pairs.now) }
    ensures none { result ≡ None → HasNoTriangle pairs.now }
{
    for one_a in 0..set_count(game, pairs, Side::One) {
        if let Some(quad) = triangle_from(game, pairs, SetId(one_a)) {
            return Some(quad);
        }
    }
    None
}

/// The least triangle with this first set. Only a set that is in one is searched to the end.
fn triangle_from(game: &Game, pairs: &Pairs, one_a: SetId) -> Option<Quad>
    requires of { IsPairsOf game.now pairs.now }
    requires one_in { one_a.0 < length pairs.now.seqs.one.places }
    ensures some { IfSome result (IsLeastFrom pairs.now one_a.0) }
    ensures none { result ≡ None → NoneFrom pairs.now one_a.0 }
{
    if !begins_one(game, pairs, one_a) {
        return None;
    }
    for one_b in 0..set_count(game, pairs, Side::One) {
        if let Some(quad) = triangle_with(game, pairs, one_a, SetId(one_b)) {
            return Some(quad);
        }
    }
    None
}

/// The least triangle with these two sets of player 1. Only sets that share one are searched to the end.
fn triangle_with(game: &Game, pairs: &Pairs, one_a: SetId, one_b: SetId) -> Option<Quad>
    requires of { IsPairsOf game.now pairs.now }
    requires a_in { one_a.0 < length pairs.now.seqs.one.places }
    requires b_in { one_b.0 < length pairs.now.seqs.one.places }
    ensures some { IfSome result (IsLeastWith pairs.now one_a.0 one_b.0) }
    ensures none { result ≡ None → NoneWith pairs.now one_a.0 one_b.0 }
{
    if !siblings(pairs, Side::One, one_a, one_b) {
        return None;
    }
    if !shares(game, pairs, one_a, one_b) {
        return None;
    }
    for two_a in 0..set_count(game, pairs, Side::Two) {
        if let Some(quad) = triangle_over(game, pairs, one_a, one_b, SetId(two_a)) {
            return Some(quad);
        }
    }
    None
}

/// The least triangle with these three sets.
fn triangle_over(
    game: &Game,
    pairs: &Pairs,
    one_a: SetId,
    one_b: SetId,
    two_a: SetId,
) -> Option<Quad>
    requires of { IsPairsOf game.now pairs.now }
    requires a_in { one_a.0 < length pairs.now.seqs.one.places }
    requires b_in { one_b.0 < length pairs.now.seqs.one.places }
    requires two_in { two_a.0 < length pairs.now.seqs.two.places }
    requires apart { AreSiblings pairs.now.seqs.one one_a.0 one_b.0 }
    ensures some { IfSome result (IsLeastOver pairs.now one_a.0 one_b.0 two_a.0) }
    ensures none { result ≡ None → NoneOver pairs.now one_a.0 one_b.0 two_a.0 }
{
    if !pairs.connected(one_a, two_a) {
        return None;
    }
    for two_b in 0..set_count(game, pairs, Side::Two) {
        let two_b = SetId(two_b);
        if is_last(pairs, one_a, one_b, two_a, two_b) {
            return Some(Quad {
                one_a,
                one_b,
                two_a,
                two_b,
            });
        }
    }
    None
}

/// Whether a set closes the triangle of three.
fn is_last(pairs: &Pairs, one_a: SetId, one_b: SetId, two_a: SetId, two_b: SetId) -> bool
    requires a_in { one_a.0 < length pairs.now.seqs.one.places }
    requires b_in { one_b.0 < length pairs.now.seqs.one.places }
    requires two_a_in { two_a.0 < length pairs.now.seqs.two.places }
    requires two_b_in { two_b.0 < length pairs.now.seqs.two.places }
    ensures { IsTrue result ↔ IsLast pairs.now one_a.0 one_b.0 two_a.0 two_b.0 }
{
    pairs.connected(one_a, two_b)
        && pairs.connected(one_b, two_b)
        && siblings(pairs, Side::Two, two_a, two_b)
}

/// Whether a triangle begins with this set.
fn begins_one(game: &Game, pairs: &Pairs, one_a: SetId) -> bool
    requires of { IsPairsOf game.now pairs.now }
    requires one_in { one_a.0 < length pairs.now.seqs.one.places }
    ensures { result ≡ false → NoneFrom pairs.now one_a.0 }
{
    for two_b in 0..set_count(game, pairs, Side::Two) {
        if may_cross(game, pairs, one_a, SetId(two_b)) {
            return true;
        }
    }
    false
}

/// Whether a triangle has this first set of player 1 and this second set of player 2.
fn may_cross(game: &Game, pairs: &Pairs, one_a: SetId, two_b: SetId) -> bool
    requires of { IsPairsOf game.now pairs.now }
    requires one_in { one_a.0 < length pairs.now.seqs.one.places }
    requires two_in { two_b.0 < length pairs.now.seqs.two.places }
    ensures { result ≡ false → NoneAcross pairs.now one_a.0 two_b.0 }
{
    pairs.connected(one_a, two_b)
        && has_partner(game, pairs, one_a, two_b)
        && meets_sibling(game, pairs, one_a, two_b)
}

/// Whether this set of player 1 is connected to a sibling of this set of player 2.
fn has_partner(game: &Game, pairs: &Pairs, one_a: SetId, two_b: SetId) -> bool
    requires of { IsPairsOf game.now pairs.now }
    requires one_in { one_a.0 < length pairs.now.seqs.one.places }
    requires two_in { two_b.0 < length pairs.now.seqs.two.places }
    ensures { result ≡ false → (two_a : ℕ) → IsPartner pairs.now one_a.0 two_a two_b.0 → ⊥ }
{
    for two_a in 0..set_count(game, pairs, Side::Two) {
        let two_a = SetId(two_a);
        if pairs.connected(one_a, two_a) && siblings(pairs, Side::Two, two_a, two_b) {
            return true;
        }
    }
    false
}

/// Whether this set of player 2 is connected to a sibling of this set of player 1.
fn meets_sibling(game: &Game, pairs: &Pairs, one_a: SetId, two_b: SetId) -> bool
    requires of { IsPairsOf game.now pairs.now }
    requires one_in { one_a.0 < length pairs.now.seqs.one.places }
    requires two_in { two_b.0 < length pairs.now.seqs.two.places }
    ensures { result ≡ false → (one_b : ℕ) → IsMet pairs.now one_a.0 one_b two_b.0 → ⊥ }
{
    for one_b in 0..set_count(game, pairs, Side::One) {
        let one_b = SetId(one_b);
        if pairs.connected(one_b, two_b) && siblings(pairs, Side::One, one_a, one_b) {
            return true;
        }
    }
    false
}

/// Whether both sets of player 1 are connected to a set of player 2, and the first to a sibling of it.
fn shares(game: &Game, pairs: &Pairs, one_a: SetId, one_b: SetId) -> bool
    requires of { IsPairsOf game.now pairs.now }
    requires a_in { one_a.0 < length pairs.now.seqs.one.places }
    requires b_in { one_b.0 < length pairs.now.seqs.one.places }
    ensures { result ≡ false → NoneWith pairs.now one_a.0 one_b.0 }
{
    for two_b in 0..set_count(game, pairs, Side::Two) {
        let two_b = SetId(two_b);
        if pairs.connected(one_a, two_b)
            && pairs.connected(one_b, two_b)
            && has_partner(game, pairs, one_a, two_b)
        {
            return true;
        }
    }
    false
}

/// Whether two sets of a player are different and have one own sequence.
fn siblings(pairs: &Pairs, side: Side, a: SetId, b: SetId) -> bool
    requires a_in { a.0 < length (side_of side pairs.now.seqs).places }
    requires b_in { b.0 < length (side_of side pairs.now.seqs).places }
    ensures { IsTrue result ↔ AreSiblings (side_of side pairs.now.seqs) a.0 b.0 }
{
    let seqs = pairs.seqs();
    a.0 != b.0 && seqs.own(side, a) == seqs.own(side, b)
}

/// How many sets a player has in the game, and so in the pairs.
fn set_count(game: &Game, pairs: &Pairs, side: Side) -> u32
    requires { IsPairsOf game.now pairs.now }
    ensures { result ≡ length (side_of side pairs.now.seqs).places }
{
    game.sets(side)
}
