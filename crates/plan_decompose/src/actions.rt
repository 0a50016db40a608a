ghost use Rattle.std.specs.Prelude.{◌≡◌, ◌<◌, ◌≤ℤ◌, ℕ, pos, length, IfNone, IfSome};
ghost use Rattle.corr_game.specs.Game.{sets_of};
ghost use Rattle.sequences.specs.Number.{Ends, count_of, side_of};
ghost use Rattle.connected_pairs.specs.Connected.{IsPairs, IsPairsOf, other};
ghost use Rattle.plan_decompose.specs.Fair.{IsLongest};
ghost use Rattle.plan_decompose.specs.Solution.{value_of};
ghost use Rattle.plan_decompose.specs.Walk.{IsActionOf};

use crate::opens::{Open, other_side};
use connected_pairs::Pairs;
use corr_game::{Game, Side};

/// The first action at an open set that has a positive value beside the longest part of the other player's sequence
/// at which the set has values.
pub fn positive_action(game: &Game, pairs: &Pairs, values: &[i128], at: Open) -> Option<u32>
    requires whose { IsPairsOf game.now pairs.now }
    requires rules { IsPairs pairs.now }
    requires per_pair { length values.now ≡ length pairs.now.pairs }
    requires known { at.set.0 < length (sets_of at.side game.now) }
    requires beside_in { at.beside < count_of (side_of (other at.side) pairs.now.seqs) }
    ensures named { IfSome result (λ action. IsActionOf at.side game.now at.set.0 action) }
    ensures gain { IfSome result
        (λ action. (near : ℕ) × IsLongest pairs.now (other at.side) at.set.0 at.beside near × ((seq : ℕ) → Ends (side_of at.side pairs.now.seqs).places (at.set, action) seq → pos 1 ≤ℤ value_of pairs.now values.now at.side seq near)) }
    ensures stuck { IfNone result
        ((near : ℕ) × IsLongest pairs.now (other at.side) at.set.0 at.beside near × ((action seq : ℕ) → Ends (side_of at.side pairs.now.seqs).places (at.set, action) seq → value_of pairs.now values.now at.side seq near ≤ℤ pos 0)) }
{
    let beside = pairs.longest_relevant_prefix(other_side(at.side), at.beside, at.set);
    for action in 0..game.set(at.side, at.set).actions {
        let seq = pairs.seqs().number(at.side, at.set, action);
        if value_beside(pairs, values, (at.side, seq), beside) > 0 {
            return Some(action);
        }
    }
    None
}

/// The value at a sequence of a player and one of the other; 0 where the two aren't relevant.
fn value_beside(pairs: &Pairs, values: &[i128], seq: (Side, u32), beside: u32) -> i128
    requires per_pair { length values.now ≡ length pairs.now.pairs }
    requires seq_in { seq.1 < count_of (side_of seq.0 pairs.now.seqs) }
    requires beside_in { beside < count_of (side_of (other seq.0) pairs.now.seqs) }
    ensures { result ≡ value_of pairs.now values.now seq.0 seq.1 beside }
{
    let index = match seq.0 {
        Side::One => pairs.index_of(seq.1, beside),
        Side::Two => pairs.index_of(beside, seq.1),
    };
    match index {
        None => 0,
        Some(k) => values[k as usize],
    }
}
