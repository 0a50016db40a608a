ghost use Rattle.std.specs.Prelude.{◌≡◌, ◌<◌, ◌≤◌, ◌+◌, ◌↔◌, ◌⊎◌, ◌≤ℤ◌, ℕ, pos, length, slice_get, slice_index_or, All, IfNone, IfOk, IfSome, IsTrue, Some};
ghost use Rattle.corr_num.specs.Narrow.{Narrow};
ghost use Rattle.connected_pairs.specs.Connected.{IsPairs, IsPairsOf};
ghost use Rattle.plan_decompose.specs.Entry.{AreTakenOff, IsEntry, IsLeast, NonePlayed, PlayBoth};
ghost use Rattle.plan_decompose.specs.Solution.{IsSolution, MeetsRows, positives};

use crate::picks::pick;
use connected_pairs::Pairs;
use corr_game::{Game, Pair, Plan, Side};
use corr_num::difference;
use std::alloc::{AllocError as NoMemory, Global};

/// Takes one pair of plans off the values, with the greatest weight that leaves none below 0.
pub fn take_entry(
    alloc: Global,
    game: &Game,
    pairs: &Pairs,
    values: &mut [i128],
) -> Result<Pair, NoMemory>
    requires whose { IsPairsOf game.now pairs.now }
    requires rules { IsPairs pairs.now }
    requires per_pair { length values.old ≡ length pairs.now.pairs }
    requires narrow { All Narrow values.old }
    requires solution { IsSolution pairs.now values.old }
    ensures entry { IfOk result (λ entry. IsEntry game.now pairs.now.seqs entry) }
    ensures taken { IfOk result
        (λ entry. AreTakenOff pairs.now entry.one entry.two entry.weight values.old values.new) }
    ensures narrow { IfOk result (λ _. All Narrow values.new) }
    ensures fewer { IfOk result (λ _. positives values.new + 1 ≤ positives values.old) }
    ensures rows { IfOk result (λ _. MeetsRows pairs.now values.new) }
{
    let (one, two) = pick(alloc, game, pairs, values)?;
    let least = least_place(pairs, &one, &two, values).unwrap();
    let weight = values[least as usize];
    take_off(pairs, &one, &two, weight, values);
    Ok(Pair { one, two, weight })
}

/// The place of the least value of a relevant pair that both plans play, if there is such a pair.
fn least_place(pairs: &Pairs, one: &Plan, two: &Plan, values: &[i128]) -> Option<u32>
    requires one_per_set { length one.now ≡ length pairs.now.seqs.one.places }
    requires two_per_set { length two.now ≡ length pairs.now.seqs.two.places }
    requires per_pair { length values.now ≡ length pairs.now.pairs }
    requires narrow { All Narrow values.now }
    ensures none { IfNone result (NonePlayed pairs.now one.now two.now) }
    ensures some { IfSome result (λ place. IsLeast pairs.now one.now two.now values.now place) }
{
    let mut least = None;
    for k in 0..pairs.len() {
        if !both_play(pairs, one, two, k) {
            continue;
        }
        least = Some(lesser(values, k, least));
    }
    least
}

/// The place of the lower value, of this place and the one found so far.
fn lesser(values: &[i128], k: u32, least: Option<u32>) -> u32
    requires k_in { k < length values.now }
    requires least_in { IfSome least (λ place. place < length values.now) }
    requires narrow { All Narrow values.now }
    ensures one_of { (result ≡ k) ⊎ (least ≡ Some result) }
    ensures below { slice_index_or values.now result (pos 0) ≤ℤ slice_index_or values.now k (pos 0) }
    ensures below_least { IfSome least (λ place. slice_index_or values.now result (pos 0) ≤ℤ slice_index_or values.now place (pos 0)) }
{
    let Some(place) = least else {
        return k;
    };
    if values[place as usize] <= values[k as usize] {
        place
    } else {
        k
    }
}

/// Takes the weight off the value of each relevant pair that both plans play.
fn take_off(pairs: &Pairs, one: &Plan, two: &Plan, weight: i128, values: &mut [i128])
    requires one_per_set { length one.now ≡ length pairs.now.seqs.one.places }
    requires two_per_set { length two.now ≡ length pairs.now.seqs.two.places }
    requires per_pair { length values.old ≡ length pairs.now.pairs }
    requires narrow { All Narrow values.old }
    requires narrow_weight { Narrow weight }
    ensures { AreTakenOff pairs.now one.now two.now weight values.old values.new }
{
    for k in 0..pairs.len() {
        if both_play(pairs, one, two, k) {
            values[k as usize] = difference(values[k as usize], weight);
        }
    }
}

/// Whether each plan plays its player's sequence of a relevant pair.
fn both_play(pairs: &Pairs, one: &Plan, two: &Plan, k: u32) -> bool
    requires one_per_set { length one.now ≡ length pairs.now.seqs.one.places }
    requires two_per_set { length two.now ≡ length pairs.now.seqs.two.places }
    requires in_range { k < length pairs.now.pairs }
    ensures { (pair : ℕ × ℕ) → slice_get pairs.now.pairs k ≡ Some pair
        → (IsTrue result ↔ PlayBoth pairs.now.seqs one.now two.now pair) }
{
    let (first, second) = pairs.pair(k);
    let seqs = pairs.seqs();
    seqs.plays(Side::One, one, first) && seqs.plays(Side::Two, two, second)
}
