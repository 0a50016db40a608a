// What pairs of plans pay, summed by weight.
ghost use Rattle.std.specs.Prelude.{◌≡◌, ◌↔◌, ◌*◌, ◌^◌, ◌<◌, ◌≤◌, pos, ◌*ℤ◌, ◌≤ℤ◌, length};
ghost use Rattle.std.specs.Prelude.{slice_get, unsigned_abs, All, IfOk, IsTrue, Some};
ghost use Rattle.corr_game.specs.declared.plans.Pair.{Pair};
ghost use Rattle.corr_game.specs.Plan.{IsPlan};
ghost use Rattle.corr_game.specs.Walk.{walk};
ghost use Rattle.corr_game.specs.declared.sides.Side.TheVariants.{One, Two};
ghost use Rattle.equilibrium.specs.Deviation.{deviated_pay, following, leaving};
ghost use Rattle.equilibrium.specs.Distribution.{IsEntry, entries_of, entry_of, pay, total};
ghost use Rattle.equilibrium.specs.FullChoice.{IsFullChoice};
ghost use Rattle.plain_programs.specs.Weights.{AreWeights};

use crate::deviations::deviated_pay;
use corr_game::{Choice, Game, Pair, PairList, Plan, Side, walk_pay};
use corr_num::{difference, product, sum};
use equilibrium::Trigger;
use std::alloc::{AllocError as NoMemory, Global};

/// What two plans pay a player.
pub fn paid(game: &Game, side: Side, one: &Plan, two: &Plan) -> i128
    requires plan_one { IsPlan One game.now one.now }
    requires plan_two { IsPlan Two game.now two.now }
    ensures value { result ≡ walk side game.now one.now two.now 0 }
    ensures bound { unsigned_abs result ≤ 2 ^ 40 }
{
    let _ = game.len();
    let paid = walk_pay(game, one, two);
    match side {
        Side::One => paid.one,
        Side::Two => paid.two,
    }
}

/// What a pair of plans pays a player who follows it.
fn pay(game: &Game, side: Side, pair: &Pair) -> i128
    requires entry { IsEntry game.now (entry_of pair.now) }
    ensures value { result ≡ pay side game.now (entry_of pair.now) }
    ensures bound { unsigned_abs result ≤ 2 ^ 40 }
{
    paid(game, side, &pair.one, &pair.two)
}

/// A weight times an amount.
fn weighed(weight: i128, amount: i128) -> i128
    requires low { pos 0 ≤ℤ weight }
    requires high { unsigned_abs weight ≤ 2 ^ 62 }
    requires amount_bound { unsigned_abs amount ≤ 2 ^ 40 }
    ensures value { result ≡ pos (unsigned_abs weight) *ℤ amount }
    ensures bound { unsigned_abs result ≤ 2 ^ 40 * unsigned_abs weight }
{
    product(weight, amount)
}

/// Whether no weight of a list is below 0, and the weights sum to at most 2^62.
pub fn are_weights(list: &PairList) -> bool
    ensures { IsTrue result ↔ AreWeights list.now }
{
    let mut left: i128 = 1 << 62;
    for k in 0..list.len() {
        let weight = weight_at(list, k);
        if weight < 0 || weight > left {
            return false;
        }
        left = difference(left, weight);
    }
    true
}

/// The weight of one pair of a list.
fn weight_at(list: &PairList, k: usize) -> i128
    requires { k < length list.now }
    ensures { (pair : Pair) → slice_get list.now k ≡ Some pair → result ≡ pair.weight }
{
    list.at(k).weight
}

/// The sum of the weights.
pub fn total(list: &PairList) -> i128
    requires { AreWeights list.now }
    ensures value { result ≡ total (entries_of list.now) }
    ensures bound { unsigned_abs result ≤ 2 ^ 62 }
{
    let mut all = 0;
    for k in 0..list.len() {
        all = sum(all, list.at(k).weight);
    }
    all
}

/// The weighted sum of what a player gets who follows.
pub fn following(game: &Game, side: Side, list: &PairList) -> i128
    requires entries { All (λ pair. IsEntry game.now (entry_of pair)) list.now }
    requires weights { AreWeights list.now }
    ensures value { result ≡ following side game.now (entries_of list.now) }
    ensures bound { unsigned_abs result ≤ 2 ^ 102 }
{
    let mut all = 0;
    for k in 0..list.len() {
        let pair = list.at(k);
        all = sum(all, weighed(pair.weight, pay(game, side, pair)));
    }
    all
}

/// The weighted sum of what a player gets who leaves at a trigger for a full choice.
pub fn leaving(
    alloc: Global,
    game: &Game,
    side: Side,
    trigger: Trigger,
    choice: &Choice,
    list: &PairList,
) -> Result<i128, NoMemory>
    requires entries { All (λ pair. IsEntry game.now (entry_of pair)) list.now }
    requires weights { AreWeights list.now }
    requires full { IsFullChoice side game.now choice.now }
    ensures value { IfOk result (λ all. all ≡ leaving side game.now trigger choice.now (entries_of list.now)) }
    ensures bound { IfOk result (λ all. unsigned_abs all ≤ 2 ^ 102) }
{
    let mut all = 0;
    for k in 0..list.len() {
        let pair = list.at(k);
        let amount = deviated_pay(alloc, game, side, trigger, choice, pair)?;
        all = sum(all, weighed(pair.weight, amount));
    }
    Ok(all)
}
