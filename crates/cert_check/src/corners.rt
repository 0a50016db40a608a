// The rules of a corner.
ghost use Rattle.std.specs.Prelude.{◌≡◌, ◌+◌, ◌*◌, ◌^◌, ◌<◌, ◌≤◌, ◌+ℤ◌, ◌*ℤ◌, All, IfErr, IfOk, [], ◌∷◌, length, unsigned_abs};
ghost use Rattle.corr_game.specs.declared.notions.Notion.{Notion};
ghost use Rattle.corr_game.specs.declared.sides.Side.TheVariants.{One, Two};
ghost use Rattle.corr_game.specs.Game.{IsGame};
ghost use Rattle.corr_game.specs.Walk.{walk};
ghost use Rattle.equilibrium.specs.Deviation.{following};
ghost use Rattle.equilibrium.specs.Distribution.{IsEntry, entries_of, total};
ghost use Rattle.equilibrium.specs.Equilibrium.{NoneImproves, no_slack};
ghost use Rattle.connected_pairs.specs.Connected.{IsPairsOf};
ghost use Rattle.report_form.specs.Ranges.{IsCorner, IsPair, IsPositive};
ghost use Rattle.cert_check.specs.CornerRules.{CornerRule, corner_rules};
ghost use Rattle.cert_check.specs.Ends.{IsBreak};
ghost use Rattle.deviation_gains.specs.Planned.{AreDrawn, IsDrawn};
ghost use Rattle.cert_check.specs.Rules.{AllHold, IsFirstBroken};
ghost use Rattle.cert_check.specs.Truth.{IsTrueCorner};
ghost use Rattle.report_form.specs.declared.verdicts.Cause.TheVariants.{Gain, Point, Width};

use crate::faults::RuleEnd;
use crate::sides::{both_narrow, is_share, keep};
use column_sums::plus_product;
use connected_pairs::Pairs;
use corr_game::{Game, Notion, Pair, PairList, Pays, Side, walk_pay};
use corr_num::sum;
use deviation_gains::{all_planned, gains};
use report_form::{Cause, Corner};
use std::alloc::Global;

/// The rules of a corner: its plans, its total, its point, and that no player gains.
pub fn check_corner(
    alloc: Global,
    game: &Game,
    pairs: &Pairs,
    notion: Notion,
    corner: &Corner,
) -> Result<(), RuleEnd>
    requires rules { IsGame game.now }
    requires whose { IsPairsOf game.now pairs.now }
    requires ranges { IsCorner corner.now }
    ensures held { IfOk result (λ _. IsTrueCorner game.now notion corner.now) }
    ensures broken { IfErr result (IsBreak (IsFirstBroken (CornerRule game.now notion corner.now) corner_rules)) }
{
    let list = &corner.pairs;
    keep(all_planned(game, pairs, list), Cause::Plan)?;
    keep(weight_sum(list) == corner.total, Cause::Total)?;
    check_pays(game, corner)?;
    check_gain(alloc, game, pairs, list, (notion, Side::One))?;
    check_gain(alloc, game, pairs, list, (notion, Side::Two))
}

fn weight_sum(list: &PairList) -> i128
    requires ranges { All IsPair list.now }
    requires few { length list.now ≤ 65535 }
    ensures { result ≡ total (entries_of list.now) }
{
    let mut total = 0;
    for k in 0..list.len() {
        total = sum(total, list.at(k).weight);
    }
    total
}

/// The rules Width and Point.
fn check_pays(game: &Game, corner: &Corner) -> Result<(), RuleEnd>
    requires rules { IsGame game.now }
    requires drawn { AreDrawn game.now corner.now.pairs }
    requires total { IsPositive corner.now.total }
    requires ranges { All IsPair corner.now.pairs }
    ensures held { IfOk result (λ _. (notion : Notion) → AllHold (CornerRule game.now notion corner.now) (Width ∷ Point ∷ [])) }
    ensures broken { IfErr result (IsBreak (λ cause. (notion : Notion)
        → IsFirstBroken (CornerRule game.now notion corner.now) (Width ∷ Point ∷ []) cause)) }
{
    let pays = weighted_pays(game, &corner.pairs);
    keep(both_narrow(pays.one, pays.two), Cause::Width)?;
    let first = is_share(game, Side::One, (pays.one, corner.total), &corner.point.one);
    let second = is_share(game, Side::Two, (pays.two, corner.total), &corner.point.two);
    keep(first && second, Cause::Point)
}

/// What the pairs pay, by weight.
fn weighted_pays(game: &Game, list: &PairList) -> Pays
    requires rules { IsGame game.now }
    requires drawn { AreDrawn game.now list.now }
    requires ranges { All IsPair list.now }
    ensures one { result.one ≡ following One game.now (entries_of list.now) }
    ensures two { result.two ≡ following Two game.now (entries_of list.now) }
{
    let mut total = Pays { one: 0, two: 0 };
    for k in 0..list.len() {
        total = plus_pair(game, list.at(k), total);
    }
    total
}

fn plus_pair(game: &Game, pair: &Pair, total: Pays) -> Pays
    requires rules { IsGame game.now }
    requires drawn { IsDrawn game.now pair.now }
    requires room_one { unsigned_abs total.one ≤ 2 ^ 120 }
    requires room_two { unsigned_abs total.two ≤ 2 ^ 120 }
    ensures one_bound { unsigned_abs result.one ≤ unsigned_abs total.one + 2 ^ 102 }
    ensures two_bound { unsigned_abs result.two ≤ unsigned_abs total.two + 2 ^ 102 }
    ensures one { result.one ≡ total.one +ℤ pair.now.weight *ℤ walk One game.now pair.now.one pair.now.two 0 }
    ensures two { result.two ≡ total.two +ℤ pair.now.weight *ℤ walk Two game.now pair.now.one pair.now.two 0 }
{
    let paid = walk_pay(game, &pair.one, &pair.two);
    Pays {
        one: plus_product(total.one, pair.weight, paid.one),
        two: plus_product(total.two, pair.weight, paid.two),
    }
}

fn check_gain(
    alloc: Global,
    game: &Game,
    pairs: &Pairs,
    list: &PairList,
    at: (Notion, Side),
) -> Result<(), RuleEnd>
    requires whose { IsPairsOf game.now pairs.now }
    requires drawn { AreDrawn game.now list.now }
    requires entries { All (IsEntry game.now) (entries_of list.now) }
    requires ranges { All IsPair list.now }
    ensures held { IfOk result (λ _. NoneImproves at.0 at.1 game.now no_slack (entries_of list.now)) }
    ensures broken { IfErr result (IsBreak (λ cause. (cause ≡ Gain at.1) × (NoneImproves at.0 at.1 game.now no_slack (entries_of list.now) → ⊥))) }
{
    keep(!gains(alloc, game, pairs, list, at)?, Cause::Gain(at.1))
}
