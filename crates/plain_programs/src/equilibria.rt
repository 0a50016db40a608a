// Whether a list of pairs of plans is an equilibrium list: all triggers and all full choices, one after the other.
ghost use Rattle.std.specs.Prelude.{◌≡◌, ◌↔◌, ◌^◌, ◌<◌, ◌≤◌, ◌++◌, ◌∷◌, [], ℕ, pos, ◌+ℤ◌, ◌*ℤ◌, ◌≤ℤ◌, length};
ghost use Rattle.std.specs.Prelude.{slice_get, unsigned_abs, All, IfOk, IsTrue, Some};
ghost use Rattle.corr_game.specs.declared.notions.Notion.TheVariants.{Efce, Efcce};
ghost use Rattle.corr_game.specs.declared.nodes.SetInfo.{SetInfo};
ghost use Rattle.corr_game.specs.declared.sides.Side.{Side};
ghost use Rattle.corr_game.specs.Game.{scale_of, sets_of};
ghost use Rattle.equilibrium.specs.declared.triggers.Trigger.TheVariants.{Told};
ghost use Rattle.equilibrium.specs.Deviation.{following};
ghost use Rattle.equilibrium.specs.Distribution.{IsEntry, entries_of, entry_of, total};
ghost use Rattle.equilibrium.specs.Equilibrium.{GainsNoMore, IsEquilibriumList, NoneImproves};
ghost use Rattle.equilibrium.specs.FullChoice.{IsFullChoice};
ghost use Rattle.plain_programs.specs.Fronts.{IsFront, NoneGains};
ghost use Rattle.plain_programs.specs.Weights.{AreWeights, IsSmallSlack};

use crate::plans::is_reduced;
use crate::sums::{following, leaving, total};
use corr_game::{Choice, Game, Notion, Pair, PairList, SetId, Side};
use corr_num::{product, sum};
use equilibrium::Trigger;
use std::alloc::{AllocError as NoMemory, Global};

/// How much a deviation may gain: a fraction in the file's units of payoff.
#[derive(Clone, Copy, Debug)]
pub struct Slack {
    pub num: u32,
    pub den: u32,
}

/// Whether a list of pairs of plans is an equilibrium list of a notion: pairs of reduced plans with weight, where
/// leaving at no trigger for any full choice gains either player more than the slack.
pub fn is_equilibrium(
    alloc: Global,
    notion: Notion,
    game: &Game,
    slack: Slack,
    list: &PairList,
) -> Result<bool, NoMemory>
    requires weights { AreWeights list.now }
    requires small { IsSmallSlack (record { num = slack.num; den = slack.den }) }
    ensures { IfOk result (λ answer. IsTrue answer
        ↔ IsEquilibriumList notion game.now (record { num = slack.num; den = slack.den }) (entries_of list.now)) }
{
    if !are_entries(game, list) {
        return Ok(false);
    }
    if total(list) <= 0 {
        return Ok(false);
    }
    let none = neither_improves(alloc, notion, game, slack, list)?;
    Ok(none)
}

/// Whether each pair of a list is of two reduced plans, with a weight of 1 or more.
pub fn are_entries(game: &Game, list: &PairList) -> bool
    requires { AreWeights list.now }
    ensures { IsTrue result ↔ All (λ pair. IsEntry game.now (entry_of pair)) list.now }
{
    for k in 0..list.len() {
        if !is_entry(game, list.at(k)) {
            return false;
        }
    }
    true
}

fn is_entry(game: &Game, pair: &Pair) -> bool
    requires { pos 0 ≤ℤ pair.now.weight }
    ensures { IsTrue result ↔ IsEntry game.now (entry_of pair.now) }
{
    pair.weight >= 1
        && is_reduced(game, Side::One, &pair.one)
        && is_reduced(game, Side::Two, &pair.two)
}

fn neither_improves(
    alloc: Global,
    notion: Notion,
    game: &Game,
    slack: Slack,
    list: &PairList,
) -> Result<bool, NoMemory>
    requires entries { All (λ pair. IsEntry game.now (entry_of pair)) list.now }
    requires weights { AreWeights list.now }
    requires small { IsSmallSlack (record { num = slack.num; den = slack.den }) }
    ensures { IfOk result (λ answer. IsTrue answer
        ↔ ((side : Side)
        → NoneImproves notion side game.now (record { num = slack.num; den = slack.den }) (entries_of list.now))) }
{
    let one = none_improves(alloc, notion, game, Side::One, slack, list)?;
    let two = none_improves(alloc, notion, game, Side::Two, slack, list)?;
    Ok(one && two)
}

/// Whether a player improves by leaving at no trigger.
fn none_improves(
    alloc: Global,
    notion: Notion,
    game: &Game,
    side: Side,
    slack: Slack,
    list: &PairList,
) -> Result<bool, NoMemory>
    requires entries { All (λ pair. IsEntry game.now (entry_of pair)) list.now }
    requires weights { AreWeights list.now }
    requires small { IsSmallSlack (record { num = slack.num; den = slack.den }) }
    ensures { IfOk result (λ answer. IsTrue answer
        ↔ NoneImproves notion side game.now (record { num = slack.num; den = slack.den }) (entries_of list.now)) }
{
    match notion {
        Notion::Efce => {
            let none = none_told(alloc, game, side, slack, list)?;
            Ok(none)
        }
        Notion::Efcce => {
            let none = none_reached(alloc, game, side, slack, list)?;
            Ok(none)
        }
        Notion::Nfcce => {
            let none = none_gains(alloc, game, side, slack, list, Trigger::Start)?;
            Ok(none)
        }
    }
}

/// Whether a player improves by leaving at no recommended action.
fn none_told(
    alloc: Global,
    game: &Game,
    side: Side,
    slack: Slack,
    list: &PairList,
) -> Result<bool, NoMemory>
    requires entries { All (λ pair. IsEntry game.now (entry_of pair)) list.now }
    requires weights { AreWeights list.now }
    requires small { IsSmallSlack (record { num = slack.num; den = slack.den }) }
    ensures { IfOk result (λ answer. IsTrue answer
        ↔ NoneImproves Efce side game.now (record { num = slack.num; den = slack.den }) (entries_of list.now)) }
{
    for set in 0..game.sets(side) {
        if !none_told_at(alloc, game, side, slack, list, SetId(set))? {
            return Ok(false);
        }
    }
    Ok(true)
}

/// Whether a player improves by leaving at none of a set's actions.
fn none_told_at(
    alloc: Global,
    game: &Game,
    side: Side,
    slack: Slack,
    list: &PairList,
    set: SetId,
) -> Result<bool, NoMemory>
    requires entries { All (λ pair. IsEntry game.now (entry_of pair)) list.now }
    requires weights { AreWeights list.now }
    requires small { IsSmallSlack (record { num = slack.num; den = slack.den }) }
    requires set_in { set.0 < length (sets_of side game.now) }
    ensures { IfOk result (λ answer. IsTrue answer
        ↔ ((action : ℕ) (info : SetInfo) → slice_get (sets_of side game.now) set.0 ≡ Some info → action < info.actions
        → NoneGains side game.now (record { num = slack.num; den = slack.den })
        (entries_of list.now) (Told set action) [])) }
{
    for action in 0..game.set(side, set).actions {
        if !none_gains(
            alloc,
            game,
            side,
            slack,
            list,
            Trigger::Told { set, action },
        )? {
            return Ok(false);
        }
    }
    Ok(true)
}

/// Whether a player improves by leaving at no set that is reached.
fn none_reached(
    alloc: Global,
    game: &Game,
    side: Side,
    slack: Slack,
    list: &PairList,
) -> Result<bool, NoMemory>
    requires entries { All (λ pair. IsEntry game.now (entry_of pair)) list.now }
    requires weights { AreWeights list.now }
    requires small { IsSmallSlack (record { num = slack.num; den = slack.den }) }
    ensures { IfOk result (λ answer. IsTrue answer
        ↔ NoneImproves Efcce side game.now (record { num = slack.num; den = slack.den }) (entries_of list.now)) }
{
    for set in 0..game.sets(side) {
        if !none_gains(
            alloc,
            game,
            side,
            slack,
            list,
            Trigger::Reached { set: SetId(set) },
        )? {
            return Ok(false);
        }
    }
    Ok(true)
}

/// Whether leaving at a trigger gains at most the slack for each full choice.
fn none_gains(
    alloc: Global,
    game: &Game,
    side: Side,
    slack: Slack,
    list: &PairList,
    trigger: Trigger,
) -> Result<bool, NoMemory>
    requires entries { All (λ pair. IsEntry game.now (entry_of pair)) list.now }
    requires weights { AreWeights list.now }
    requires small { IsSmallSlack (record { num = slack.num; den = slack.den }) }
    ensures { IfOk result (λ answer. IsTrue answer
        ↔ NoneGains side game.now (record { num = slack.num; den = slack.den }) (entries_of list.now) trigger []) }
{
    let none = none_gains_from(alloc, game, side, slack, list, trigger, Vec::new(alloc))?;
    Ok(none)
}

/// The same for each full choice that begins with these actions, one a set.
fn none_gains_from(
    alloc: Global,
    game: &Game,
    side: Side,
    slack: Slack,
    list: &PairList,
    trigger: Trigger,
    front: Vec<u32>,
) -> Result<bool, NoMemory>
    requires entries { All (λ pair. IsEntry game.now (entry_of pair)) list.now }
    requires weights { AreWeights list.now }
    requires small { IsSmallSlack (record { num = slack.num; den = slack.den }) }
    requires front_in { IsFront side game.now front.items }
    ensures { IfOk result (λ answer. IsTrue answer
        ↔ NoneGains side game.now (record { num = slack.num; den = slack.den })
        (entries_of list.now) trigger front.items) }
{
    let set = front.len();
    if set >= game.sets(side) as usize {
        let choice = Choice::from_list(front);
        let gains_no_more = gains_no_more(alloc, game, side, slack, list, trigger, &choice)?;
        return Ok(gains_no_more);
    }
    for action in 0..game.set(side, SetId(set as u32)).actions {
        let longer = with_action(alloc, &front, action)?;
        if !none_gains_from(alloc, game, side, slack, list, trigger, longer)? {
            return Ok(false);
        }
    }
    Ok(true)
}

/// The actions of a choice's first sets, with the next set's.
fn with_action(alloc: Global, front: &[u32], action: u32) -> Result<Vec<u32>, NoMemory>
    ensures { IfOk result (λ longer. longer.items ≡ front.now ++ action ∷ []) }
{
    let mut longer = Vec::new(alloc);
    for earlier in front {
        longer.push(*earlier)?;
    }
    longer.push(action)?;
    Ok(longer)
}

/// Whether leaving at a trigger for a full choice gains at most the slack.
fn gains_no_more(
    alloc: Global,
    game: &Game,
    side: Side,
    slack: Slack,
    list: &PairList,
    trigger: Trigger,
    choice: &Choice,
) -> Result<bool, NoMemory>
    requires entries { All (λ pair. IsEntry game.now (entry_of pair)) list.now }
    requires weights { AreWeights list.now }
    requires small { IsSmallSlack (record { num = slack.num; den = slack.den }) }
    requires full { IsFullChoice side game.now choice.now }
    ensures { IfOk result (λ answer. IsTrue answer
        ↔ GainsNoMore side game.now (record { num = slack.num; den = slack.den })
        (entries_of list.now) trigger choice.now) }
{
    let left = leaving(alloc, game, side, trigger, choice, list)?;
    Ok(times(slack.den, left) <= most_allowed(game, side, slack, list))
}

/// What leaving may pay at most, times the slack's denominator.
fn most_allowed(game: &Game, side: Side, slack: Slack, list: &PairList) -> i128
    requires entries { All (λ pair. IsEntry game.now (entry_of pair)) list.now }
    requires weights { AreWeights list.now }
    requires small { IsSmallSlack (record { num = slack.num; den = slack.den }) }
    ensures { result ≡ pos slack.den *ℤ following side game.now (entries_of list.now)
        +ℤ pos slack.num *ℤ scale_of side game.now *ℤ total (entries_of list.now) }
{
    sum(
        times(slack.den, following(game, side, list)),
        allowance(game, side, slack, list),
    )
}

/// The slack in scaled amounts, times its denominator and the total.
fn allowance(game: &Game, side: Side, slack: Slack, list: &PairList) -> i128
    requires weights { AreWeights list.now }
    requires small { IsSmallSlack (record { num = slack.num; den = slack.den }) }
    ensures value { result ≡ pos slack.num *ℤ scale_of side game.now *ℤ total (entries_of list.now) }
    ensures bound { unsigned_abs result ≤ 2 ^ 106 }
{
    product(scaled(game, side, slack.num), total(list))
}

/// A number times a player's scale.
fn scaled(game: &Game, side: Side, number: u32) -> i128
    requires { number ≤ 2 ^ 20 }
    ensures value { result ≡ pos number *ℤ scale_of side game.now }
    ensures bound { unsigned_abs result ≤ 2 ^ 44 }
{
    product(i128::from(number), i128::from(game.scale(side)))
}

/// A slack's denominator times a sum of amounts.
fn times(factor: u32, number: i128) -> i128
    requires few { factor ≤ 2 ^ 10 }
    requires number_bound { unsigned_abs number ≤ 2 ^ 102 }
    ensures value { result ≡ pos factor *ℤ number }
    ensures bound { unsigned_abs result ≤ 2 ^ 112 }
{
    i128::from(factor) * number
}
