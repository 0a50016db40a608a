// The plan of a player who leaves the mediator, and what the player gets then.
ghost use Rattle.std.specs.Prelude.{◌≡◌, ◌^◌, ◌≤◌, length, slice_get, unsigned_abs, IfOk};
ghost use Rattle.corr_game.specs.Game.{sets_of};
ghost use Rattle.corr_game.specs.Plan.{IsPlan, plan_of};
ghost use Rattle.equilibrium.specs.Deviation.{deviated_pay, left_for, meets};
ghost use Rattle.equilibrium.specs.Distribution.{IsEntry, entry_of};
ghost use Rattle.equilibrium.specs.FullChoice.{IsFullChoice, chosen_anew, replaced};
ghost use Rattle.equilibrium.specs.Reach.{leads, names};
ghost use Rattle.plain_programs.specs.PaidWith.{paid_with};

use crate::grafts::graft;
use crate::plans::{leads, names};
use crate::sums::paid;
use corr_game::{Choice, Game, Pair, Plan, SetId, Side};
use equilibrium::Trigger;
use std::alloc::{AllocError as NoMemory, Global};

/// Whether a recommended plan meets a trigger.
fn meets(game: &Game, side: Side, trigger: Trigger, plan: &Plan) -> bool
    requires { length plan.now ≡ length (sets_of side game.now) }
    ensures { result ≡ meets side game.now trigger plan.now }
{
    match trigger {
        Trigger::Told { set, action } => {
            leads(game, side, plan, set) && names_there(plan, set, action)
        }
        Trigger::Reached { set } => leads(game, side, plan, set),
        Trigger::Start => true,
    }
}

/// Whether a plan has an entry for a set, which names this action.
fn names_there(plan: &Plan, set: SetId, action: u32) -> bool
    ensures { result ≡ names action (slice_get plan.now set.0) }
{
    if (set.0 as usize) < plan.len() {
        names(plan, set, action as usize)
    } else {
        false
    }
}

/// The full choice everywhere.
fn replaced(alloc: Global, choice: &Choice, plan: &Plan) -> Result<Plan, NoMemory>
    requires chosen { length choice.now ≡ length plan.now }
    ensures { IfOk result (λ all. all ≡ replaced choice.now plan.now) }
{
    let mut entries = Vec::new(alloc);
    for set in 0..plan.len() {
        entries.push(Some(*choice.at(set)))?;
    }
    Ok(Plan::from_list(entries))
}

/// The plan of a player who leaves at a trigger for a full choice.
fn left_for(
    alloc: Global,
    game: &Game,
    side: Side,
    trigger: Trigger,
    choice: &Choice,
    plan: &Plan,
) -> Result<Plan, NoMemory>
    requires chosen { length choice.now ≡ length plan.now }
    requires few { length plan.now ≤ 4096 }
    ensures { IfOk result (λ left. left ≡ left_for side game.now trigger choice.now plan.now) }
{
    match trigger {
        Trigger::Told { set, .. } => {
            let left = graft(alloc, game, side, set, choice, plan)?;
            Ok(left)
        }
        Trigger::Reached { set } => {
            let left = graft(alloc, game, side, set, choice, plan)?;
            Ok(left)
        }
        Trigger::Start => {
            let left = replaced(alloc, choice, plan)?;
            Ok(left)
        }
    }
}

/// A player's plan of a pair.
fn own_plan(side: Side, pair: &Pair) -> &Plan
    ensures { result.now ≡ plan_of side pair.now.one pair.now.two }
{
    match side {
        Side::One => &pair.one,
        Side::Two => &pair.two,
    }
}

/// What a player gets who plays this plan, where the other player follows a pair.
fn paid_with(game: &Game, side: Side, plan: &Plan, pair: &Pair) -> i128
    requires plan { IsPlan side game.now plan.now }
    requires entry { IsEntry game.now (entry_of pair.now) }
    ensures value { result ≡ paid_with side game.now plan.now (entry_of pair.now) }
    ensures bound { unsigned_abs result ≤ 2 ^ 40 }
{
    match side {
        Side::One => paid(game, side, plan, &pair.two),
        Side::Two => paid(game, side, &pair.one, plan),
    }
}

/// What a player gets who leaves at a trigger for a full choice, where the other player follows a pair.
pub fn deviated_pay(
    alloc: Global,
    game: &Game,
    side: Side,
    trigger: Trigger,
    choice: &Choice,
    pair: &Pair,
) -> Result<i128, NoMemory>
    requires entry { IsEntry game.now (entry_of pair.now) }
    requires full { IsFullChoice side game.now choice.now }
    ensures value { IfOk result (λ pay. pay ≡ deviated_pay side game.now trigger choice.now (entry_of pair.now)) }
    ensures bound { IfOk result (λ pay. unsigned_abs pay ≤ 2 ^ 40) }
{
    let _ = game.len();
    let plan = own_plan(side, pair);
    if !meets(game, side, trigger, plan) {
        return Ok(paid_with(game, side, plan, pair));
    }
    let left = left_for(alloc, game, side, trigger, choice, plan)?;
    Ok(paid_with(game, side, &left, pair))
}
