ghost use Rattle.std.specs.Prelude.{◌≡◌, ◌<◌, ◌≤◌, ◌+◌, ◌^◌, ℕ, pos, length, Some, IfOk};
ghost use Rattle.corr_game.specs.declared.sides.Side.{Side};
ghost use Rattle.corr_game.specs.declared.sides.Side.TheVariants.{One, Two};
ghost use Rattle.corr_game.specs.Game.{sets_of};
ghost use Rattle.lp_form.specs.Program.{payoff_of, right_of};
ghost use Rattle.lp_form.specs.Small.{IsSmall};
ghost use Rattle.connected_pairs.specs.Connected.{IsPairs, IsPairsOf};
ghost use Rattle.incentive_rows.specs.Bounds.{IsWithin};
ghost use Rattle.incentive_rows.specs.Part.{AddsTo, AreIncentives, HasRoom};
ghost use Rattle.incentive_rows.specs.Size.{HasCount, HasCountAt, HasIncentives, HasSize, HasTotal, HasTotalAt, row_each, value_each};
ghost use Rattle.incentive_rows.specs.Standing.{HasBlocks, HasRowsAtSets, HasRowsFor, HasRowsOf, IsTriggerAt};
ghost use Rattle.incentive_rows.specs.Trigger.{IsKnown, TriggersAt};

use crate::blocks::{Columns, block};
use crate::places::set_places;
use crate::sizes::{incentive_size, triggers_at};
use crate::triggers::Trigger;
use connected_pairs::Pairs;
use corr_game::{Game, Notion, SetId, Side};
use lp_form::Lp;
use std::alloc::{AllocError as NoMemory, Global};

/// The rows so far, how many values they have, and the floor's column behind all values.
#[derive(Debug, Drop)]
pub struct Part {
    pub lp: Lp,
    pub values: u32,
    pub floor: u32,
}

/// The incentive rows of a notion, over all columns of its program: the relevant pairs, the values of the triggers'
/// sets, the floor, and a slack for each row.
pub fn incentives(alloc: Global, game: &Game, pairs: &Pairs, notion: Notion) -> Result<Lp, NoMemory>
    requires whose { IsPairsOf game.now pairs.now }
    requires size { (rows columns : ℕ) × HasSize game.now pairs.now notion rows columns × (rows ≤ 2048) × (columns ≤ 8192) }
    ensures columns { IfOk result (λ lp. (rows columns : ℕ) → HasSize game.now pairs.now notion rows columns → lp.cols ≡ columns) }
    ensures rows { IfOk result (λ lp. (rows values : ℕ) → HasIncentives game.now pairs.now notion rows values → length lp.rows ≡ rows) }
    ensures rows_of_one { IfOk result
        (λ lp. (rows values : ℕ) → HasIncentives game.now pairs.now notion rows values → HasRowsFor notion game.now pairs.now One 0 0 (length pairs.now.pairs + values) lp.cols lp) }
    ensures rows_of_two { IfOk result
        (λ lp. (rows values : ℕ) (size : HasIncentives game.now pairs.now notion rows values) → HasRowsFor notion game.now pairs.now Two size.rows_one size.values_one (length pairs.now.pairs + values) lp.cols lp) }
    ensures few_columns { IfOk result (λ lp. lp.cols ≤ 8192) }
    ensures pair_columns { IfOk result (λ lp. length pairs.now.pairs ≤ lp.cols) }
    ensures few_rows { IfOk result (λ lp. length lp.rows ≤ 2048) }
    ensures rights { IfOk result (λ lp. (r : ℕ) → right_of lp r ≡ pos 0) }
    ensures payoffs { IfOk result (λ lp. (side : Side) (k : ℕ) → payoff_of side lp k ≡ pos 0) }
    ensures bounded { IfOk result (λ lp. IsWithin (2 ^ 42) lp) }
    ensures small { IfOk result (λ lp. IsSmall lp) }
{
    let size = incentive_size(game, pairs, notion);
    let floor = pairs.len() + size.values as u32;
    let part = Part {
        lp: Lp::new(alloc, 0, floor + 1 + size.rows as u32)?,
        values: 0,
        floor,
    };
    let part = add_player(alloc, game, pairs, Side::One, notion, part)?;
    let part = add_player(alloc, game, pairs, Side::Two, notion, part)?;
    Ok(part.lp)
}

/// Adds the rows of a player's triggers.
fn add_player(
    alloc: Global,
    game: &Game,
    pairs: &Pairs,
    side: Side,
    notion: Notion,
    part: Part,
) -> Result<Part, NoMemory>
    requires whose { IsPairsOf game.now pairs.now }
    requires rules { IsPairs pairs.now }
    requires before { AreIncentives part.lp }
    requires room { (rows values : ℕ) × HasTotal row_each 1 notion game.now pairs.now side rows × HasTotal value_each 0 notion game.now pairs.now side values × HasRoom pairs.now part rows values }
    ensures rows { IfOk result
        (λ more. HasRowsFor notion game.now pairs.now side (length part.lp.rows) part.values part.floor part.lp.cols more.lp) }
    ensures size { IfOk result
        (λ more. (rows values : ℕ) → HasTotal row_each 1 notion game.now pairs.now side rows → HasTotal value_each 0 notion game.now pairs.now side values → AddsTo part more rows values) }
{
    match notion {
        Notion::Efce | Notion::Efcce => add_sets(alloc, game, pairs, side, notion, part),
        Notion::Nfcce => {
            let trigger = Trigger {
                side,
                set: None,
                action: None,
                seq: 0,
            };
            add_trigger(alloc, game, pairs, &trigger, part)
        }
    }
}

fn add_sets(
    alloc: Global,
    game: &Game,
    pairs: &Pairs,
    side: Side,
    notion: Notion,
    part: Part,
) -> Result<Part, NoMemory>
    requires whose { IsPairsOf game.now pairs.now }
    requires rules { IsPairs pairs.now }
    requires before { AreIncentives part.lp }
    requires room { (rows values : ℕ) × HasTotalAt row_each 1 notion game.now pairs.now side rows × HasTotalAt value_each 0 notion game.now pairs.now side values × HasRoom pairs.now part rows values }
    ensures rows { IfOk result
        (λ more. HasRowsAtSets notion game.now pairs.now side (length (sets_of side game.now)) (length part.lp.rows) part.values part.floor part.lp.cols more.lp) }
    ensures size { IfOk result
        (λ more. (rows values : ℕ) → HasTotalAt row_each 1 notion game.now pairs.now side rows → HasTotalAt value_each 0 notion game.now pairs.now side values → AddsTo part more rows values) }
{
    let mut made = part;
    for set in 0..game.sets(side) {
        made = add_triggers(alloc, game, pairs, (side, SetId(set)), notion, made)?;
    }
    Ok(made)
}

/// Adds the rows of the triggers at one set.
fn add_triggers(
    alloc: Global,
    game: &Game,
    pairs: &Pairs,
    at: (Side, SetId),
    notion: Notion,
    part: Part,
) -> Result<Part, NoMemory>
    requires whose { IsPairsOf game.now pairs.now }
    requires rules { IsPairs pairs.now }
    requires known { at.1.0 < length (sets_of at.0 game.now) }
    requires before { AreIncentives part.lp }
    requires room { (rows values : ℕ) × HasCountAt row_each 1 notion game.now pairs.now at.0 at.1.0 rows × HasCountAt value_each 0 notion game.now pairs.now at.0 at.1.0 values × HasRoom pairs.now part rows values }
    ensures rows { IfOk result
        (λ more. (times : ℕ) → TriggersAt notion game.now at.0 at.1.0 times → HasBlocks notion game.now pairs.now at.0 at.1.0 times (length part.lp.rows) part.values part.floor part.lp.cols more.lp) }
    ensures size { IfOk result
        (λ more. (rows values : ℕ) → HasCountAt row_each 1 notion game.now pairs.now at.0 at.1.0 rows → HasCountAt value_each 0 notion game.now pairs.now at.0 at.1.0 values → AddsTo part more rows values) }
{
    let mut made = part;
    for k in 0..triggers_at(game, at.0, at.1, notion) {
        let trigger = trigger_at(game, pairs, at, notion, k);
        made = add_trigger(alloc, game, pairs, &trigger, made)?;
    }
    Ok(made)
}

/// The k-th trigger at a set: of EFCE that at the k-th action, else the set's only one.
fn trigger_at(game: &Game, pairs: &Pairs, at: (Side, SetId), notion: Notion, k: u32) -> Trigger
    requires whose { IsPairsOf game.now pairs.now }
    requires rules { IsPairs pairs.now }
    requires known { at.1.0 < length (sets_of at.0 game.now) }
    requires in_range { (times : ℕ) × TriggersAt notion game.now at.0 at.1.0 times × (k < times) }
    ensures trigger { IsTriggerAt notion pairs.now at.0 at.1.0 k result }
    ensures side { result.side ≡ at.0 }
    ensures set { result.set ≡ Some at.1 }
    ensures known { IsKnown pairs.now.seqs result }
{
    let set = Some(at.1);
    match notion {
        Notion::Efce => Trigger {
            side: at.0,
            set,
            action: Some(k),
            seq: pairs.seqs().number(at.0, at.1, k),
        },
        Notion::Efcce | Notion::Nfcce => Trigger {
            side: at.0,
            set,
            action: None,
            seq: pairs.seqs().own(at.0, at.1),
        },
    }
}

/// Adds the rows of one trigger.
fn add_trigger(
    alloc: Global,
    game: &Game,
    pairs: &Pairs,
    trigger: &Trigger,
    part: Part,
) -> Result<Part, NoMemory>
    requires whose { IsPairsOf game.now pairs.now }
    requires rules { IsPairs pairs.now }
    requires known { IsKnown pairs.now.seqs trigger.now }
    requires before { AreIncentives part.lp }
    requires room { (rows values : ℕ) × HasCount row_each game.now pairs.now trigger.now.side trigger.now.set rows × HasCount value_each game.now pairs.now trigger.now.side trigger.now.set values × HasRoom pairs.now part (rows + 1) values }
    ensures rows { IfOk result
        (λ more. HasRowsOf game.now pairs.now trigger.now (length part.lp.rows) part.values part.floor part.lp.cols more.lp) }
    ensures size { IfOk result
        (λ more. (rows values : ℕ) → HasCount row_each game.now pairs.now trigger.now.side trigger.now.set rows → HasCount value_each game.now pairs.now trigger.now.side trigger.now.set values → AddsTo part more (rows + 1) values) }
{
    let places = set_places(alloc, game, pairs, trigger.side, trigger.set)?;
    let columns = Columns {
        values: pairs.len() + part.values,
        floor: part.floor,
        slacks: part.floor + 1 + part.lp.rows(),
        all: part.lp.cols(),
    };
    let more = block(alloc, game, pairs, trigger, &places, &columns)?;
    Ok(Part {
        lp: Lp::join(part.lp, more)?,
        values: part.values + places.values,
        floor: part.floor,
    })
}
