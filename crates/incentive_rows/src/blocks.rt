ghost use Rattle.std.specs.Prelude.{◌≡◌, ℕ, ◌<◌, ◌≤◌, ◌+◌, ◌^◌, length, unwrap_or, IfOk, OnOk};
ghost use Rattle.corr_game.specs.Game.{sets_of};
ghost use Rattle.sequences.specs.Number.{IsOwn, last_of, side_of};
ghost use Rattle.lp_form.specs.Program.{coefficient};
ghost use Rattle.connected_pairs.specs.Connected.{IsPairs, IsPairsOf};
ghost use Rattle.incentive_rows.specs.Bounds.{Grows, IsWithin};
ghost use Rattle.incentive_rows.specs.Coefficient.{IsAboveTerm, IsCoefficient, IsSetTerm, IsSlackTerm, IsValueTerm, row_at_move};
ghost use Rattle.incentive_rows.specs.Part.{AreApart, AreIncentives};
ghost use Rattle.incentive_rows.specs.Places.{ArePlaces, StandIn};
ghost use Rattle.incentive_rows.specs.Term.{AreTerms, Changes};
ghost use Rattle.incentive_rows.specs.Trigger.{IsKnown};

use crate::adding::{add_1, take_1};
use crate::leaves::add_leaves;
use crate::places::{Places, SetPlace, row_of};
use crate::triggers::Trigger;
use connected_pairs::Pairs;
use corr_game::{Game, SetId};
use lp_form::Lp;
use std::alloc::{AllocError as NoMemory, Global};

/// Where a trigger's columns begin, and how many the program has.
#[derive(Clone, Copy, Debug)]
pub struct Columns {
    pub values: u32,
    pub floor: u32,
    pub slacks: u32,
    pub all: u32,
}

/// The rows of one trigger: its value rows, by set and action, and its follow row.
pub fn block(
    alloc: Global,
    game: &Game,
    pairs: &Pairs,
    trigger: &Trigger,
    places: &Places,
    columns: &Columns,
) -> Result<Lp, NoMemory>
    requires whose { IsPairsOf game.now pairs.now }
    requires rules { IsPairs pairs.now }
    requires known { IsKnown pairs.now.seqs trigger.now }
    requires placed { ArePlaces game.now pairs.now trigger.now.side trigger.now.set (length (sets_of trigger.now.side game.now)) places.now.sets.items places.now.values places.now.rows }
    requires apart { AreApart pairs.now columns.now places.now.values (places.now.rows + 1) }
    ensures rows { IfOk result (λ lp. length lp.rows ≡ places.now.rows + 1) }
    ensures columns { IfOk result (λ lp. lp.cols ≡ columns.now.all) }
    ensures made { IfOk result (λ lp. AreIncentives lp) }
    ensures terms { IfOk result
        (λ lp. (r k : ℕ) → IsCoefficient game.now pairs.now trigger.now places.now.sets.items places.now.rows columns.now r k (coefficient lp r k)) }
{
    let mut lp = Lp::new(alloc, places.rows + 1, columns.all)?;
    add_values(game, pairs, trigger, places, columns, &mut lp)?;
    add_slacks(places.rows + 1, columns, &mut lp)?;
    add_leaves(game, pairs, trigger, places, &mut lp)?;
    Ok(lp)
}

/// Adds the values of the trigger's sets.
fn add_values(
    game: &Game,
    pairs: &Pairs,
    trigger: &Trigger,
    places: &Places,
    columns: &Columns,
    lp: &mut Lp,
) -> Result<(), NoMemory>
    requires whose { IsPairsOf game.now pairs.now }
    requires placed { ArePlaces game.now pairs.now trigger.now.side trigger.now.set (length (sets_of trigger.now.side game.now)) places.now.sets.items places.now.values places.now.rows }
    requires apart { AreApart pairs.now columns.now places.now.values (places.now.rows + 1) }
    requires in_rows { length lp.old.rows ≡ places.now.rows + 1 }
    requires in_columns { lp.old.cols ≡ columns.now.all }
    requires before { IsWithin (2 ^ 41) lp.old }
    ensures changes { OnOk result (Changes (λ r k. AreTerms (IsSetTerm game.now pairs.now trigger.now places.now.sets.items places.now.rows columns.now r k) (length (sets_of trigger.now.side game.now))) lp.old lp.new) }
    ensures grows { OnOk result (Grows (2 ^ 20) lp.old lp.new) }
{
    for set in 0..game.sets(trigger.side) {
        if let Some(place) = places.sets[set as usize] {
            let actions = game.set(trigger.side, SetId(set)).actions;
            add_value(actions, place, columns, lp)?;
            add_value_above(pairs, trigger, places, (SetId(set), place), columns, lp)?;
        }
    }
    Ok(())
}

/// A set's value, over the floor, stands in the row of each of its actions.
fn add_value(actions: u32, place: SetPlace, columns: &Columns, lp: &mut Lp) -> Result<(), NoMemory>
    requires few { actions ≤ 64 }
    requires few_rows { length lp.old.rows ≤ 8192 }
    requires few_columns { lp.old.cols ≤ 8192 }
    requires in_rows { place.row + actions ≤ length lp.old.rows }
    requires in_columns { columns.now.values + place.value < lp.old.cols }
    requires floor { columns.now.floor < lp.old.cols }
    requires before { IsWithin (2 ^ 42) lp.old }
    ensures changes { OnOk result (Changes (IsValueTerm columns.now actions place) lp.old lp.new) }
    ensures grows { OnOk result (Grows 128 lp.old lp.new) }
{
    for action in 0..actions {
        add_1(lp, place.row + action, columns.values + place.value)?;
        take_1(lp, place.row + action, columns.floor)?;
    }
    Ok(())
}

/// A set's value, over the floor, is taken away in the row of its own sequence; in the follow row where that isn't one
/// of the trigger's.
fn add_value_above(
    pairs: &Pairs,
    trigger: &Trigger,
    places: &Places,
    at: (SetId, SetPlace),
    columns: &Columns,
    lp: &mut Lp,
) -> Result<(), NoMemory>
    requires known { at.0.0 < length (side_of trigger.now.side pairs.now.seqs).places }
    requires stand { StandIn (side_of trigger.now.side pairs.now.seqs) places.now.sets.items places.now.rows }
    requires in_rows { places.now.rows < length lp.old.rows }
    requires few_columns { lp.old.cols ≤ 8192 }
    requires in_columns { columns.now.values + at.1.value < lp.old.cols }
    requires floor { columns.now.floor < lp.old.cols }
    requires before { IsWithin (2 ^ 42 + 128) lp.old }
    ensures changes { OnOk result
        ((own : ℕ) × IsOwn (side_of trigger.now.side pairs.now.seqs) at.0.0 own × Changes (IsAboveTerm columns.now (unwrap_or (row_at_move places.now.sets.items (last_of (side_of trigger.now.side pairs.now.seqs) own)) places.now.rows) at.1) lp.old lp.new) }
    ensures grows { OnOk result (Grows 2 lp.old lp.new) }
{
    let own = pairs.seqs().own(trigger.side, at.0);
    let row = row_of(pairs, trigger.side, places, own).unwrap_or(places.rows);
    take_1(lp, row, columns.values + at.1.value)?;
    add_1(lp, row, columns.floor)?;
    Ok(())
}

/// Each row has a slack of its own.
fn add_slacks(rows: u32, columns: &Columns, lp: &mut Lp) -> Result<(), NoMemory>
    requires in_rows { rows ≤ length lp.old.rows }
    requires in_columns { columns.now.slacks + rows ≤ lp.old.cols }
    requires few { lp.old.cols ≤ 8192 }
    requires before { IsWithin (2 ^ 41) lp.old }
    ensures changes { OnOk result (Changes (IsSlackTerm columns.now rows) lp.old lp.new) }
    ensures grows { OnOk result (Grows (2 ^ 13) lp.old lp.new) }
{
    for row in 0..rows {
        take_1(lp, row, columns.slacks + row)?;
    }
    Ok(())
}
