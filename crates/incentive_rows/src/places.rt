ghost use Rattle.std.specs.Prelude.{◌≡◌, ◌<◌, ◌+◌, Some, slice_get, length, IfOk, IfSome, OnOk};
ghost use Rattle.corr_game.specs.Game.{sets_of};
ghost use Rattle.sequences.specs.Number.{count_of, last_of, side_of};
ghost use Rattle.connected_pairs.specs.Connected.{IsPairsOf};
ghost use Rattle.incentive_rows.specs.declared.places.SetPlace.{SetPlace};
ghost use Rattle.incentive_rows.specs.Coefficient.{row_at_move, row_from};
ghost use Rattle.incentive_rows.specs.Places.{ArePlaces, StandIn};

use crate::triggers::is_set_of;
use connected_pairs::Pairs;
use corr_game::{Game, SetId, Side};
use std::alloc::{AllocError as NoMemory, Global};

/// Where a set of a trigger stands among the trigger's values, and its first row among the trigger's rows.
#[derive(Clone, Copy, Debug)]
pub struct SetPlace {
    pub value: u32,
    pub row: u32,
}

/// The place of each set of a player under one trigger, or none, and how many values and value rows there are.
#[derive(Debug, Drop)]
pub struct Places {
    pub sets: Vec<Option<SetPlace>>,
    pub values: u32,
    pub rows: u32,
}

/// The places of a player's sets under a trigger at `top`.
pub fn set_places(
    alloc: Global,
    game: &Game,
    pairs: &Pairs,
    side: Side,
    top: Option<SetId>,
) -> Result<Places, NoMemory>
    requires { IsPairsOf game.now pairs.now }
    ensures { IfOk result
        (λ places. ArePlaces game.now pairs.now side top (length (sets_of side game.now)) places.sets.items places.values places.rows) }
{
    let mut places = Places {
        sets: Vec::new(alloc),
        values: 0,
        rows: 0,
    };
    for set in 0..game.sets(side) {
        add_place(game, pairs, (side, SetId(set)), top, &mut places)?;
    }
    Ok(places)
}

fn add_place(
    game: &Game,
    pairs: &Pairs,
    at: (Side, SetId),
    top: Option<SetId>,
    places: &mut Places,
) -> Result<(), NoMemory>
    requires whose { IsPairsOf game.now pairs.now }
    requires known { at.1.0 < length (sets_of at.0 game.now) }
    requires before { ArePlaces game.now pairs.now at.0 top at.1.0 places.old.sets.items places.old.values places.old.rows }
    ensures { OnOk result
        (ArePlaces game.now pairs.now at.0 top (at.1.0 + 1) places.new.sets.items places.new.values places.new.rows) }
{
    let actions = game.set(at.0, at.1).actions;
    if is_set_of(pairs.seqs(), at.0, top, at.1) {
        let place = SetPlace {
            value: places.values,
            row: places.rows,
        };
        places.sets.push(Some(place))?;
        places.values += 1;
        places.rows += actions;
    } else {
        places.sets.push(None)?;
    }
    Ok(())
}

/// The value row at the last move of a sequence, or none where the sequence is empty or that move isn't at one of the
/// trigger's sets.
pub fn row_of(pairs: &Pairs, side: Side, places: &Places, seq: u32) -> Option<u32>
    requires known { seq < count_of (side_of side pairs.now.seqs) }
    requires in_rows { StandIn (side_of side pairs.now.seqs) places.now.sets.items places.now.rows }
    ensures value { result ≡ row_at_move places.now.sets.items (last_of (side_of side pairs.now.seqs) seq) }
    ensures in_range { IfSome result (λ row. row < places.now.rows) }
{
    match pairs.seqs().last(side, seq) {
        None => None,
        Some(taken) => row_at(places, taken.0, taken.1),
    }
}

/// The row of an action of a set, or none where the set isn't one of the trigger's.
fn row_at(places: &Places, set: SetId, action: u32) -> Option<u32>
    requires known { set.0 < length places.now.sets.items }
    requires in_rows { (place : SetPlace) → slice_get places.now.sets.items set.0 ≡ Some (Some place) → place.row + action < places.now.rows }
    ensures value { result ≡ row_from (slice_get places.now.sets.items set.0) action }
    ensures in_range { IfSome result (λ row. row < places.now.rows) }
{
    match places.sets[set.0 as usize] {
        None => None,
        Some(place) => Some(place.row + action),
    }
}
