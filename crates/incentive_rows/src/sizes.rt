ghost use Rattle.std.specs.Prelude.{◌<◌, ◌≤◌, ◌*◌, ◌^◌, length};
ghost use Rattle.corr_game.specs.Game.{sets_of};
ghost use Rattle.sequences.specs.Number.{count_of, side_of};
ghost use Rattle.connected_pairs.specs.Connected.{IsPairsOf, other};
ghost use Rattle.incentive_rows.specs.Size.{CountsFor, HasCorrelationRows, HasCount, HasIncentives, HasRowBeside, HasRowsOfSet, HasSize, HasTotal, HasTotalAt, row_each, value_each};
ghost use Rattle.incentive_rows.specs.Trigger.{TriggersAt};

use crate::adding::other_side;
use crate::triggers::is_set_of;
use connected_pairs::Pairs;
use corr_game::{Game, Notion, SetId, Side};

/// How many rows and values some triggers have.
#[derive(Clone, Copy, Debug)]
pub struct Size {
    pub rows: u64,
    pub values: u64,
}

/// The numbers of rows and of columns of a notion's whole program.
pub fn program_size(game: &Game, pairs: &Pairs, notion: Notion) -> (u64, u64)
    requires { IsPairsOf game.now pairs.now }
    ensures { HasSize game.now pairs.now notion result.0 result.1 }
{
    let own = incentive_size(game, pairs, notion);
    let one = correlation_rows(game, pairs, Side::One);
    let two = correlation_rows(game, pairs, Side::Two);
    let rows = 1 + one + two + own.rows;
    (rows, u64::from(pairs.len()) + own.values + 1 + own.rows)
}

/// The number of the correlation rows at a player's sets.
fn correlation_rows(game: &Game, pairs: &Pairs, side: Side) -> u64
    requires { IsPairsOf game.now pairs.now }
    ensures count { HasCorrelationRows game.now pairs.now side result }
    ensures few { result ≤ 4096 * 4096 }
{
    let mut rows = 0;
    for set in 0..game.sets(side) {
        rows += rows_of_set(pairs, side, SetId(set));
    }
    rows
}

fn rows_of_set(pairs: &Pairs, side: Side, set: SetId) -> u64
    requires { set.0 < length (side_of side pairs.now.seqs).places }
    ensures count { HasRowsOfSet pairs.now side set.0 result }
    ensures few { result ≤ 4096 }
{
    let mut rows = 0;
    for beside in 0..pairs.seqs().count(other_side(side)) {
        rows += row_beside(pairs, side, set, beside);
    }
    rows
}

/// 1 where a sequence of the other player is empty or its last set is connected to this set, else 0.
fn row_beside(pairs: &Pairs, side: Side, set: SetId, beside: u32) -> u64
    requires known { set.0 < length (side_of side pairs.now.seqs).places }
    requires in_range { beside < count_of (side_of (other side) pairs.now.seqs) }
    ensures count { HasRowBeside pairs.now side set.0 beside result }
    ensures few { result ≤ 1 }
{
    match pairs.seqs().last(other_side(side), beside) {
        None => 1,
        Some(taken) => u64::from(pairs.touches(other_side(side), taken.0, set)),
    }
}

/// How many incentive rows and value columns a notion's program has.
pub fn incentive_size(game: &Game, pairs: &Pairs, notion: Notion) -> Size
    requires { IsPairsOf game.now pairs.now }
    ensures count { HasIncentives game.now pairs.now notion result.rows result.values }
    ensures few_rows { result.rows ≤ 2 ^ 38 }
    ensures few_values { result.values ≤ 2 ^ 38 }
{
    let one = player_size(game, pairs, Side::One, notion);
    let two = player_size(game, pairs, Side::Two, notion);
    Size {
        rows: one.rows + two.rows,
        values: one.values + two.values,
    }
}

fn player_size(game: &Game, pairs: &Pairs, side: Side, notion: Notion) -> Size
    requires { IsPairsOf game.now pairs.now }
    ensures rows { HasTotal row_each 1 notion game.now pairs.now side result.rows }
    ensures values { HasTotal value_each 0 notion game.now pairs.now side result.values }
    ensures few_rows { result.rows ≤ 2 ^ 37 }
    ensures few_values { result.values ≤ 2 ^ 37 }
{
    match notion {
        Notion::Efce | Notion::Efcce => triggers_size(game, pairs, side, notion),
        Notion::Nfcce => {
            let size = trigger_size(game, pairs, side, None);
            Size {
                rows: size.rows + 1,
                values: size.values,
            }
        }
    }
}

/// All triggers at a player's sets.
fn triggers_size(game: &Game, pairs: &Pairs, side: Side, notion: Notion) -> Size
    requires { IsPairsOf game.now pairs.now }
    ensures rows { HasTotalAt row_each 1 notion game.now pairs.now side result.rows }
    ensures values { HasTotalAt value_each 0 notion game.now pairs.now side result.values }
    ensures few_rows { result.rows ≤ 2 ^ 37 }
    ensures few_values { result.values ≤ 2 ^ 37 }
{
    let mut size = Size { rows: 0, values: 0 };
    for set in 0..game.sets(side) {
        let times = u64::from(triggers_at(game, side, SetId(set), notion));
        let each = trigger_size(game, pairs, side, Some(SetId(set)));
        size.rows += times * (each.rows + 1);
        size.values += times * each.values;
    }
    size
}

/// How many triggers stand at a set.
pub fn triggers_at(game: &Game, side: Side, set: SetId, notion: Notion) -> u32
    requires { set.0 < length (sets_of side game.now) }
    ensures count { TriggersAt notion game.now side set.0 result }
    ensures few { result ≤ 64 }
{
    match notion {
        Notion::Efce => game.set(side, set).actions,
        Notion::Efcce => 1,
        Notion::Nfcce => 0,
    }
}

/// One trigger, at this set or with none: how many actions its sets have, and how many these are.
pub fn trigger_size(game: &Game, pairs: &Pairs, side: Side, top: Option<SetId>) -> Size
    requires { IsPairsOf game.now pairs.now }
    ensures rows { HasCount row_each game.now pairs.now side top result.rows }
    ensures values { HasCount value_each game.now pairs.now side top result.values }
    ensures few_rows { result.rows ≤ 4096 * 64 }
    ensures few_values { result.values ≤ 4096 }
{
    let mut size = Size { rows: 0, values: 0 };
    for set in 0..game.sets(side) {
        let each = size_of_set(game, pairs, (side, SetId(set)), top);
        size.rows += each.rows;
        size.values += each.values;
    }
    size
}

/// What a set counts for: its actions and 1 where the trigger has it, else nothing.
fn size_of_set(game: &Game, pairs: &Pairs, at: (Side, SetId), top: Option<SetId>) -> Size
    requires whose { IsPairsOf game.now pairs.now }
    requires known { at.1.0 < length (sets_of at.0 game.now) }
    ensures rows { CountsFor row_each game.now pairs.now at.0 top at.1.0 result.rows }
    ensures values { CountsFor value_each game.now pairs.now at.0 top at.1.0 result.values }
    ensures few_rows { result.rows ≤ 64 }
    ensures few_values { result.values ≤ 1 }
{
    let actions = u64::from(game.set(at.0, at.1).actions);
    if is_set_of(pairs.seqs(), at.0, top, at.1) {
        Size {
            rows: actions,
            values: 1,
        }
    } else {
        Size { rows: 0, values: 0 }
    }
}
