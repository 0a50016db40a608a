ghost use Rattle.std.specs.Prelude.{◌≡◌, ◌<◌, ◌≤◌, ◌+◌, ◌*◌, ◌↔◌, IsTrue, All, IfOk, OnOk, length};
ghost use Rattle.corr_game.specs.Game.{IsGame, sets_of};
ghost use Rattle.sequences.specs.Number.{count_of, last_of, side_of};
ghost use Rattle.connected_pairs.specs.Connected.{IsPairsOf, IsTouched, other};
ghost use Rattle.plan_polytope.specs.CorrelationRow.{IsRowOf};
ghost use Rattle.incentive_rows.specs.Size.{HasCorrelationRows, HasRowsOfSet};
ghost use Rattle.plan_polytope.specs.RowCount.{HasBothCounts, IsLonger};
ghost use Rattle.plan_polytope.specs.RowOrder.{AddsWanted, AreAllRows, AreRowsBelow};

use connected_pairs::Pairs;
use corr_game::{Game, SetId, Side};
use std::alloc::{AllocError as NoMemory, Global};

/// A correlation row stands at a set of one player and for one sequence of the other.
#[derive(Clone, Copy, Debug)]
pub struct Row {
    pub side: Side,
    pub set: SetId,
    pub beside: u32,
}

/// The rows of all sets, player 1's first, by set and then by the other player's sequence.
pub fn correlation_rows(alloc: Global, game: &Game, pairs: &Pairs) -> Result<Vec<Row>, NoMemory>
    requires { IsPairsOf game.now pairs.now }
    ensures few { IfOk result (λ rows. length rows.items ≤ 4095 * 4096) }
    ensures each { IfOk result (λ rows. All (IsRowOf game.now pairs.now) rows.items) }
    ensures listed { IfOk result (λ rows. AreAllRows game.now pairs.now rows.items) }
    ensures count { IfOk result (λ rows. HasBothCounts game.now pairs.now (length rows.items)) }
{
    let mut rows = Vec::new(alloc);
    add_rows(game, pairs, Side::One, &mut rows)?;
    add_rows(game, pairs, Side::Two, &mut rows)?;
    Ok(rows)
}

fn add_rows(game: &Game, pairs: &Pairs, side: Side, rows: &mut Vec<Row>) -> Result<(), NoMemory>
    requires whose { IsPairsOf game.now pairs.now }
    requires listed { AreRowsBelow game.now pairs.now side 0 0 rows.old.items }
    ensures listed { OnOk result (AreRowsBelow game.now pairs.now side (length (sets_of side game.now)) 0 rows.new.items) }
    ensures count { OnOk result (IsLonger (HasCorrelationRows game.now pairs.now side) (length rows.old.items) (length rows.new.items)) }
    ensures few { OnOk result (length rows.new.items ≤ length rows.old.items + length (sets_of side game.now) * 4096) }
    ensures rules { IsGame game.now }
{
    for set in 0..game.sets(side) {
        add_rows_of_set(game, pairs, (side, SetId(set)), rows)?;
    }
    Ok(())
}

fn add_rows_of_set(
    game: &Game,
    pairs: &Pairs,
    at: (Side, SetId),
    rows: &mut Vec<Row>,
) -> Result<(), NoMemory>
    requires whose { IsPairsOf game.now pairs.now }
    requires known { at.1.0 < length (sets_of at.0 game.now) }
    requires listed { AreRowsBelow game.now pairs.now at.0 at.1.0 0 rows.old.items }
    ensures listed { OnOk result (AreRowsBelow game.now pairs.now at.0 (at.1.0 + 1) 0 rows.new.items) }
    ensures count { OnOk result (IsLonger (HasRowsOfSet pairs.now at.0 at.1.0) (length rows.old.items) (length rows.new.items)) }
    ensures few { OnOk result (length rows.new.items ≤ length rows.old.items + 4096) }
{
    for beside in 0..pairs.seqs().count(other_side(at.0)) {
        let row = Row {
            side: at.0,
            set: at.1,
            beside,
        };
        add_row(pairs, row, rows)?;
    }
    Ok(())
}

fn add_row(pairs: &Pairs, row: Row, rows: &mut Vec<Row>) -> Result<(), NoMemory>
    requires known { row.set.0 < length (side_of row.side pairs.now.seqs).places }
    requires in_range { row.beside < count_of (side_of (other row.side) pairs.now.seqs) }
    ensures { OnOk result (AddsWanted pairs.now row rows.old.items rows.new.items) }
{
    if is_beside(pairs, (row.side, row.set), row.beside) {
        rows.push(row)?;
    }
    Ok(())
}

/// Whether a sequence of the other player is empty or its last set is connected to this set.
fn is_beside(pairs: &Pairs, at: (Side, SetId), beside: u32) -> bool
    requires known { at.1.0 < length (side_of at.0 pairs.now.seqs).places }
    requires in_range { beside < count_of (side_of (other at.0) pairs.now.seqs) }
    ensures { IsTrue result ↔ IsTouched pairs.now (other at.0) at.1.0 (last_of (side_of (other at.0) pairs.now.seqs) beside) }
{
    match pairs.seqs().last(other_side(at.0), beside) {
        None => true,
        Some(taken) => pairs.touches(other_side(at.0), taken.0, at.1),
    }
}

pub fn other_side(side: Side) -> Side
    ensures { result ≡ other side }
{
    match side {
        Side::One => Side::Two,
        Side::Two => Side::One,
    }
}
