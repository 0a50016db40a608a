ghost use Rattle.std.specs.Prelude.{◌≡◌, ◌≢◌, ◌<◌, ◌≤◌, ◌+◌, ◌*◌, ◌^◌, ℕ, pos, length, slice_set, replicate, unsigned_abs, All, IfOk, OnOk};
ghost use Rattle.corr_game.specs.Game.{sets_of};
ghost use Rattle.sequences.specs.Number.{count_of, side_of};
ghost use Rattle.lp_form.specs.Program.{coefficient, right_of};
ghost use Rattle.lp_form.specs.Small.{IsSmall};
ghost use Rattle.lp_form.specs.Solutions.{HasBoundedPayoffs};
ghost use Rattle.connected_pairs.specs.Connected.{IsPairs, IsPairsOf, other};
ghost use Rattle.plan_polytope.specs.Bounds.{AreUnits, IsWithin};
ghost use Rattle.plan_polytope.specs.CorrelationRow.{AreFilled, IsCorrelationRow, IsRowOf, IsTotalRow, column_of};
ghost use Rattle.plan_polytope.specs.Payoffs.{ArePayoffs};
ghost use Rattle.plan_polytope.specs.Placing.{Puts};
ghost use Rattle.plan_polytope.specs.RowCount.{HasBothCounts};
ghost use Rattle.plan_polytope.specs.Rows.{AreCorrelationRows};
ghost use Rattle.plan_polytope.specs.Solutions.{SolutionsMeetRows};

use crate::payoffs::add_payoffs;
use crate::rows::{Row, correlation_rows};
use connected_pairs::Pairs;
use corr_game::{Game, Side};
use lp_form::Lp;
use std::alloc::{AllocError as NoMemory, Global};

/// The program over the relevant pairs whose solutions are the joint plans of both players: the total row, the
/// correlation rows of player 1's sets and of player 2's, and each pair's amounts, summed over its leaves.
pub fn polytope(alloc: Global, game: &Game, pairs: &Pairs) -> Result<Lp, NoMemory>
    requires { IsPairsOf game.now pairs.now }
    ensures columns { IfOk result (λ lp. lp.cols ≡ length pairs.now.pairs) }
    ensures few_rows { IfOk result (λ lp. length lp.rows + 4095 ≤ 2 ^ 24) }
    ensures a_row { IfOk result (λ lp. 0 < length lp.rows) }
    ensures rows { IfOk result (λ lp. (count : ℕ) → HasBothCounts game.now pairs.now count → length lp.rows ≡ count + 1) }
    ensures correlation { IfOk result (λ lp. AreCorrelationRows game.now pairs.now lp) }
    ensures total { IfOk result (λ lp. right_of lp 0 ≡ pos 1) }
    ensures other_rights { IfOk result (λ lp. (r : ℕ) → right_of lp (r + 1) ≡ pos 0) }
    ensures payoffs { IfOk result (ArePayoffs game.now pairs.now) }
    ensures amounts { IfOk result (λ lp. IsWithin (2 ^ 40) lp) }
    ensures units { IfOk result (λ lp. AreUnits lp) }
    ensures small { IfOk result (λ lp. IsSmall lp) }
    ensures meets { IfOk result (λ lp. SolutionsMeetRows pairs.now lp) }
    ensures bounded { IfOk result (λ lp. HasBoundedPayoffs lp) }
{
    let columns = pairs.len();
    let rows = correlation_rows(alloc, game, pairs)?;
    let mut lp = Lp::new(alloc, rows.len() as u32 + 1, columns)?;
    lp.set_right(0, 1);
    place(pairs, (0, Side::One), (0, 0), 1, &mut lp)?;
    fill_rows(game, pairs, &rows, &mut lp)?;
    add_payoffs(game, pairs, &mut lp)?;
    Ok(lp)
}

/// Fills the rows behind the total row.
fn fill_rows(game: &Game, pairs: &Pairs, rows: &[Row], lp: &mut Lp) -> Result<(), NoMemory>
    requires whose { IsPairsOf game.now pairs.now }
    requires rules { IsPairs pairs.now }
    requires columns { length pairs.now.pairs ≤ lp.old.cols }
    requires as_many { length lp.old.rows ≡ length rows.now + 1 }
    requires few { length rows.now ≤ 4095 * 4096 }
    requires each { All (IsRowOf game.now pairs.now) rows.now }
    requires before { AreUnits lp.old }
    requires all_0 { (r k : ℕ) → coefficient lp.old (r + 1) k ≡ pos 0 }
    ensures filled { OnOk result (AreFilled pairs.now rows.now lp.new) }
    ensures first_row { OnOk result ((k : ℕ) → coefficient lp.new 0 k ≡ coefficient lp.old 0 k) }
    ensures units { OnOk result (AreUnits lp.new) }
    ensures rows_alone { OnOk result (lp.new ≡ record lp.old { rows = lp.new.rows }) }
    ensures count { OnOk result (length lp.new.rows ≡ length lp.old.rows) }
{
    for (k, row) in rows.iter().enumerate() {
        fill_row(game, pairs, row, k as u32 + 1, lp)?;
    }
    Ok(())
}

/// A set passes on what its own sequence has: 1 at each of its moves, -1 at its own sequence.
fn fill_row(game: &Game, pairs: &Pairs, row: &Row, at: u32, lp: &mut Lp) -> Result<(), NoMemory>
    requires whose { IsPairsOf game.now pairs.now }
    requires rules { IsPairs pairs.now }
    requires columns { length pairs.now.pairs ≤ lp.old.cols }
    requires known { IsRowOf game.now pairs.now row.now }
    requires in_rows { at < length lp.old.rows }
    requires before { AreUnits lp.old }
    requires all_0 { (k : ℕ) → coefficient lp.old at k ≡ pos 0 }
    ensures row { OnOk result (IsCorrelationRow pairs.now row.now lp.new at) }
    ensures other_rows { OnOk result ((r k : ℕ) → r ≢ at → coefficient lp.new r k ≡ coefficient lp.old r k) }
    ensures units { OnOk result (AreUnits lp.new) }
    ensures rows_alone { OnOk result (lp.new ≡ record lp.old { rows = lp.new.rows }) }
    ensures count { OnOk result (length lp.new.rows ≡ length lp.old.rows) }
{
    let seqs = pairs.seqs();
    for action in 0..game.set(row.side, row.set).actions {
        let seq = seqs.number(row.side, row.set, action);
        place(pairs, (at, row.side), (seq, row.beside), 1, lp)?;
    }
    let own = seqs.own(row.side, row.set);
    place(pairs, (at, row.side), (own, row.beside), -1, lp)?;
    Ok(())
}

/// Puts a coefficient into a row at a pair of sequences, that of the row's player first. Only a relevant pair has a
/// column.
fn place(
    pairs: &Pairs,
    row: (u32, Side),
    at: (u32, u32),
    value: i64,
    lp: &mut Lp,
) -> Result<(), NoMemory>
    requires in_rows { row.0 < length lp.old.rows }
    requires columns { length pairs.now.pairs ≤ lp.old.cols }
    requires own_in { at.0 < count_of (side_of row.1 pairs.now.seqs) }
    requires beside_in { at.1 < count_of (side_of (other row.1) pairs.now.seqs) }
    requires small { unsigned_abs value ≤ 1 }
    requires before { AreUnits lp.old }
    ensures put { OnOk result (Puts (column_of pairs.now row.1 at.0 at.1) row.0 value lp.old lp.new) }
    ensures units { OnOk result (AreUnits lp.new) }
    ensures rows_alone { OnOk result (lp.new ≡ record lp.old { rows = lp.new.rows }) }
    ensures count { OnOk result (length lp.new.rows ≡ length lp.old.rows) }
{
    let Some(col) = column(pairs, row.1, at) else {
        return Ok(());
    };
    lp.set(row.0, col, value)?;
    Ok(())
}

/// The column of a pair of sequences, that of this player first.
fn column(pairs: &Pairs, side: Side, at: (u32, u32)) -> Option<u32>
    requires own_in { at.0 < count_of (side_of side pairs.now.seqs) }
    requires beside_in { at.1 < count_of (side_of (other side) pairs.now.seqs) }
    ensures value { result ≡ column_of pairs.now side at.0 at.1 }
    ensures rules { IsPairs pairs.now }
{
    match side {
        Side::One => pairs.index_of(at.0, at.1),
        Side::Two => pairs.index_of(at.1, at.0),
    }
}
