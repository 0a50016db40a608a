// The tableau with which the first phase starts.
ghost use Rattle.std.specs.Prelude.{◌≡◌, ℕ, ◌+◌, ◌^◌, ◌<◌, ◌≤◌, neg_ℤ, pos, length, unsigned_abs, slice_index, IfOk, IsTrue, ◌↔◌};
ghost use Rattle.corr_game.specs.declared.sides.Side.{Side};
ghost use Rattle.corr_num.specs.Narrow.{Narrow};
ghost use Rattle.exact_algebra.specs.Sums.{sum_to};
ghost use Rattle.lp_form.specs.Program.{coefficient, right_of};
ghost use Rattle.int_tableau.specs.Start.{program_entry, payoff_entry, column_sum, start_entry, StartsNarrow, IsNarrowRow};
ghost use Rattle.int_tableau.specs.StartLists.{IsStartRow, AreStartRows, IsStartBasis};

use crate::rows::Row;
use corr_game::Side;
use corr_num::{narrow, sum};
use lp_form::Lp;
use std::alloc::{AllocError as NoMemory, Global};

fn program_entry(lp: &Lp, row: u32, col: u32) -> i64
    requires { row < length lp.now.rows }
    ensures { result ≡ program_entry lp.now row col }
{
    let (rows, cols) = (lp.rows(), lp.cols());
    if col < cols {
        lp.coef(row, col)
    } else if col == cols + rows {
        lp.right(row)
    } else if col == cols + row {
        1
    } else {
        0
    }
}

fn payoff_entry(lp: &Lp, side: Side, col: u32) -> i128
    ensures { result ≡ payoff_entry side lp.now col }
{
    if col < lp.cols() {
        -i128::from(lp.payoff(side, col))
    } else {
        0
    }
}

fn coefficient_sum(lp: &Lp, col: u32) -> i128
    ensures value { result ≡ sum_to (length lp.now.rows) (λ r. coefficient lp.now r col) }
    ensures bound { unsigned_abs result < 2 ^ 126 }
{
    let mut total = 0;
    for row in 0..lp.rows() {
        total = sum(total, i128::from(lp.coef(row, col)));
    }
    total
}

fn right_sum(lp: &Lp) -> i128
    ensures value { result ≡ sum_to (length lp.now.rows) (λ r. right_of lp.now r) }
    ensures bound { unsigned_abs result < 2 ^ 126 }
{
    let mut total = 0;
    for row in 0..lp.rows() {
        total = sum(total, i128::from(lp.right(row)));
    }
    total
}

fn column_sum(lp: &Lp, col: u32) -> i128
    ensures value { result ≡ column_sum lp.now col }
    ensures bound { unsigned_abs result < 2 ^ 126 }
{
    let cols = lp.cols();
    if col < cols {
        coefficient_sum(lp, col)
    } else if col == cols + lp.rows() {
        right_sum(lp)
    } else {
        0
    }
}

/// The entry of the starting tableau, however wide.
fn start_entry(lp: &Lp, row: u32, col: u32) -> i128
    requires { row < length lp.now.rows + 3 }
    ensures { result ≡ start_entry lp.now row col }
{
    let rows = lp.rows();
    if row < rows {
        i128::from(program_entry(lp, row, col))
    } else if row == rows {
        payoff_entry(lp, Side::One, col)
    } else if row == rows + 1 {
        payoff_entry(lp, Side::Two, col)
    } else {
        -column_sum(lp, col)
    }
}

fn is_narrow_row(lp: &Lp, row: u32) -> bool
    requires { row < length lp.now.rows + 3 }
    ensures { IsTrue result ↔ IsNarrowRow lp.now row }
{
    for col in 0..lp.cols() + lp.rows() + 1 {
        if !narrow(start_entry(lp, row, col)) {
            return false;
        }
    }
    true
}

/// Whether each entry of the starting tableau is narrow.
pub fn starts_narrow(lp: &Lp) -> bool
    ensures { IsTrue result ↔ StartsNarrow lp.now }
{
    for row in 0..lp.rows() + 3 {
        if !is_narrow_row(lp, row) {
            return false;
        }
    }
    true
}

fn start_row(alloc: Global, lp: &Lp, row: u32) -> Result<Row, NoMemory>
    requires in_rows { row < length lp.now.rows + 3 }
    requires narrow { IsNarrowRow lp.now row }
    ensures { IfOk result (IsStartRow lp.now row) }
{
    let cols = lp.cols() + lp.rows() + 1;
    let mut entries = Vec::with_capacity(alloc, cols as usize)?;
    for col in 0..cols {
        entries.push(start_entry(lp, row, col) as i64)?;
    }
    Ok(Row::of(entries))
}

pub(crate) fn start_rows(alloc: Global, lp: &Lp) -> Result<Vec<Row>, NoMemory>
    requires { StartsNarrow lp.now }
    ensures { IfOk result (λ rows. AreStartRows lp.now rows.items) }
{
    let count = lp.rows() + 3;
    let mut rows = Vec::with_capacity(alloc, count as usize)?;
    for row in 0..count {
        rows.push(start_row(alloc, lp, row)?)?;
    }
    Ok(rows)
}

/// The basis of artificial columns.
pub(crate) fn start_basis(alloc: Global, lp: &Lp) -> Result<Vec<u32>, NoMemory>
    ensures { IfOk result (λ basis. IsStartBasis lp.now basis.items) }
{
    let (rows, cols) = (lp.rows(), lp.cols());
    let mut basis = Vec::with_capacity(alloc, rows as usize)?;
    for row in 0..rows {
        basis.push(cols + row)?;
    }
    Ok(basis)
}
