// The columns and rows that are left after the singletons.
ghost use Rattle.std.specs.Prelude.{◌≡◌, vec_len};

use crate::candidates::candidate_at;
use crate::elimination::Elimination;
use crate::matrices::{Cell, Matrix};
use crate::remaining::Remaining;
use residues::Residue;
use std::alloc::{AllocError as NoMemory, Global};

/// The rows that are left, the number of lower steps before, and a column at work by its cells.
///
/// Between two columns all numbers are 0.
#[derive(Drop)]
struct Kernel {
    rows: Vec<u32>,
    first_step: usize,
    numbers: Vec<Residue>,
    cells: Vec<Cell>,
}

fn rows_left(alloc: Global, remaining: &Remaining, count: u32) -> Result<Vec<u32>, NoMemory> {
    let mut rows = Vec::new(alloc);
    for row in 0..count {
        if !remaining.is_done(row) {
            rows.push(row)?;
        }
    }
    Ok(rows)
}

/// The candidates that are left, each after the number of its cells: in their order where there are
/// more candidates than rows, else those with the fewest cells first.
fn columns_left(
    alloc: Global,
    remaining: &Remaining,
    columns: &Matrix,
) -> Result<Vec<(u32, u32)>, NoMemory> {
    let mut left = Vec::new(alloc);
    for column in 0..columns.cols() {
        let count = remaining.left_in_column(column);
        if count > 0 && !remaining.is_taken(column) {
            left.push((count, column))?;
        }
    }
    if columns.cols() <= columns.rows() {
        left.sort_unstable();
    }
    Ok(left)
}

/// The row of the pivot: of those without one in which the number has an inverse, the row with the
/// fewest cells.
fn pivot_row(remaining: &Remaining, cells: &[Cell]) -> Option<u32> {
    let mut best = None;
    let mut fewest = u32::MAX;
    for cell in cells {
        let count = remaining.left_in_row(cell.row);
        let has_inverse = cell.value.first != 0 && cell.value.second != 0;
        if count < fewest && has_inverse && !remaining.is_done(cell.row) {
            fewest = count;
            best = Some(cell.row);
        }
    }
    best
}

fn scatter(numbers: &mut [Residue], cells: &[Cell]) {
    for cell in cells {
        if let Some(number) = numbers.get_mut(cell.row as usize) {
            *number = cell.value;
        }
    }
}

/// Moves the number of a row, unless it is 0, to the cells.
fn gather(numbers: &mut [Residue], row: u32, cells: &mut Vec<Cell>) -> Result<(), NoMemory> {
    if let Some(number) = numbers.get_mut(row as usize) {
        let value = *number;
        if !value.is_zero() {
            *number = Residue::zero();
            cells.push(Cell { row, value })?;
        }
    }
    Ok(())
}

fn gather_rows(
    numbers: &mut [Residue],
    rows: &[u32],
    cells: &mut Vec<Cell>,
) -> Result<(), NoMemory> {
    for row in rows {
        gather(numbers, *row, cells)?;
    }
    Ok(())
}

fn gather_cells(
    numbers: &mut [Residue],
    column: &[Cell],
    cells: &mut Vec<Cell>,
) -> Result<(), NoMemory> {
    for cell in column {
        gather(numbers, cell.row, cells)?;
    }
    Ok(())
}

impl Kernel {
    fn new(
        alloc: Global,
        remaining: &Remaining,
        rows: u32,
        first_step: usize,
    ) -> Result<Kernel, NoMemory> {
        Ok(Kernel {
            rows: rows_left(alloc, remaining, rows)?,
            first_step,
            numbers: vec![in alloc; Residue::zero(); rows as usize]?,
            cells: Vec::new(alloc),
        })
    }

    /// Makes the cells what the lower steps of the kernel make of a column.
    fn reduce(&mut self, elimination: &Elimination, column: &[Cell]) -> Result<(), NoMemory> {
        scatter(&mut self.numbers, column);
        elimination
            .lower
            .forward(self.first_step, &mut self.numbers);
        self.cells.clear();
        gather_rows(&mut self.numbers, &self.rows, &mut self.cells)?;
        gather_cells(&mut self.numbers, column, &mut self.cells)
    }
}

/// Makes columns basic until no row or column is left. False where a pivot fails.
pub(crate) fn eliminate_kernel(
    alloc: Global,
    elimination: &mut Elimination,
    remaining: &mut Remaining,
    columns: &Matrix,
    candidates: &[u32],
) -> Result<bool, NoMemory>
    ensures { vec_len elimination.new.basis ≡ vec_len elimination.old.basis }
{
    let mut kernel = Kernel::new(alloc, remaining, columns.rows(), elimination.lower.len())?;
    let mut rows = kernel.rows.len();
    let order = columns_left(alloc, remaining, columns)?;
    for (_, number) in &order {
        if rows == 0 {
            return Ok(true);
        }
        let number = *number;
        kernel.reduce(elimination, columns.column(number))?;
        if let Some(row) = pivot_row(remaining, &kernel.cells) {
            let column = candidate_at(candidates, number);
            if !elimination.pivot(remaining, &kernel.cells, row, column)? {
                return Ok(false);
            }
            remaining.finish_row(row);
            rows -= 1;
        }
    }
    Ok(true)
}
