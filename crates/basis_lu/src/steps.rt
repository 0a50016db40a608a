ghost use Rattle.std.specs.Prelude.{◌≡◌, ◌<◌, All, length};
ghost use Rattle.basis_lu.specs.PackedColumns.{IsInRows};
ghost use Rattle.basis_lu.specs.Pivots.{IsPivotIn};

use crate::matrices::{Cell, Matrix};
use residues::Residue;
use std::alloc::{AllocError as NoMemory, Global};

/// The row of a step, the inverse of its number there, and the column that holds its other numbers.
#[derive(Clone, Copy)]
struct Pivot {
    row: u32,
    inverse: Residue,
    column: u32,
}

/// Steps of an elimination. Each solves by a unit matrix in which one column was replaced.
///
/// A step multiplies the vector's number at its row by the inverse, and subtracts that number times
/// each of its cells from the vector.
#[derive(Drop)]
pub(crate) struct Steps {
    columns: Matrix,
    pivots: Vec<Pivot>,
    ghost pivots_in: { All (IsPivotIn columns.rows) pivots.items },
}

/// Subtracts the factor times each cell from the vector.
fn subtract(vector: &mut [Residue], factor: Residue, cells: &[Cell])
    requires { All (IsInRows (length vector.old)) cells.now }
{
    for cell in cells {
        let row = cell.row as usize;
        vector[row] = vector[row].minus_product(factor, cell.value);
    }
}

/// The number less the product of the vector and the cells.
fn less_product(number: Residue, vector: &[Residue], cells: &[Cell]) -> Residue
    requires { All (IsInRows (length vector.now)) cells.now }
{
    let mut rest = number;
    for cell in cells {
        let factor = vector[cell.row as usize];
        if !factor.is_zero() {
            rest = rest.minus_product(factor, cell.value);
        }
    }
    rest
}

impl Steps {
    pub(crate) fn new(alloc: Global, rows: u32) -> Steps {
        Steps {
            columns: Matrix::new(alloc, rows),
            pivots: Vec::new(alloc),
        }
    }

    /// Begins the step at work anew, without the cells put since the last step ended.
    pub(crate) fn begin(&mut self) {
        self.columns.begin_column();
    }

    /// Puts a cell into the step at work. False, with nothing put, where there is no such row or no
    /// room.
    pub(crate) fn put(&mut self, row: u32, value: Residue) -> Result<bool, NoMemory> {
        self.columns.put(row, value)
    }

    /// Whether a cell was put since the last step ended.
    pub(crate) fn is_open(&self) -> bool {
        self.columns.is_open()
    }

    /// Ends the step at work. False, and nothing ended, where there is no such row.
    pub(crate) fn end(&mut self, row: u32, inverse: Residue) -> Result<bool, NoMemory> {
        if row >= self.columns.rows() {
            return Ok(false);
        }
        let column = self.columns.cols();
        self.columns.end_column()?;
        self.pivots.push(Pivot {
            row,
            inverse,
            column,
        })?;
        Ok(true)
    }

    /// How many steps there are.
    pub(crate) fn len(&self) -> usize {
        self.pivots.len()
    }

    /// How many cells they have.
    pub(crate) fn cells(&self) -> u32 {
        self.columns.cells()
    }

    fn step(&self, k: usize, vector: &mut [Residue])
        requires step { k < length self.now.pivots.items }
        requires rows { length vector.old ≡ self.now.columns.rows }
    {
        let pivot = self.pivots[k];
        let row = pivot.row as usize;
        let number = vector[row];
        if !number.is_zero() {
            let factor = number.times(pivot.inverse);
            vector[row] = factor;
            subtract(vector, factor, self.columns.column(pivot.column));
        }
    }

    fn transposed_step(&self, k: usize, vector: &mut [Residue])
        requires step { k < length self.now.pivots.items }
        requires rows { length vector.old ≡ self.now.columns.rows }
    {
        let pivot = self.pivots[k];
        let row = pivot.row as usize;
        let rest = less_product(vector[row], vector, self.columns.column(pivot.column));
        vector[row] = if rest.is_zero() {
            rest
        } else {
            rest.times(pivot.inverse)
        };
    }

    /// Takes the steps from this one on, in order.
    pub(crate) fn forward(&self, first: usize, vector: &mut [Residue]) {
        if vector.len() != self.columns.rows() as usize {
            return;
        }
        for k in first..self.pivots.len() {
            self.step(k, vector);
        }
    }

    /// Takes the steps from the last to the first.
    pub(crate) fn backward(&self, vector: &mut [Residue]) {
        if vector.len() != self.columns.rows() as usize {
            return;
        }
        for k in (0..self.pivots.len()).rev() {
            self.step(k, vector);
        }
    }

    /// Takes the transposed steps in order, where each step's cells are at pivots of earlier steps.
    ///
    /// Then none changes anything before the first whose row has a number other than 0.
    pub(crate) fn forward_transposed(&self, vector: &mut [Residue]) {
        if vector.len() != self.columns.rows() as usize {
            return;
        }
        let mut begun = false;
        for k in 0..self.pivots.len() {
            begun = begun || !vector[self.pivots[k].row as usize].is_zero();
            if begun {
                self.transposed_step(k, vector);
            }
        }
    }

    /// Takes the transposed steps from the last to the first.
    pub(crate) fn backward_transposed(&self, vector: &mut [Residue]) {
        if vector.len() != self.columns.rows() as usize {
            return;
        }
        for k in (0..self.pivots.len()).rev() {
            self.transposed_step(k, vector);
        }
    }
}
