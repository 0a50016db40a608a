ghost use Rattle.std.specs.Prelude.{◌≡◌, IfOk, vec_len};

use crate::matrices::Cell;
use crate::remaining::Remaining;
use crate::steps::Steps;
use residues::Residue;
use std::alloc::{AllocError as NoMemory, Global};

/// The most cells that factors have.
const MOST_CELLS: u32 = 0x10_0000;

/// Factors at work: the lower and upper steps so far, and the basic column of each row.
#[derive(Drop)]
pub(crate) struct Elimination {
    pub lower: Steps,
    pub upper: Steps,
    pub basis: Vec<u32>,
}

/// The inverse of the number in this row.
fn inverse_in(cells: &[Cell], row: u32) -> Option<Residue> {
    for cell in cells {
        if cell.row == row {
            return cell.value.inverse();
        }
    }
    None
}

/// The unit columns next to this many own columns.
fn unit_columns(alloc: Global, own: u32, rows: u32) -> Result<Vec<u32>, NoMemory>
    ensures { IfOk result (λ columns. vec_len columns ≡ rows) }
{
    let mut columns = Vec::with_capacity(alloc, rows as usize)?;
    for row in 0..rows {
        columns.push(own.saturating_add(row))?;
    }
    Ok(columns)
}

impl Elimination {
    /// No step, and the unit columns as the basis.
    pub(crate) fn new(alloc: Global, own: u32, rows: u32) -> Result<Elimination, NoMemory>
        ensures { IfOk result (λ elimination. vec_len elimination.basis ≡ rows) }
    {
        Ok(Elimination {
            lower: Steps::new(alloc, rows),
            upper: Steps::new(alloc, rows),
            basis: unit_columns(alloc, own, rows)?,
        })
    }

    /// Puts the column's other cells: those in rows with a pivot into the upper step as they are,
    /// the others into the lower step, divided by the pivot.
    fn put_others(
        &mut self,
        remaining: &Remaining,
        cells: &[Cell],
        row: u32,
        inverse: Residue,
    ) -> Result<bool, NoMemory>
        ensures { vec_len self.new.basis ≡ vec_len self.old.basis }
    {
        for cell in cells {
            let put = if cell.row == row {
                true
            } else if remaining.is_done(cell.row) {
                self.upper.put(cell.row, cell.value)?
            } else {
                self.lower.put(cell.row, cell.value.times(inverse))?
            };
            if !put {
                return Ok(false);
            }
        }
        Ok(true)
    }

    fn end_steps(&mut self, row: u32, inverse: Residue) -> Result<bool, NoMemory>
        ensures { vec_len self.new.basis ≡ vec_len self.old.basis }
    {
        if self.lower.is_open() && !self.lower.end(row, Residue::one())? {
            return Ok(false);
        }
        self.upper.end(row, inverse)
    }

    /// Makes a column basic at a row, given the cells that the lower steps so far make of it.
    ///
    /// False where its number in that row has no inverse, or where the factors have too many cells.
    pub(crate) fn pivot(
        &mut self,
        remaining: &Remaining,
        cells: &[Cell],
        row: u32,
        column: u32,
    ) -> Result<bool, NoMemory>
        ensures { vec_len self.new.basis ≡ vec_len self.old.basis }
    {
        let Some(inverse) = inverse_in(cells, row) else {
            return Ok(false);
        };
        if !self.put_others(remaining, cells, row, inverse)? || !self.end_steps(row, inverse)? {
            return Ok(false);
        }
        if let Some(basic) = self.basis.get_mut(row as usize) {
            *basic = column;
        }
        Ok(self.lower.cells().saturating_add(self.upper.cells()) <= MOST_CELLS)
    }
}
