ghost use Rattle.std.specs.Prelude.{◌≡◌, ◌≤◌, All, length};
ghost use Rattle.basis_lu.specs.PackedColumns.{IsInRows, IsRangeOf};

use residues::Residue;
use std::alloc::{AllocError as NoMemory, Global};

/// The most cells that a matrix has.
const MOST_CELLS: usize = 0x100_0000;

/// A number of a column, with its row.
#[derive(Clone, Copy)]
pub struct Cell {
    pub row: u32,
    pub value: Residue,
}

/// Where the cells of a column begin and end among all cells.
#[derive(Clone, Copy)]
struct Span {
    start: usize,
    end: usize,
}

/// A matrix by columns: its own, then a unit column for each row.
///
/// Where there are `n` own columns, `n + i` is the number of the unit column of row `i`, which is
/// not stored. The cells of a column have different rows, in any order.
#[derive(Drop)]
pub struct Matrix {
    rows: u32,
    cells: Vec<Cell>,
    spans: Vec<Span>,
    column_start: usize,
    ghost cells_in: { All (IsInRows rows) cells.items },
    ghost spans_in: { All (IsRangeOf (length cells.items)) spans.items },
    ghost start_in: { column_start ≤ length cells.items },
}

impl Matrix {
    /// The matrix of this many rows without own columns.
    pub fn new(alloc: Global, rows: u32) -> Matrix
        ensures rows { result.rows ≡ rows }
    {
        Matrix {
            rows,
            cells: Vec::new(alloc),
            spans: Vec::new(alloc),
            column_start: 0,
        }
    }

    /// Puts a cell into the column at work. False, with nothing put, where there is no such row or
    /// where the matrix is full.
    pub fn put(&mut self, row: u32, value: Residue) -> Result<bool, NoMemory>
        ensures rows { self.new.rows ≡ self.old.rows }
    {
        if row >= self.rows || self.cells.len() >= MOST_CELLS {
            return Ok(false);
        }
        self.cells.push(Cell { row, value })?;
        Ok(true)
    }

    /// Ends the column at work: the next cell belongs to the next column.
    pub fn end_column(&mut self) -> Result<(), NoMemory>
        ensures rows { self.new.rows ≡ self.old.rows }
    {
        let end = self.cells.len();
        self.spans.push(Span {
            start: self.column_start,
            end,
        })?;
        self.column_start = end;
        Ok(())
    }

    /// Begins the column at work anew, without the cells put since the last column ended.
    pub(crate) fn begin_column(&mut self)
        ensures rows { self.new.rows ≡ self.old.rows }
    {
        self.column_start = self.cells.len();
    }

    pub fn rows(&self) -> u32
        ensures rows { result ≡ self.now.rows }
    {
        self.rows
    }

    /// How many own columns were ended.
    pub fn cols(&self) -> u32 {
        u32::try_from(self.spans.len()).unwrap_or(u32::MAX)
    }

    /// How many cells it has.
    pub(crate) fn cells(&self) -> u32 {
        u32::try_from(self.cells.len()).unwrap_or(u32::MAX)
    }

    /// Whether a cell was put since the last column ended.
    pub(crate) fn is_open(&self) -> bool {
        self.column_start < self.cells.len()
    }

    /// The cells of an own column, and none of any other.
    pub fn column(&self, col: u32) -> &[Cell]
        ensures in_rows { All (IsInRows self.now.rows) result.now }
    {
        match self.spans.get(col as usize) {
            Some(span) => &self.cells[span.start..span.end],
            None => &[],
        }
    }
}
