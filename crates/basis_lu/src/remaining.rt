// What is left of the candidates while pivots are chosen.
ghost use Rattle.std.specs.Prelude.{◌<◌, IfSome};

use crate::counts::{is_set, lowered, number_at, ones, put_number, set};
use crate::matrices::{Cell, Matrix};
use std::alloc::{AllocError as NoMemory, Global};

/// A column with a cell in a row, and the number of the row's next link.
///
/// Links are counted from 1, and 0 means none.
#[derive(Clone, Copy)]
struct Link {
    column: u32,
    next: u32,
}

/// A row and a candidate.
#[derive(Clone, Copy)]
pub(crate) struct Place {
    pub row: u32,
    pub candidate: u32,
}

/// The candidates that aren't taken and the rows without a pivot, with the number of cells left in
/// each.
#[derive(Drop)]
pub(crate) struct Remaining {
    in_columns: Vec<u32>,
    in_rows: Vec<u32>,
    taken: Vec<bool>,
    done: Vec<bool>,
    first_links: Vec<u32>,
    links: Vec<Link>,
    single_columns: Vec<u32>,
    single_rows: Vec<u32>,
}

impl Remaining {
    fn new(alloc: Global, rows: u32, columns: u32) -> Result<Remaining, NoMemory> {
        Ok(Remaining {
            in_columns: vec![in alloc; 0u32; columns as usize]?,
            in_rows: vec![in alloc; 0u32; rows as usize]?,
            taken: vec![in alloc; false; columns as usize]?,
            done: vec![in alloc; false; rows as usize]?,
            first_links: vec![in alloc; 0u32; rows as usize]?,
            links: Vec::new(alloc),
            single_columns: Vec::new(alloc),
            single_rows: Vec::new(alloc),
        })
    }

    fn add_cell(&mut self, row: u32, column: u32) -> Result<(), NoMemory> {
        let count = number_at(&self.in_columns, column).saturating_add(1);
        put_number(&mut self.in_columns, column, count);
        let count = number_at(&self.in_rows, row).saturating_add(1);
        put_number(&mut self.in_rows, row, count);
        let next = number_at(&self.first_links, row);
        self.links.push(Link { column, next })?;
        let link = u32::try_from(self.links.len()).unwrap_or(u32::MAX);
        put_number(&mut self.first_links, row, link);
        Ok(())
    }

    fn add_column(&mut self, column: u32, cells: &[Cell]) -> Result<(), NoMemory> {
        for cell in cells {
            self.add_cell(cell.row, column)?;
        }
        Ok(())
    }

    /// Nothing taken and no row done.
    pub(crate) fn of(alloc: Global, columns: &Matrix) -> Result<Remaining, NoMemory> {
        let mut remaining = Remaining::new(alloc, columns.rows(), columns.cols())?;
        for column in 0..columns.cols() {
            remaining.add_column(column, columns.column(column))?;
        }
        remaining.single_columns = ones(alloc, &remaining.in_columns)?;
        remaining.single_rows = ones(alloc, &remaining.in_rows)?;
        Ok(remaining)
    }

    pub(crate) fn is_done(&self, row: u32) -> bool {
        is_set(&self.done, row)
    }

    pub(crate) fn is_taken(&self, candidate: u32) -> bool {
        is_set(&self.taken, candidate)
    }

    /// How many of the column's cells are in rows without pivot.
    pub(crate) fn left_in_column(&self, candidate: u32) -> u32 {
        number_at(&self.in_columns, candidate)
    }

    /// How many cells of the row are in columns that aren't taken.
    pub(crate) fn left_in_row(&self, row: u32) -> u32 {
        number_at(&self.in_rows, row)
    }

    pub(crate) fn finish_row(&mut self, row: u32) {
        set(&mut self.done, row);
    }

    /// The link with this number. Its next one has a smaller number.
    fn link(&self, number: u32) -> Option<Link>
        ensures { IfSome result (λ link. link.next < number) }
    {
        if number == 0 {
            return None;
        }
        match self.links.get(number as usize - 1) {
            Some(link) if link.next < number => Some(*link),
            _ => None,
        }
    }

    fn lower_column(&mut self, column: u32) -> Result<(), NoMemory> {
        if lowered(&mut self.in_columns, column) == 1 && !self.is_taken(column) {
            self.single_columns.push(column)?;
        }
        Ok(())
    }

    fn lower_row(&mut self, row: u32) -> Result<(), NoMemory> {
        if lowered(&mut self.in_rows, row) == 1 && !self.is_done(row) {
            self.single_rows.push(row)?;
        }
        Ok(())
    }

    fn lower_columns_of(&mut self, row: u32) -> Result<(), NoMemory> {
        let mut number = number_at(&self.first_links, row);
        while let Some(link) = self.link(number) {
            self.lower_column(link.column)?;
            number = link.next;
        }
        Ok(())
    }

    /// Takes a column with these cells, whose pivot is in this row.
    pub(crate) fn take(&mut self, place: Place, cells: &[Cell]) -> Result<(), NoMemory> {
        set(&mut self.taken, place.candidate);
        set(&mut self.done, place.row);
        for cell in cells {
            self.lower_row(cell.row)?;
        }
        self.lower_columns_of(place.row)
    }

    /// A column that isn't taken and has a cell in the row.
    fn column_left(&self, row: u32) -> Option<u32> {
        let mut number = number_at(&self.first_links, row);
        while let Some(link) = self.link(number) {
            if !self.is_taken(link.column) {
                return Some(link.column);
            }
            number = link.next;
        }
        None
    }

    /// The row of a cell that has no pivot.
    fn row_left(&self, cells: &[Cell]) -> Option<u32> {
        for cell in cells {
            if !self.is_done(cell.row) {
                return Some(cell.row);
            }
        }
        None
    }

    fn single_column(&mut self, columns: &Matrix) -> Option<Place> {
        while let Some(candidate) = self.single_columns.pop() {
            if self.left_in_column(candidate) == 1 && !self.is_taken(candidate) {
                if let Some(row) = self.row_left(columns.column(candidate)) {
                    return Some(Place { row, candidate });
                }
            }
        }
        None
    }

    fn single_row(&mut self) -> Option<Place> {
        while let Some(row) = self.single_rows.pop() {
            if self.left_in_row(row) == 1 && !self.is_done(row) {
                if let Some(candidate) = self.column_left(row) {
                    return Some(Place { row, candidate });
                }
            }
        }
        None
    }

    /// The next cell that is the only one left in its column, or else in its row.
    pub(crate) fn singleton(&mut self, columns: &Matrix) -> Option<Place> {
        match self.single_column(columns) {
            Some(place) => Some(place),
            None => self.single_row(),
        }
    }
}
