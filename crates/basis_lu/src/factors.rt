ghost use Rattle.std.specs.Prelude.{◌≡◌, slice_index};

use crate::steps::Steps;
use std::marker::Model;

/// Factors of a basis, whose columns each have a pivot row, with the exchanges since.
///
/// Clauses see a factor as the list of its basic columns, by their pivot rows.
#[derive(Drop)]
pub struct Factor {
    pub(crate) basis: Vec<u32>,
    pub(crate) lower: Steps,
    pub(crate) upper: Steps,
    pub(crate) updates: Steps,
}

impl Model for Factor {
    ghost use Rattle.std.specs.Prelude.{ℕ, List};

    ghost Value = { List ℕ };

    ghost view = { λ a. a.basis.items };
}

impl Factor {
    /// The basic column whose pivot row this is, and 0 where there is no such row.
    pub fn column_at(&self, row: u32) -> u32
        ensures basic { result ≡ slice_index self.now row }
    {
        match self.basis.get(row as usize) {
            Some(column) => *column,
            None => 0,
        }
    }

    /// How many exchanges there were since the factors were made.
    pub fn updates(&self) -> u32 {
        u32::try_from(self.updates.len()).unwrap_or(u32::MAX)
    }

    /// How many cells the factors have, not counting the exchanges.
    pub fn cells(&self) -> u32 {
        self.lower.cells().saturating_add(self.upper.cells())
    }

    /// How many cells the exchanges have.
    pub fn update_cells(&self) -> u32 {
        self.updates.cells()
    }
}
