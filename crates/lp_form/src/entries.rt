ghost use Rattle.std.specs.Prelude.{◌≡◌, ◌≢◌, ℕ, ◌^◌, ◌<◌, ◌≤◌, [], OnErr, OnOk};
ghost use Rattle.lp_form.specs.Row.{value_at, IsRow, Finds};

use std::alloc::{AllocError as NoMemory, Global};
use std::marker::Model;

/// A stored coefficient of a row, and the column that it stands in.
#[derive(Clone, Copy, Debug, PartialEq, Eq)]
pub struct Entry {
    pub col: u32,
    pub value: i64,
}

/// The stored entries of one row, in ascending order of their columns.
#[derive(Debug, Drop)]
pub(crate) struct SparseRow {
    entries: Vec<Entry>,
}

impl Model for SparseRow {
    ghost use Rattle.std.specs.Prelude.{List};
    ghost use Rattle.lp_form.specs.declared.entries.Entry.{Entry};

    ghost Value = { List Entry };

    ghost view = { λ a. a.entries.items };
}

/// Where a column's entry is stored, or where it would have to be put, by halving.
fn find(entries: &[Entry], col: u32) -> Result<usize, usize>
    ensures { (cols : ℕ) → IsRow cols entries.now → Finds entries.now col result }
{
    let mut low = 0;
    let mut high = entries.len();
    while low < high {
        let middle = low + (high - low) / 2;
        if entries[middle].col < col {
            low = middle + 1;
        } else {
            high = middle;
        }
    }
    if low < entries.len() && entries[low].col == col {
        Ok(low)
    } else {
        Err(low)
    }
}

fn stored_or_0(entries: &[Entry], col: u32) -> i64
    requires { (cols : ℕ) × (cols ≤ 2 ^ 24) × IsRow cols entries.now }
    ensures { result ≡ value_at entries.now col }
{
    match find(entries, col) {
        Ok(at) => entries[at].value,
        Err(_) => 0,
    }
}

impl SparseRow {
    pub(crate) fn new(alloc: Global) -> SparseRow
        ensures empty { result ≡ [] }
    {
        SparseRow {
            entries: Vec::new(alloc),
        }
    }

    pub(crate) fn entries(&self) -> &[Entry]
        ensures all { result.now ≡ self.now }
    {
        &self.entries
    }

    /// The value stored in this column, or 0.
    pub(crate) fn at(&self, col: u32) -> i64
        requires { (cols : ℕ) × (cols ≤ 2 ^ 24) × IsRow cols self.now }
        ensures value { result ≡ value_at self.now col }
    {
        stored_or_0(&self.entries, col)
    }

    pub(crate) fn set(&mut self, col: u32, value: i64) -> Result<(), NoMemory>
        requires { (cols : ℕ) × (col < cols) × IsRow cols self.old }
        ensures row { OnOk result ((cols : ℕ) → col < cols → IsRow cols self.old → IsRow cols self.new) }
        ensures placed { OnOk result (value_at self.new col ≡ value) }
        ensures others { OnOk result ((k : ℕ) → k ≢ col → value_at self.new k ≡ value_at self.old k) }
        ensures err { OnErr result (self.new ≡ self.old) }
    {
        match find(&self.entries, col) {
            Ok(at) => self.entries[at] = Entry { col, value },
            Err(at) => self.entries.insert(at, Entry { col, value })?,
        }
        Ok(())
    }
}
