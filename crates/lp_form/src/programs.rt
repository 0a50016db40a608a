ghost use Rattle.std.specs.Prelude.{◌≡◌, ◌≢◌, ◌⊎◌, ℕ, ◌+◌, ◌^◌, ◌<◌, ◌≤◌, List, [], length, pos, ◌≤ℤ◌, slice_set, replicate, OnErr, OnOk, IfOk};
ghost use Rattle.lp_form.specs.Program.{IsLp, LpView, coefficient, right_of, payoff_of, payoff_row, with_payoff_row, entries_of, blank, joined};
ghost use Rattle.lp_form.specs.Small.{IsSmall};
ghost use Rattle.lp_form.specs.Solutions.{HasBoundedPayoffs, PaysAlike, SolvesToo};
ghost use Rattle.lp_form.specs.declared.entries.Entry.{Entry};
ghost use Rattle.corr_game.specs.declared.sides.Side.{Side};

use crate::entries::{Entry, SparseRow};
use corr_game::Side;
use std::alloc::{AllocError as NoMemory, Global};
use std::marker::Model;

/// A linear program with whole coefficients and two payoff rows: to find numbers of 0 or more, one per column, whose
/// product with each row is that row's right side.
#[derive(Debug, Drop)]
pub struct Lp {
    cols: u32,
    rows: Vec<SparseRow>,
    rights: Vec<i64>,
    first: SparseRow,
    second: SparseRow,
}

impl Model for Lp {
    ghost use Rattle.lp_form.specs.Program.{LpView, IsLp};

    ghost Value = { LpView };

    ghost view = { λ a. record {
      cols = a.cols;
      rows = a.rows.items;
      rights = a.rights.items;
      first = a.first;
      second = a.second;
    } };

    ghost invariant = { λ a. IsLp record {
      cols = a.cols;
      rows = a.rows.items;
      rights = a.rights.items;
      first = a.first;
      second = a.second;
    } };
}

fn empty_rows(alloc: Global, count: u32) -> Result<Vec<SparseRow>, NoMemory>
    ensures { IfOk result (λ rows. let none : List Entry = [] in rows.items ≡ replicate count none) }
{
    let mut rows = Vec::new(alloc);
    for _ in 0..count {
        rows.push(SparseRow::new(alloc))?;
    }
    Ok(rows)
}

impl Lp {
    /// The program of this size with 0 at each place, at each right side and in both payoff rows.
    pub fn new(alloc: Global, rows: u32, cols: u32) -> Result<Lp, NoMemory>
        requires few_rows { rows ≤ 2 ^ 24 }
        requires few_columns { cols ≤ 2 ^ 24 }
        ensures all_0 { IfOk result (λ lp. lp ≡ blank rows cols) }
    {
        Ok(Lp {
            cols,
            rows: empty_rows(alloc, rows)?,
            rights: vec![in alloc; 0; rows as usize]?,
            first: SparseRow::new(alloc),
            second: SparseRow::new(alloc),
        })
    }

    /// The number of rows.
    pub fn rows(&self) -> u32
        ensures count { result ≡ length self.now.rows }
        ensures rules { IsLp self.now }
    {
        self.rows.len() as u32
    }

    /// The number of columns.
    pub fn cols(&self) -> u32
        ensures count { result ≡ self.now.cols }
        ensures rules { IsLp self.now }
    {
        self.cols
    }

    pub fn coef(&self, row: u32, col: u32) -> i64
        requires { row < length self.now.rows }
        ensures value { result ≡ coefficient self.now row col }
    {
        self.rows[row as usize].at(col)
    }

    pub fn right(&self, row: u32) -> i64
        requires { row < length self.now.rows }
        ensures value { result ≡ right_of self.now row }
        ensures not_negative { pos 0 ≤ℤ result }
    {
        self.rights[row as usize]
    }

    pub fn payoff(&self, side: Side, col: u32) -> i64
        ensures value { result ≡ payoff_of side self.now col }
    {
        match side {
            Side::One => self.first.at(col),
            Side::Two => self.second.at(col),
        }
    }

    /// The stored entries of a row, in ascending order of their columns. A column that isn't among them has 0.
    pub fn row(&self, row: u32) -> &[Entry]
        requires { row < length self.now.rows }
        ensures entries { result.now ≡ entries_of self.now row }
        ensures rules { IsLp self.now }
    {
        self.rows[row as usize].entries()
    }

    /// The stored entries of a player's payoff row, as those of `row`.
    pub fn payoffs(&self, side: Side) -> &[Entry]
        ensures entries { result.now ≡ payoff_row side self.now }
        ensures rules { IsLp self.now }
    {
        match side {
            Side::One => self.first.entries(),
            Side::Two => self.second.entries(),
        }
    }

    /// Puts the value at this place, over what stood there.
    pub fn set(&mut self, row: u32, col: u32, value: i64) -> Result<(), NoMemory>
        requires in_rows { row < length self.old.rows }
        requires in_columns { col < self.old.cols }
        ensures placed { OnOk result (coefficient self.new row col ≡ value) }
        ensures others { OnOk result ((r k : ℕ) → (r ≢ row) ⊎ (k ≢ col) → coefficient self.new r k ≡ coefficient self.old r k) }
        ensures rows_alone { self.new ≡ record self.old { rows = self.new.rows } }
        ensures as_many { length self.new.rows ≡ length self.old.rows }
        ensures err { OnErr result (self.new ≡ self.old) }
    {
        self.rows[row as usize].set(col, value)
    }

    pub fn set_right(&mut self, row: u32, value: i64)
        requires in_rows { row < length self.old.rows }
        requires not_negative { pos 0 ≤ℤ value }
        ensures right_alone { self.new ≡ record self.old { rights = slice_set self.old.rights row value } }
    {
        self.rights[row as usize] = value;
    }

    /// Puts the value into this column of a player's payoff row.
    pub fn set_payoff(&mut self, side: Side, col: u32, value: i64) -> Result<(), NoMemory>
        requires { col < self.old.cols }
        ensures placed { OnOk result (payoff_of side self.new col ≡ value) }
        ensures others { OnOk result ((k : ℕ) → k ≢ col → payoff_of side self.new k ≡ payoff_of side self.old k) }
        ensures that_row_alone { self.new ≡ with_payoff_row side self.old (payoff_row side self.new) }
        ensures err { OnErr result (self.new ≡ self.old) }
    {
        match side {
            Side::One => self.first.set(col, value),
            Side::Two => self.second.set(col, value),
        }
    }

    /// The rows of `base`, then those of `more`, which has columns enough for both.
    pub fn join(base: Lp, more: Lp) -> Result<Lp, NoMemory>
        requires columns { base.cols ≤ more.cols }
        requires rights { (r : ℕ) → right_of more r ≡ pos 0 }
        requires payoffs { (side : Side) (k : ℕ) → payoff_of side more k ≡ pos 0 }
        requires few_rows { length base.rows + length more.rows ≤ 2 ^ 24 }
        ensures both { IfOk result (λ lp. lp ≡ joined base more) }
        ensures solutions { IfOk result (λ lp. SolvesToo lp base) }
        ensures payoffs { IfOk result (λ lp. PaysAlike lp base) }
        ensures bounded { HasBoundedPayoffs base → IfOk result (λ lp. HasBoundedPayoffs lp) }
        ensures small { IsSmall base → IsSmall more → IfOk result (λ lp. IsSmall lp) }
    {
        let Lp {
            cols: _,
            mut rows,
            mut rights,
            first,
            second,
        } = base;
        let Lp {
            cols,
            rows: mut more_rows,
            rights: mut more_rights,
            first: _,
            second: _,
        } = more;
        rows.append(&mut more_rows)?;
        rights.append(&mut more_rights)?;
        Ok(Lp {
            cols,
            rows,
            rights,
            first,
            second,
        })
    }
}
