// Rows of entries, and what a pivot makes of one.
ghost use Rattle.std.specs.Prelude.{◌≡◌, ◌≢◌, ℕ, ◌<◌, ℤ, pos, ◌*ℤ◌, ◌-ℤ◌, ◌<ℤ◌, [], length, slice_index_or, MatchOption, All, IfSome, neg_ℤ};
ghost use Rattle.corr_num.specs.Narrow.{Narrow, Wide};
ghost use Rattle.corr_num.specs.Quotient.{IsQuotient};
ghost use Rattle.int_tableau.specs.Elimination.{IsRow, at, IsEliminated, IsWideIn};
ghost use Rattle.exact_linear.specs.Pivot.{turned};

use corr_num::pivot_entry;
use std::alloc::Global;
use std::marker::Model;

/// The entries of one row.
#[derive(Debug, Drop)]
pub(crate) struct Row {
    entries: Vec<i64>,
}

impl Model for Row {
    ghost use Rattle.std.specs.Prelude.{ℤ, List};

    ghost Value = { List ℤ };

    ghost view = { λ a. a.entries.items };
}

/// The entry `a` of a row after a pivot, where it is narrow: `b` is the row's entry in the pivot's column, `c` and `p` those
/// of the pivot's row in the column of `a` and in its own.
fn pivoted(a: i64, p: i64, b: i64, c: i64, d: i64) -> Option<i64>
    requires a_narrow { Narrow a }
    requires p_narrow { Narrow p }
    requires b_narrow { Narrow b }
    requires c_narrow { Narrow c }
    requires positive { pos 0 <ℤ d }
    requires d_narrow { Narrow d }
    ensures exact { (q : ℤ) → IsQuotient (a *ℤ p -ℤ b *ℤ c) d q → MatchOption result (Wide q) (λ x. x ≡ q) }
    ensures narrow { IfSome result Narrow }
{
    if a == 0 && c == 0 {
        return Some(0);
    }
    match pivot_entry(
        i128::from(a),
        i128::from(p),
        i128::from(b),
        i128::from(c),
        i128::from(d),
    ) {
        Some(entry) => Some(entry as i64),
        None => None,
    }
}

/// Puts the row after a pivot into its place, or answers the first column in which it is wide.
fn eliminate(entries: &mut [i64], chosen: &[i64], col: usize, denom: i64) -> Option<usize>
    requires column { col < length chosen.now }
    requires row { IsRow (length chosen.now) entries.old }
    requires pivot_row { IsRow (length chosen.now) chosen.now }
    requires positive { pos 0 <ℤ denom }
    requires narrow { Narrow denom }
    ensures { MatchOption result (IsEliminated entries.old chosen.now col denom entries.new) (IsWideIn entries.old chosen.now col denom) }
{
    let (p, b) = (chosen[col], entries[col]);
    if b == 0 && p == denom {
        return None;
    }
    for k in 0..entries.len() {
        match pivoted(entries[k], p, b, chosen[k], denom) {
            Some(entry) => entries[k] = entry,
            None => return Some(k),
        }
    }
    None
}

/// Turns each sign.
fn turn(entries: &mut [i64])
    requires { All Narrow entries.old }
    ensures { (k : ℕ) → k < length entries.old → at entries.new k ≡ neg_ℤ (at entries.old k) }
{
    for entry in entries.iter_mut() {
        *entry = -*entry;
    }
}

impl Row {
    pub(crate) fn new(alloc: Global) -> Row
        ensures { result ≡ [] }
    {
        Row {
            entries: Vec::new(alloc),
        }
    }

    pub(crate) fn of(entries: Vec<i64>) -> Row
        ensures { result ≡ entries.items }
    {
        Row { entries }
    }

    pub(crate) fn at(&self, col: usize) -> i64
        requires { col < length self.now }
        ensures { result ≡ at self.now col }
    {
        self.entries[col]
    }

    /// Turns the row's signs where the entry in this column is negative.
    pub(crate) fn make_positive(&mut self, col: usize)
        requires column { col < length self.old }
        requires narrow { All Narrow self.old }
        ensures width { length self.new ≡ length self.old }
        ensures turned { (k : ℕ) → k < length self.old → at self.new k ≡ turned (at self.old col) (at self.old k) }
    {
        if self.entries[col] < 0 {
            turn(&mut self.entries);
        }
    }

    /// Puts the row after a pivot into its place, or answers the first column in which it is wide.
    pub(crate) fn eliminate(&mut self, chosen: &Row, col: usize, denom: i64) -> Option<usize>
        requires column { col < length chosen.now }
        requires row { IsRow (length chosen.now) self.old }
        requires pivot_row { IsRow (length chosen.now) chosen.now }
        requires positive { pos 0 <ℤ denom }
        requires narrow { Narrow denom }
        ensures { MatchOption result (IsEliminated self.old chosen.now col denom self.new) (IsWideIn self.old chosen.now col denom) }
    {
        eliminate(&mut self.entries, &chosen.entries, col, denom)
    }
}
