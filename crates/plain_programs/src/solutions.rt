// Whether numbers solve a linear program, row by row.
ghost use Rattle.std.specs.Prelude.{◌≡◌, ◌↔◌, ℕ, ◌^◌, ◌<◌, ◌≤◌, pos, ◌*ℤ◌, ◌≤ℤ◌, length, slice_index_or, unsigned_abs, All, IsTrue};
ghost use Rattle.exact_algebra.specs.Sums.{sum_to};
ghost use Rattle.corr_num.specs.Narrow.{Narrow};
ghost use Rattle.lp_form.specs.Program.{coefficient, right_of};
ghost use Rattle.lp_form.specs.Small.{IsSmall};
ghost use Rattle.lp_form.specs.Solutions.{IsSolution};

use corr_num::{product, sum};
use lp_form::{Lp, NumList};

/// Whether these numbers, one a column, are a solution of the program over this total.
///
/// Their product with a row of so many small coefficients is computed whole.
pub fn is_solution(lp: &Lp, total: i128, numbers: &NumList) -> bool
    requires per_column { length numbers.now ≡ lp.now.cols }
    requires few { lp.now.cols ≤ 8192 }
    requires small { IsSmall lp.now }
    requires narrow { All Narrow numbers.now }
    requires narrow_total { Narrow total }
    ensures { IsTrue result ↔ IsSolution lp.now total (λ col. slice_index_or numbers.now col (pos 0)) }
{
    none_below_0(numbers) && meets_rows(lp, total, numbers)
}

fn none_below_0(numbers: &NumList) -> bool
    ensures { IsTrue result ↔ ((k : ℕ) → k < length numbers.now → pos 0 ≤ℤ slice_index_or numbers.now k (pos 0)) }
{
    for k in 0..numbers.len() {
        if *numbers.at(k) < 0 {
            return false;
        }
    }
    true
}

/// Whether each row's product with the numbers is the total times its right side.
fn meets_rows(lp: &Lp, total: i128, numbers: &NumList) -> bool
    requires per_column { length numbers.now ≡ lp.now.cols }
    requires few { lp.now.cols ≤ 8192 }
    requires small { IsSmall lp.now }
    requires narrow { All Narrow numbers.now }
    requires narrow_total { Narrow total }
    ensures { IsTrue result ↔ ((row : ℕ) → row < length lp.now.rows
        → sum_to lp.now.cols (λ col. coefficient lp.now row col *ℤ slice_index_or numbers.now col (pos 0)) ≡ total *ℤ right_of lp.now row) }
{
    for row in 0..lp.rows() {
        if row_product(lp, row, numbers) != wanted(lp, total, row) {
            return false;
        }
    }
    true
}

/// The total times a row's right side.
fn wanted(lp: &Lp, total: i128, row: u32) -> i128
    requires in_rows { row < length lp.now.rows }
    requires narrow_total { Narrow total }
    ensures { result ≡ total *ℤ right_of lp.now row }
{
    product(total, i128::from(lp.right(row)))
}

/// The product of a row with the numbers.
fn row_product(lp: &Lp, row: u32, numbers: &NumList) -> i128
    requires in_rows { row < length lp.now.rows }
    requires per_column { length numbers.now ≡ lp.now.cols }
    requires few { lp.now.cols ≤ 8192 }
    requires small { IsSmall lp.now }
    requires narrow { All Narrow numbers.now }
    ensures { result ≡ sum_to lp.now.cols (λ col. coefficient lp.now row col *ℤ slice_index_or numbers.now col (pos 0)) }
{
    let mut total = 0;
    for col in 0..lp.cols() {
        total = sum(total, term(lp, row, col, numbers));
    }
    total
}

/// A coefficient times its column's number.
fn term(lp: &Lp, row: u32, col: u32, numbers: &NumList) -> i128
    requires in_rows { row < length lp.now.rows }
    requires in_columns { col < length numbers.now }
    requires small { IsSmall lp.now }
    requires narrow { All Narrow numbers.now }
    ensures value { result ≡ coefficient lp.now row col *ℤ slice_index_or numbers.now col (pos 0) }
    ensures bound { unsigned_abs result ≤ 2 ^ 113 }
{
    product(i128::from(lp.coef(row, col)), *numbers.at(col as usize))
}
