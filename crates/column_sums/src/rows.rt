// Multiples of a program's rows, added to the sums of its columns.
ghost use Rattle.std.specs.Prelude.{◌≡◌, ℕ, ◌+◌, ◌*◌, ◌^◌, ◌≤◌, pos, ◌+ℤ◌, ◌*ℤ◌, All, length, slice_index_or};
ghost use Rattle.corr_num.specs.Narrow.{Narrow};
ghost use Rattle.lp_form.specs.Row.{IsRow, value_at};
ghost use Rattle.column_sums.specs.Bounds.{AreSteps, AreWithin, IsStep};
ghost use Rattle.column_sums.specs.Products.{product_to};

use crate::products::plus_product;
use lp_form::{Entry, Lp, NumList};

/// Adds the products with the rows of one part, whose multipliers stand from `first` on.
pub fn add_rows(lp: &Lp, list: &NumList, first: usize, sums: &mut Vec<i128>)
    requires multipliers { first + length lp.now.rows ≤ length list.now }
    requires narrow { All Narrow list.now }
    requires few { first ≤ 2 ^ 24 }
    requires columns { lp.now.cols ≤ length sums.old.items }
    requires room { (limit step : ℕ) × AreWithin limit sums.old.items × AreSteps step lp.now × (limit + length lp.now.rows * step ≤ 2 ^ 124) }
    ensures count { length sums.new.items ≡ length sums.old.items }
    ensures value { (k : ℕ) → slice_index_or sums.new.items k (pos 0) ≡ slice_index_or sums.old.items k (pos 0) +ℤ product_to (length lp.now.rows) list.now first lp.now k }
{
    for row in 0..lp.rows() {
        add_row(lp.row(row), *list.at(first + row as usize), sums);
    }
}

/// Adds a multiple of one row.
pub fn add_row(entries: &[Entry], factor: i128, sums: &mut Vec<i128>)
    requires row { (cols : ℕ) × (cols ≤ length sums.old.items) × IsRow cols entries.now }
    requires factor { Narrow factor }
    requires room { (limit step : ℕ) × AreWithin limit sums.old.items × IsStep step entries.now × (limit + step ≤ 2 ^ 124) }
    ensures count { length sums.new.items ≡ length sums.old.items }
    ensures value { (k : ℕ) → slice_index_or sums.new.items k (pos 0) ≡ slice_index_or sums.old.items k (pos 0) +ℤ factor *ℤ value_at entries.now k }
{
    for entry in entries {
        let at = entry.col as usize;
        sums[at] = plus_product(sums[at], factor, i128::from(entry.value));
    }
}
