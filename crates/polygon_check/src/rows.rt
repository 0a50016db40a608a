// The product of a row with the numbers of its columns.
ghost use Rattle.std.specs.Prelude.{◌≡◌, ℕ, ◌^◌, ◌<◌, ◌≤◌, ◌*ℤ◌, ◌+ℤ◌, pos, All, length, slice_index_or, unsigned_abs};
ghost use Rattle.corr_num.specs.Narrow.{Narrow};
ghost use Rattle.exact_algebra.specs.Sums.{sum_to};
ghost use Rattle.lp_form.specs.Row.{IsRow, value_at};
ghost use Rattle.polygon_sweep.specs.Swept.{number_in};
ghost use Rattle.polygon_check.specs.SmallRow.{IsSmallRow};

use corr_num::{product, sum};
use lp_form::{Entry, NumList};

/// A sum and one more product. It is passed over where the number is 0, as most of a corner are.
fn with_term(total: i128, coefficient: i64, number: i128) -> i128
    requires total { unsigned_abs total < 2 ^ 126 }
    requires number { Narrow number }
    ensures { result ≡ total +ℤ coefficient *ℤ number }
{
    if number == 0 {
        return total;
    }
    sum(total, product(i128::from(coefficient), number))
}

/// The sum of a row's coefficients times the numbers of their columns.
pub fn row_product(entries: &[Entry], values: &NumList) -> i128
    requires row { (cols : ℕ) × (cols ≤ 8192) × (cols ≤ length values.now)
        × IsRow cols entries.now }
    requires small { IsSmallRow entries.now }
    requires narrow { All Narrow values.now }
    ensures bound { unsigned_abs result < 2 ^ 126 }
    ensures product { (cols : ℕ) → IsRow cols entries.now
        → result ≡ sum_to cols (λ col. value_at entries.now col *ℤ number_in values.now col) }
{
    let mut total = 0;
    for entry in entries {
        total = with_term(total, entry.value, *values.at(entry.col as usize));
    }
    total
}
