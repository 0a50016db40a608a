// The products of multipliers with the columns of one program.
ghost use Rattle.std.specs.Prelude.{◌≡◌, ℕ, ◌^◌, ◌≤◌, pos, All, IfOk, length, slice_index_or};
ghost use Rattle.corr_num.specs.Narrow.{Narrow};
ghost use Rattle.lp_form.specs.Certificates.{times_column};
ghost use Rattle.lp_form.specs.Small.{IsSmall};
ghost use Rattle.column_sums.specs.Bounds.{AreWithin};

use crate::rows::add_rows;
use lp_form::{Lp, NumList};
use std::alloc::{AllocError as NoMemory, Global};

/// The product of the multipliers with each column of a small program, row by row.
pub fn column_products(alloc: Global, lp: &Lp, list: &NumList) -> Result<Vec<i128>, NoMemory>
    requires small { IsSmall lp.now }
    requires few { length lp.now.rows ≤ 2048 }
    requires per_row { length list.now ≡ length lp.now.rows }
    requires narrow { All Narrow list.now }
    ensures count { IfOk result (λ sums. length sums.items ≡ lp.now.cols) }
    ensures bound { IfOk result (λ sums. AreWithin (2 ^ 124) sums.items) }
    ensures products { IfOk result (λ sums. (k : ℕ)
        → slice_index_or sums.items k (pos 0) ≡ times_column lp.now list.now k) }
{
    let mut sums: Vec<i128> = vec![in alloc; 0; lp.cols() as usize]?;
    add_rows(lp, list, 0, &mut sums);
    Ok(sums)
}
