// The products of multipliers with the columns of a program.
ghost use Rattle.std.specs.Prelude.{◌≡◌, ℕ, ◌+◌, ◌^◌, pos, All, IfOk, length, slice_index_or};
ghost use Rattle.corr_num.specs.Narrow.{Narrow};
ghost use Rattle.lp_form.specs.Certificates.{times_column};
ghost use Rattle.column_sums.specs.Bounds.{AreWithin};
ghost use Rattle.cert_check.specs.Bounds.{IsBounded};
ghost use Rattle.cert_check.specs.Certified.{whole_of};

use crate::programs::Program;
use column_sums::add_rows;
use lp_form::NumList;
use std::alloc::{AllocError as NoMemory, Global};

/// The product of the multipliers with each column of a program, row by row.
pub fn column_products(
    alloc: Global,
    program: &Program,
    list: &NumList,
) -> Result<Vec<i128>, NoMemory>
    requires bounded { IsBounded program.now }
    requires per_row { length list.now ≡ length program.now.base.rows + length program.now.more.rows }
    requires narrow { All Narrow list.now }
    ensures count { IfOk result (λ sums. length sums.items ≡ program.now.more.cols) }
    ensures bound { IfOk result (λ sums. AreWithin (2 ^ 116) sums.items) }
    ensures products { IfOk result (λ sums. (k : ℕ) → slice_index_or sums.items k (pos 0) ≡ times_column (whole_of program.now) list.now k) }
{
    let mut sums: Vec<i128> = vec![in alloc; 0; program.more.cols() as usize]?;
    add_rows(&program.base, list, 0, &mut sums);
    add_rows(&program.more, list, program.base.rows() as usize, &mut sums);
    Ok(sums)
}
