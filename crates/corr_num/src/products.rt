ghost use Rattle.std.specs.List.{All};
ghost use Rattle.std.specs.Prelude.{◌≡◌, ◌↔◌, ◌*◌, ◌^◌, ◌≤◌, ◌*ℤ◌, length, unsigned_abs};
ghost use Rattle.std.specs.Ordering.{int_cmp};
ghost use Rattle.exact_algebra.specs.Sums.{dot};
ghost use Rattle.corr_num.specs.Narrow.{Narrow, Wide};

use crate::integers::{product, sum};
use crate::magnitudes::narrowed;
use std::cmp::Ordering;

/// The order of `a*b` against `c*d`.
pub fn cmp_products(a: i128, b: i128, c: i128, d: i128) -> Ordering
    requires a_narrow { Narrow a }
    requires b_narrow { Narrow b }
    requires c_narrow { Narrow c }
    requires d_narrow { Narrow d }
    ensures { result ≡ int_cmp (a *ℤ b) (c *ℤ d) }
{
    product(a, b).cmp(&product(c, d))
}

/// The dot product of multipliers and a column of a program, where it is narrow.
///
/// The column may be longer the smaller its numbers are, so that no partial sum passes 128 bits.
pub fn dot(ys: &[i128], xs: &[i64]) -> Option<i128>
    requires same_length { length ys.now ≡ length xs.now }
    requires ys_narrow { All Narrow ys.now }
    requires xs_bound { All (λ x. length xs.now * unsigned_abs x ≤ 2 ^ 64) xs.now }
    ensures exact { Narrow (dot ys.now xs.now) → result ≡ Some (dot ys.now xs.now) }
    ensures wide { (result ≡ None) ↔ Wide (dot ys.now xs.now) }
{
    let mut total = 0;
    for (y, x) in ys.iter().zip(xs) {
        total = sum(total, product(*y, i128::from(*x)));
    }
    narrowed(total)
}
