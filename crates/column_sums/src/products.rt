// Sums of products, which stay far within 128 bits.
ghost use Rattle.std.specs.Prelude.{◌≡◌, ◌+◌, ◌*◌, ◌^◌, ◌<◌, ◌≤◌, ◌+ℤ◌, ◌*ℤ◌, unsigned_abs};
ghost use Rattle.corr_num.specs.Narrow.{Narrow};

use corr_num::{product, sum};

/// A sum and one more product.
pub fn plus_product(total: i128, factor: i128, number: i128) -> i128
    requires before { unsigned_abs total ≤ 2 ^ 125 }
    requires factor { Narrow factor }
    requires number { unsigned_abs number ≤ 2 ^ 62 }
    ensures value { result ≡ total +ℤ factor *ℤ number }
    ensures bound { unsigned_abs result ≤ unsigned_abs total + 2 ^ 62 * unsigned_abs number }
{
    sum(total, product(factor, number))
}
