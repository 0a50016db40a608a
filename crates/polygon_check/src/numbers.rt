// Tests of single numbers and of lists of them.
ghost use Rattle.std.specs.Prelude.{◌≡◌, ◌↔◌, pos, ◌+ℤ◌, ◌*ℤ◌, ◌≤ℤ◌, All, IsTrue};
ghost use Rattle.corr_num.specs.Narrow.{Narrow};

use corr_num::{narrow, product, sum};
use lp_form::NumList;
use plane_hull::Dir;

/// Whether each number is narrow.
pub fn all_narrow(list: &NumList) -> bool
    ensures { IsTrue result ↔ All Narrow list.now }
{
    for k in 0..list.len() {
        if !narrow(*list.at(k)) {
            return false;
        }
    }
    true
}

/// Whether no number is below 0.
pub fn none_negative(list: &NumList) -> bool
    ensures { IsTrue result ↔ All (λ value. pos 0 ≤ℤ value) list.now }
{
    for k in 0..list.len() {
        if *list.at(k) < 0 {
            return false;
        }
    }
    true
}

/// Whether two products are equal.
pub fn are_equal(a: i128, b: i128, c: i128, d: i128) -> bool
    requires a_narrow { Narrow a }
    requires b_narrow { Narrow b }
    requires c_narrow { Narrow c }
    requires d_narrow { Narrow d }
    ensures { IsTrue result ↔ (a *ℤ b ≡ c *ℤ d) }
{
    product(a, b) == product(c, d)
}

/// What is left of a column for both players, weighed with the direction.
pub fn weighed(dir: &Dir, one: i128, two: i128) -> i128
    requires one { Narrow one }
    requires two { Narrow two }
    ensures { result ≡ dir.now.a *ℤ one +ℤ dir.now.b *ℤ two }
{
    sum(product(dir.a, one), product(dir.b, two))
}
