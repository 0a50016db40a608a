ghost use Rattle.std.specs.Prelude.{◌≡◌, ◌↔◌, ℤ, pos, ◌*ℤ◌, ◌-ℤ◌, ◌<ℤ◌, IfSome};
ghost use Rattle.corr_num.specs.Narrow.{Narrow, Wide};
ghost use Rattle.corr_num.specs.Quotient.{IsQuotient};

use crate::integers::{difference, product, quotient};
use crate::magnitudes::narrowed;

/// One entry of an integer tableau after a pivot, `(a*p - b*c) / d`: `p` is the entry at which it pivots, `d` the denominator
/// before, and `b` and `c` share the row and the column of `a` (Bareiss 1968).
///
/// That `d` divides is a premise of the answer and nothing that a caller has to show first: where it leaves a remainder,
/// the number in the answer means nothing.
pub fn pivot_entry(a: i128, p: i128, b: i128, c: i128, d: i128) -> Option<i128>
    requires a_narrow { Narrow a }
    requires p_narrow { Narrow p }
    requires b_narrow { Narrow b }
    requires c_narrow { Narrow c }
    requires positive { pos 0 <ℤ d }
    requires d_narrow { Narrow d }

    ensures exact { (q : ℤ) → IsQuotient (a *ℤ p -ℤ b *ℤ c) d q → Narrow q → result ≡ Some q }
    ensures wide { (q : ℤ) → IsQuotient (a *ℤ p -ℤ b *ℤ c) d q → (result ≡ None) ↔ Wide q }
    ensures narrow { IfSome result Narrow }
{
    let numerator = difference(product(a, p), product(b, c));
    narrowed(quotient(numerator, d))
}
