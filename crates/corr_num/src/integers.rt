ghost use Rattle.std.specs.Prelude.{◌≡◌, ◌^◌, ◌<◌, ◌≤◌, ℤ, pos, ◌+ℤ◌, ◌-ℤ◌, ◌*ℤ◌, ◌<ℤ◌, int_div, unsigned_abs};
ghost use Rattle.corr_num.specs.Quotient.{IsQuotient};

/// The sum of two whole numbers.
pub fn sum(a: i128, b: i128) -> i128
    requires left { unsigned_abs a < 2 ^ 126 }
    requires right { unsigned_abs b < 2 ^ 126 }
    ensures { result ≡ a +ℤ b }
{
    a + b
}

/// The first whole number less the second.
pub fn difference(a: i128, b: i128) -> i128
    requires left { unsigned_abs a < 2 ^ 126 }
    requires right { unsigned_abs b < 2 ^ 126 }
    ensures { result ≡ a -ℤ b }
{
    a - b
}

/// The product of two whole numbers. Any `i64` may stand on either side.
pub fn product(a: i128, b: i128) -> i128
    requires left { unsigned_abs a ≤ 2 ^ 63 }
    requires right { unsigned_abs b ≤ 2 ^ 63 }
    ensures { result ≡ a *ℤ b }
{
    a * b
}

/// `n` divided by a positive `d`, rounded toward zero.
pub fn quotient(n: i128, d: i128) -> i128
    requires { pos 0 <ℤ d }
    ensures rounded { result ≡ int_div n d }
    ensures exact { (q : ℤ) → IsQuotient n d q → result ≡ q }
{
    n / d
}
