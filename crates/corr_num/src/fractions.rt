ghost use Rattle.std.specs.Prelude.{◌≡◌, ◌^◌, ◌<◌, ◌≤◌, pos, ◌<ℤ◌, unsigned_abs};
ghost use Rattle.std.specs.Int.{IsGcd};

use crate::divisors::gcd;
use crate::integers::{product, quotient, sum};
use std::marker::Model;

/// A fraction in lowest terms, whose denominator is above 0. Zero is 0/1.
#[derive(Clone, Copy, Debug)]
pub struct Frac {
    num: i128,
    den: i128,
}

impl Model for Frac {
    ghost use Rattle.std.specs.Prelude.{◌^◌, ◌<◌, unsigned_abs};
    ghost use Rattle.corr_num.specs.Fraction.{Fraction, IsLowest};

    ghost Value = { Fraction };

    ghost view = { λ f. record { num = f.num; den = f.den } };

    ghost invariant = { λ f. IsLowest (record { num = f.num; den = f.den }) × (unsigned_abs f.num < 2 ^ 126) × (unsigned_abs f.den < 2 ^ 126) };

    ghost inverse = { λ p. record { num = p.num; den = p.den } };
}

impl Frac {
    ghost use Rattle.corr_num.specs.Fraction.{IsLowest, IsReduced, fraction_sum, fraction_product};

    /// `num/den` in lowest terms.
    pub fn of(num: i128, den: i128) -> Frac
        requires positive { pos 0 <ℤ den }
        requires num_bound { unsigned_abs num < 2 ^ 126 }
        requires den_bound { unsigned_abs den < 2 ^ 126 }
        ensures { IsReduced result (record { num = num; den = den }) }
    {
        let divisor = common_divisor(num, den);
        Frac {
            num: quotient(num, divisor),
            den: quotient(den, divisor),
        }
    }

    /// The numerator, which has the sign of the fraction.
    pub fn num(&self) -> i128
        ensures value { result ≡ self.now.num }
        ensures bound { unsigned_abs result < 2 ^ 126 }
    {
        self.num
    }

    /// The denominator.
    pub fn den(&self) -> i128
        ensures value { result ≡ self.now.den }
        ensures bound { unsigned_abs result < 2 ^ 126 }
        ensures positive { pos 0 <ℤ result }
        ensures lowest { IsLowest self.now }
    {
        self.den
    }

    /// The sum of two fractions.
    pub fn plus(&self, other: &Frac) -> Frac
        requires self_num { unsigned_abs self.now.num ≤ 2 ^ 62 }
        requires self_den { unsigned_abs self.now.den ≤ 2 ^ 62 }
        requires other_num { unsigned_abs other.now.num ≤ 2 ^ 62 }
        requires other_den { unsigned_abs other.now.den ≤ 2 ^ 62 }
        ensures { IsReduced result (fraction_sum self.now other.now) }
    {
        let num = sum(product(self.num, other.den), product(other.num, self.den));
        Frac::of(num, product(self.den, other.den))
    }

    /// The product of two fractions.
    pub fn times(&self, other: &Frac) -> Frac
        requires self_num { unsigned_abs self.now.num ≤ 2 ^ 62 }
        requires self_den { unsigned_abs self.now.den ≤ 2 ^ 62 }
        requires other_num { unsigned_abs other.now.num ≤ 2 ^ 62 }
        requires other_den { unsigned_abs other.now.den ≤ 2 ^ 62 }
        ensures { IsReduced result (fraction_product self.now other.now) }
    {
        Frac::of(product(self.num, other.num), product(self.den, other.den))
    }
}

/// The greatest common divisor of the magnitudes of a numerator and a denominator.
fn common_divisor(num: i128, den: i128) -> i128
    requires positive { pos 0 <ℤ den }
    requires den_bound { unsigned_abs den < 2 ^ 126 }
    ensures divisor { IsGcd (unsigned_abs num) (unsigned_abs den) (unsigned_abs result) }
    ensures positive { pos 0 <ℤ result }
{
    gcd(num.unsigned_abs(), den.unsigned_abs()) as i128
}

impl PartialEq for Frac {
    ghost use Rattle.std.proofs.Common.{rules};
    ghost use Rattle.std.specs.Ordering.{eq_of_both, int_eq, on};
    ghost use Rattle.std.specs.Cmp.Rules.{comparing};
    ghost use Rattle.std.specs.Prelude.{◌≡◌, ◌↔◌, IsTrue};
    ghost use Rattle.corr_num.specs.Fraction.{IsSameNumber};

    ghost eq = { eq_of_both (on (λ p. p.num) int_eq) (on (λ p. p.den) int_eq) };

    ghost laws = { Prim.search (comparing, rules) };

    fn eq(&self, other: &Frac) -> bool
        ensures same { IsTrue result ↔ IsSameNumber self.now other.now }
        ensures equal { IsTrue result ↔ (self.now ≡ other.now) }
    {
        self.num == other.num && self.den == other.den
    }
}

impl Eq for Frac {
    ghost use Rattle.std.proofs.Common.{rules};
    ghost use Rattle.std.specs.Cmp.Rules.{comparing};

    ghost laws = { Prim.search (comparing, rules) };
}
