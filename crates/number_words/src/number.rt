use corr_num::Frac;
use std::marker::Model;

/// A number of a file in lowest terms: its sign, the magnitude of its numerator, and its denominator. Zero has no sign.
#[derive(Clone, Copy, Debug)]
pub struct Number {
    negative: bool,
    num: u64,
    den: u64,
}

impl Model for Number {
    ghost use Rattle.number_words.specs.Number.{NumberView, IsNumber};

    ghost Value = { NumberView };

    ghost view = { λ n. record { negative = n.negative; num = n.num; den = n.den } };

    ghost invariant = { λ n. IsNumber (record { negative = n.negative; num = n.num; den = n.den }) };

    ghost inverse = { λ p. record { negative = p.negative; num = p.num; den = p.den } };
}

impl Number {
    ghost use Rattle.std.specs.Prelude.{◌≡◌, false, true, unsigned_abs};
    ghost use Rattle.number_words.specs.Number.{IsNumber, IsPart, IsLimited, IsProbability, signed, fraction_of};

    pub(crate) fn of(negative: bool, num: u64, den: u64) -> Number
        requires { IsNumber (record { negative = negative; num = num; den = den }) }
        ensures { result ≡ record { negative = negative; num = num; den = den } }
    {
        Number { negative, num, den }
    }

    pub fn zero() -> Number
        ensures { result ≡ record { negative = false; num = 0; den = 1 } }
    {
        Number::of(false, 0, 1)
    }

    pub fn is_negative(&self) -> bool
        ensures { result ≡ self.now.negative }
    {
        self.negative
    }

    /// The magnitude of the numerator.
    pub fn num(&self) -> u64
        ensures value { result ≡ self.now.num }
        ensures number { IsNumber self.now }
    {
        self.num
    }

    /// The denominator.
    pub fn den(&self) -> u64
        ensures value { result ≡ self.now.den }
        ensures number { IsNumber self.now }
    {
        self.den
    }

    /// The number as a fraction.
    pub fn frac(&self) -> Frac
        ensures value { result ≡ fraction_of self.now }
        ensures limited { IsLimited result }
        ensures part { IsPart self.now → IsProbability result }
    {
        Frac::of(self.signed(), i128::from(self.den))
    }

    /// The numerator with the sign.
    fn signed(&self) -> i128
        ensures value { result ≡ signed self.now }
        ensures size { unsigned_abs result ≡ self.now.num }
    {
        let num = i128::from(self.num);
        if self.negative { -num } else { num }
    }
}

impl PartialEq for Number {
    ghost use Rattle.std.proofs.Common.{rules};
    ghost use Rattle.std.specs.Ordering.{eq_of_both, on};
    ghost use Rattle.std.specs.Bool.{beq};
    ghost use Rattle.std.specs.Cmp.Rules.{comparing};
    ghost use Rattle.std.specs.Prelude.{◌≡◌, ◌↔◌, IsTrue, nat_eq};

    ghost eq = { eq_of_both (on (λ p. p.negative) beq) (eq_of_both (on (λ p. p.num) nat_eq) (on (λ p. p.den) nat_eq)) };

    ghost laws = { Prim.search (comparing, rules) };

    fn eq(&self, other: &Number) -> bool
        ensures equal { IsTrue result ↔ (self.now ≡ other.now) }
    {
        self.negative == other.negative && self.num == other.num && self.den == other.den
    }
}

impl Eq for Number {
    ghost use Rattle.std.proofs.Common.{rules};
    ghost use Rattle.std.specs.Cmp.Rules.{comparing};

    ghost laws = { Prim.search (comparing, rules) };
}
