ghost use Rattle.std.specs.Prelude.{◌≡◌, ◌<◌, ◌↔◌, IsTrue, IfSome};
ghost use Rattle.std.specs.Prelude.{pos, neg_ℤ, ◌+ℤ◌, ◌-ℤ◌, ◌*ℤ◌};
ghost use Rattle.residues.specs.declared.remainders.TheConstants.{P1, P2};
ghost use Rattle.residues.specs.Remainder.{remainder};

use crate::remainders::{
    P1, P2, difference_modulo, inverse_modulo, minus_product_modulo, product_modulo, sum_modulo,
};

/// What the two primes lack of 2^61.
const SHORT1: u64 = 1;

const SHORT2: u64 = 31;

/// A number by its remainders modulo the two primes.
#[derive(Clone, Copy, PartialEq, Eq)]
pub struct Residue {
    pub first: u64,
    pub second: u64,
    pub ghost first_below: { first < P1 },
    pub ghost second_below: { second < P2 },
}

impl Residue {
    pub fn zero() -> Residue
        ensures first { result.first ≡ 0 }
        ensures second { result.second ≡ 0 }
    {
        Residue {
            first: 0,
            second: 0,
        }
    }

    pub fn one() -> Residue
        ensures first { result.first ≡ 1 }
        ensures second { result.second ≡ 1 }
    {
        Residue {
            first: 1,
            second: 1,
        }
    }

    /// The remainders of a whole number.
    pub fn of(value: i64) -> Residue
        ensures first { result.first ≡ remainder value P1 }
        ensures second { result.second ≡ remainder value P2 }
    {
        Residue {
            first: value.rem_euclid(P1 as i64) as u64,
            second: value.rem_euclid(P2 as i64) as u64,
        }
    }

    pub fn is_zero(self) -> bool
        ensures { IsTrue result ↔ ((self.first ≡ 0) × (self.second ≡ 0)) }
    {
        self.first == 0 && self.second == 0
    }

    pub fn negated(self) -> Residue
        ensures first { result.first ≡ remainder (neg_ℤ (pos self.first)) P1 }
        ensures second { result.second ≡ remainder (neg_ℤ (pos self.second)) P2 }
    {
        Residue::zero().minus(self)
    }

    pub fn plus(self, other: Residue) -> Residue
        ensures first { result.first ≡ remainder (pos self.first +ℤ pos other.first) P1 }
        ensures second { result.second ≡ remainder (pos self.second +ℤ pos other.second) P2 }
    {
        Residue {
            first: sum_modulo(self.first, other.first, P1),
            second: sum_modulo(self.second, other.second, P2),
        }
    }

    pub fn minus(self, other: Residue) -> Residue
        ensures first { result.first ≡ remainder (pos self.first -ℤ pos other.first) P1 }
        ensures second { result.second ≡ remainder (pos self.second -ℤ pos other.second) P2 }
    {
        Residue {
            first: difference_modulo(self.first, other.first, P1),
            second: difference_modulo(self.second, other.second, P2),
        }
    }

    pub fn times(self, other: Residue) -> Residue
        ensures first { result.first ≡ remainder (pos self.first *ℤ pos other.first) P1 }
        ensures second { result.second ≡ remainder (pos self.second *ℤ pos other.second) P2 }
    {
        Residue {
            first: product_modulo(self.first, other.first, SHORT1),
            second: product_modulo(self.second, other.second, SHORT2),
        }
    }

    /// `self - factor * other`.
    pub fn minus_product(self, factor: Residue, other: Residue) -> Residue
        ensures first { result.first
            ≡ remainder (pos self.first -ℤ pos factor.first *ℤ pos other.first) P1 }
        ensures second { result.second
            ≡ remainder (pos self.second -ℤ pos factor.second *ℤ pos other.second) P2 }
    {
        Residue {
            first: minus_product_modulo(self.first, factor.first, other.first, SHORT1),
            second: minus_product_modulo(self.second, factor.second, other.second, SHORT2),
        }
    }

    /// The number whose product with this one is 1. None where Euclid's algorithm does not end at 1,
    /// as for a remainder 0. Since the moduli are primes, it does for every other.
    pub fn inverse(self) -> Option<Residue>
        ensures first { IfSome result (λ i. remainder (pos self.first *ℤ pos i.first) P1 ≡ 1) }
        ensures second { IfSome result (λ i. remainder (pos self.second *ℤ pos i.second) P2 ≡ 1) }
    {
        let first = inverse_modulo(self.first, SHORT1)?;
        let second = inverse_modulo(self.second, SHORT2)?;
        Some(Residue { first, second })
    }
}
