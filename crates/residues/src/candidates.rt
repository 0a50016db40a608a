ghost use Rattle.std.specs.Prelude.{◌≡◌, ◌^◌, ◌<◌, pos, ◌*ℤ◌, IsTrue, IfSome};
ghost use Rattle.residues.specs.Remainder.{remainder};

use crate::fractions::Fraction;
use crate::numbers::Residue;
use crate::remainders::{P1, P2};

/// A step of Euclid's algorithm on a modulus and a value: `den` times the value has the remainder
/// `num`, or its opposite. Nothing rests on that, since the fraction is tested.
#[derive(Clone, Copy)]
pub(crate) struct Candidate {
    pub num: u64,
    pub den: u64,
    pub opposite: bool,
    pub ghost num_bound: { num < 2 ^ 62 },
    pub ghost den_positive: { 0 < den },
    pub ghost den_bound: { den < 2 ^ 62 },
}

impl Candidate {
    ghost use Rattle.residues.specs.FractionOf.{IsFractionOf};

    /// The fraction, where it has these residues.
    pub(crate) fn tested(self, value: Residue) -> Option<Fraction>
        ensures { IfSome result (λ f. IsFractionOf f value) }
    {
        let size = self.num as i64;
        let num = if self.opposite { -size } else { size };
        if !is_over(value, num, self.den) {
            return None;
        }
        Some(Fraction {
            num,
            den: self.den as i64,
        })
    }
}

/// Whether the denominator times a number has the remainders of the numerator.
fn is_over(value: Residue, num: i64, den: u64) -> bool
    requires { den < 2 ^ 62 }
    ensures first { IsTrue result
        → remainder (pos den *ℤ pos value.first) P1 ≡ remainder num P1 }
    ensures second { IsTrue result
        → remainder (pos den *ℤ pos value.second) P2 ≡ remainder num P2 }
{
    value.times(Residue::of(den as i64)) == Residue::of(num)
}
