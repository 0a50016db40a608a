ghost use Rattle.std.specs.Prelude.{◌≡◌, ◌<◌, ◌≤◌, ◌^◌, pos, ◌*ℤ◌};
ghost use Rattle.std.specs.Prelude.{unsigned_abs, IfSome};
ghost use Rattle.residues.specs.Remainder.{remainder};

use crate::euclid::best_of;
use crate::fractions::Fraction;
use crate::numbers::Residue;
use crate::remainders::{P1, P2};
use crate::wide_euclid::best_wide;
use corr_num::gcd;

/// One above the greatest magnitude of a whole number that is read without Euclid's algorithm.
const WHOLE_BOUND: u64 = 1 << 60;

/// The greatest denominator that is remembered.
const HINT_BOUND: u128 = 1 << 40;

/// Reads fractions off residues. It remembers a denominator of the last numbers, since numbers that
/// are read one after another often share theirs.
#[derive(Clone, Copy)]
pub struct Reader {
    hint: u64,
    wide_reads: u64,
    ghost hint_positive: { 0 < hint },
    ghost hint_bound: { hint ≤ 2 ^ 40 },
}

impl Reader {
    ghost use Rattle.residues.specs.FractionOf.{IsFractionOf};

    pub fn new() -> Reader {
        Reader {
            hint: 1,
            wide_reads: 0,
        }
    }

    /// A fraction that has these residues, or None where none is found.
    pub fn read(&mut self, value: Residue) -> Option<Fraction>
        ensures { IfSome result (λ f. IsFractionOf f value) }
    {
        if let Some(num) = whole(value) {
            return Some(Fraction { num, den: 1 });
        }
        if let Some(num) = whole_over(value, self.hint) {
            return Some(Fraction {
                num,
                den: self.hint as i64,
            });
        }
        let fraction = self.search(value)?;
        self.hint = next_hint(self.hint, fraction.den as u64);
        Some(fraction)
    }

    /// How many numbers were searched for modulo the product of the primes.
    pub fn wide_reads(&self) -> u64 {
        self.wide_reads
    }

    /// Searches modulo the first prime, then modulo the product of both.
    fn search(&mut self, value: Residue) -> Option<Fraction>
        ensures { IfSome result (λ f. IsFractionOf f value) }
    {
        if let Some(fraction) = best_of(P1, value.first).tested(value) {
            return Some(fraction);
        }
        self.wide_reads = self.wide_reads.saturating_add(1);
        best_wide(value).tested(value)
    }
}

/// The whole number below 2^60 in magnitude with these remainders.
fn whole(value: Residue) -> Option<i64>
    ensures first { IfSome result (λ n. value.first ≡ remainder n P1) }
    ensures second { IfSome result (λ n. value.second ≡ remainder n P2) }
    ensures bound { IfSome result (λ n. unsigned_abs n < 2 ^ 60) }
{
    if value.first < WHOLE_BOUND && value.second == value.first {
        return Some(value.first as i64);
    }
    let below = P1 - value.first;
    if below < WHOLE_BOUND && value.second == P2 - below {
        return Some(-(below as i64));
    }
    None
}

/// The numerator over a denominator above 1, where it is such a whole number.
fn whole_over(value: Residue, den: u64) -> Option<i64>
    requires den_bound { den ≤ 2 ^ 40 }
    ensures first { IfSome result (λ n.
        remainder (pos den *ℤ pos value.first) P1 ≡ remainder n P1) }
    ensures second { IfSome result (λ n.
        remainder (pos den *ℤ pos value.second) P2 ≡ remainder n P2) }
    ensures bound { IfSome result (λ n. unsigned_abs n < 2 ^ 60) }
{
    if den == 1 {
        return None;
    }
    whole(value.times(Residue {
        first: den,
        second: den,
    }))
}

/// The least common multiple of the remembered denominator and the one just found, where it is at
/// most 2^40, else the one just found, where that is, else 1.
fn next_hint(hint: u64, den: u64) -> u64
    requires hint_positive { 0 < hint }
    requires hint_bound { hint ≤ 2 ^ 40 }
    requires den_positive { 0 < den }
    requires den_bound { den < 2 ^ 62 }
    ensures positive { 0 < result }
    ensures bound { result ≤ 2 ^ 40 }
{
    let common = hint as u128 / gcd(hint as u128, den as u128) * den as u128;
    if common <= HINT_BOUND {
        common as u64
    } else if den as u128 <= HINT_BOUND {
        den
    } else {
        1
    }
}
