ghost use Rattle.std.specs.Prelude.{◌≡◌, ◌*◌, ◌<◌};

use crate::candidates::Candidate;
use crate::numbers::Residue;
use crate::remainders::{P1, P2, difference_modulo, product_modulo};

/// The inverse modulo P2 of P1, which is 30 there.
const INVERSE_OF_P1: u64 = 2228981575573237457;

/// One above the greatest numerator and denominator of a fraction.
const BOUND: u128 = 1 << 62;

/// The greatest quotient of a number that is no fraction of small numbers seldom passes this.
const BELOW_LEAST_QUOTIENT: u128 = 1023;

/// The number below `P1 * P2` with these remainders, by the Chinese remainder theorem.
fn combined(value: Residue) -> u128
    ensures { result < P1 * P2 }
{
    let first = if value.first < P2 {
        value.first
    } else {
        value.first - P2
    };
    let apart = difference_modulo(value.second, first, P2);
    let times = product_modulo(apart, INVERSE_OF_P1, 31);
    value.first as u128 + P1 as u128 * times as u128
}

/// The step of the greatest quotient among those whose remainder and factor are below 2^62.
pub(crate) fn best_wide(value: Residue) -> Candidate {
    let mut high = P1 as u128 * P2 as u128;
    let mut low = combined(value);
    let mut high_factor = 0;
    let mut low_factor = 1;
    let mut negative = false;
    let mut greatest = BELOW_LEAST_QUOTIENT;
    let mut num = 0;
    let mut den = 1;
    let mut opposite = false;
    while low != 0 && low_factor < BOUND {
        let quotient = high / low;
        if quotient > greatest && low < BOUND {
            greatest = quotient;
            num = low as u64;
            den = low_factor as u64;
            opposite = negative;
        }
        let rest = high % low;
        let factor = high_factor + quotient * low_factor;
        high = low;
        low = rest;
        high_factor = low_factor;
        low_factor = factor;
        negative = !negative;
    }
    Candidate { num, den, opposite }
}
