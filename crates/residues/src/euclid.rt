ghost use Rattle.std.specs.Prelude.{◌^◌, ◌<◌, ◌≤◌};

use crate::candidates::Candidate;

/// The step of the greatest quotient in Euclid's algorithm on a modulus and a value.
///
/// Its remainder is the smallest beside the one before. Where the value is a fraction of small
/// numbers, they are found there.
pub(crate) fn best_of(modulus: u64, value: u64) -> Candidate
    requires modulus { modulus ≤ 2 ^ 61 }
    requires value { value < modulus }
{
    let mut high = modulus;
    let mut low = value;
    let mut high_factor = 0;
    let mut low_factor = 1;
    let mut negative = false;
    let mut greatest = 0;
    let mut num = 0;
    let mut den = 1;
    let mut opposite = false;
    while low != 0 {
        let quotient = high / low;
        if quotient > greatest {
            greatest = quotient;
            num = low;
            den = low_factor;
            opposite = negative;
        }
        let rest = high % low;
        let factor = high_factor + quotient * low_factor;
        high = low;
        low = rest;
        high_factor = low_factor;
        low_factor = factor;
        negative = !negative;
    }
    Candidate { num, den, opposite }
}
