//! The rules on the probabilities of a chance line.

ghost use Rattle.std.specs.Prelude.{◌≡◌, ◌^◌, ◌<◌, ◌≤◌, ℕ, All, IfSome, IsTrue, false};
ghost use Rattle.number_words.specs.Number.{IsPart};
ghost use Rattle.number_words.specs.Chances.{common_denominator, common_multiple, IsKept, has_negative, sum_to_one};

use crate::number::Number;
use crate::values::common_divisor;

/// The greatest common denominator of a list of probabilities.
const COMMON_LIMIT: u128 = 1_099_511_627_776;

/// Whether a probability is below 0.
pub fn has_negative(probs: &[Number]) -> bool
    ensures value { result ≡ has_negative probs.now }
    ensures none { result ≡ false → All (λ prob. prob.negative ≡ false) probs.now }
{
    for prob in probs {
        if prob.is_negative() {
            return true;
        }
    }
    false
}

/// The least common multiple of the denominators; none where it is over its limit.
pub fn common_denominator(probs: &[Number]) -> Option<u128>
    ensures { IsKept result (common_denominator probs.now) }
{
    let mut common = Some(1);
    for prob in probs {
        common = common_multiple(common, prob.den());
    }
    common
}

/// The least common multiple of a number and a denominator; none where it is over the limit, or where there is no number.
fn common_multiple(common: Option<u128>, den: u64) -> Option<u128>
    requires common { IfSome common (λ it. (0 < it) × (it ≤ 2 ^ 40)) }
    requires den { 0 < den }
    ensures { (whole : ℕ) → IsKept common whole → IsKept result (common_multiple whole den) }
{
    let common = common?;
    let den = u128::from(den);
    let multiple = common / common_divisor(common, den) * den;
    (multiple <= COMMON_LIMIT).then_some(multiple)
}

/// Whether the probabilities, none of which is below 0, sum to 1 over their common denominator.
pub fn sums_to_one(probs: &[Number], common: u128) -> bool
    requires common { common ≡ common_denominator probs.now }
    requires positive { 0 < common }
    requires few { common ≤ 2 ^ 40 }
    requires signs { All (λ prob. prob.negative ≡ false) probs.now }
    ensures value { result ≡ sum_to_one probs.now }
    ensures parts { IsTrue result → All IsPart probs.now }
{
    let mut total = 0;
    for prob in probs {
        total += u128::from(prob.num()) * (common / u128::from(prob.den()));
        if total > common {
            return false;
        }
    }
    total == common
}
