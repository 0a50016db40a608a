//! Values of wholes and numbers, within the limits of the format.

ghost use Rattle.std.specs.Prelude.{◌≡◌, ◌++◌, ◌&&◌, ◌^◌, ◌<◌, ◌≤◌, nat_lt, IfSome};
ghost use Rattle.std.specs.Int.{IsGcd};
ghost use Rattle.number_words.specs.Value.{common_divisor, decimal_value, magnitude_value, number_behind, number_value, quotient, quotient_value, short_number, whole_value, without_last_zeros};

use crate::number::Number;
use crate::words::digit_count;
use corr_num::gcd;

/// One more than the greatest number of a player, a set or an outcome.
const WHOLE_END: u128 = 2_147_483_648;
/// One more than the greatest number of 30 digits.
const SHORT_END: u128 = 1_000_000_000_000_000_000_000_000_000_000;
/// The greatest magnitude of a numerator in lowest terms.
const NUMERATOR_LIMIT: u128 = 1_099_511_627_776;
/// The greatest denominator in lowest terms.
const DENOMINATOR_LIMIT: u128 = 16_777_216;

/// The value of a whole; none where it is over its limit.
pub fn whole_value(word: &[u8]) -> Option<u32>
    ensures value { result ≡ whole_value word.now }
    ensures within { IfSome result (λ n. n < 2 ^ 31) }
{
    Some(number_behind(0, word, WHOLE_END)? as u32)
}

/// The value of a number; none where it is over its limit.
pub fn number_value(word: &[u8]) -> Option<Number>
    ensures { result ≡ number_value word.now }
{
    match word {
        [] => None,
        [b'+', magnitude @ ..] => magnitude_value(false, magnitude),
        [b'-', magnitude @ ..] => magnitude_value(true, magnitude),
        _ => magnitude_value(false, word),
    }
}

/// The value of a number with its sign taken off.
fn magnitude_value(negative: bool, word: &[u8]) -> Option<Number>
    ensures { result ≡ magnitude_value negative word.now }
{
    let (whole, rest) = word.split_at(digit_count(word));
    match rest {
        [] => decimal_value(negative, whole, &[]),
        [b'.', fraction @ ..] => decimal_value(negative, whole, fraction),
        [b'/', divisor @ ..] => quotient_value(negative, whole, divisor),
        _ => None,
    }
}

#[tactic(auto, unfolding(crate::specs::Value::decimal_value))]
fn decimal_value(negative: bool, whole: &[u8], fraction: &[u8]) -> Option<Number>
    ensures { result ≡ decimal_value negative whole.now fraction.now }
{
    let shown = without_last_zeros(fraction);
    if shown.len() > 30 {
        return None;
    }
    let digits = joined(whole, shown)?;
    quotient(negative, digits, power_of_ten(shown.len()))
}

#[tactic(auto, unfolding(crate::specs::Value::quotient_value))]
fn quotient_value(negative: bool, above: &[u8], below: &[u8]) -> Option<Number>
    ensures { result ≡ quotient_value negative above.now below.now }
{
    quotient(
        negative,
        number_behind(0, above, SHORT_END)?,
        number_behind(0, below, SHORT_END)?,
    )
}

/// A quotient in lowest terms; none where it is over its limit, or the divisor is 0.
fn quotient(negative: bool, num: u128, den: u128) -> Option<Number>
    ensures { result ≡ quotient negative num den }
{
    if den == 0 {
        return None;
    }
    let divisor = common_divisor(num, den);
    let (num, den) = (num / divisor, den / divisor);
    if num > NUMERATOR_LIMIT {
        return None;
    }
    if den > DENOMINATOR_LIMIT {
        return None;
    }
    Some(Number::of(has_minus(negative, num), num as u64, den as u64))
}

/// Whether a number with this numerator is below 0, where its word has a minus.
fn has_minus(negative: bool, num: u128) -> bool
    ensures { result ≡ (negative && nat_lt 0 num) }
{
    negative && num > 0
}

/// The greatest common divisor of two numbers, the second not 0.
pub fn common_divisor(a: u128, b: u128) -> u128
    requires { 0 < b }
    ensures positive { 0 < result }
    ensures divisor { IsGcd a b result }
    ensures value { result ≡ common_divisor a b }
{
    gcd(a, b)
}

/// The number of at most 30 digits that the digits of both lists write in a row.
fn joined(front: &[u8], back: &[u8]) -> Option<u128>
    ensures { result ≡ short_number (front.now ++ back.now) }
{
    number_behind(number_behind(0, front, SHORT_END)?, back, SHORT_END)
}

/// The number that these digits write behind those of `front`; none where it isn't below `end`, or a byte is no digit.
#[tactic(auto, using(crate::proofs::Digits::le_value_after), unfolding(crate::specs::Value::number_behind))]
fn number_behind(front: u128, digits: &[u8], end: u128) -> Option<u128>
    requires below { front < end }
    requires limit { end ≤ 10 ^ 30 }
    ensures value { result ≡ number_behind front digits.now end }
    ensures within { IfSome result (λ n. n < end) }
{
    let mut value = front;
    for byte in digits {
        if !byte.is_ascii_digit() {
            return None;
        }
        value = value * 10 + u128::from(*byte - b'0');
        if value >= end {
            return None;
        }
    }
    Some(value)
}

/// Ten to this power.
fn power_of_ten(power: usize) -> u128
    requires { power ≤ 30 }
    ensures { result ≡ 10 ^ power }
{
    10u128.pow(power as u32)
}

/// The digits without the zeros at their end.
fn without_last_zeros(digits: &[u8]) -> &[u8]
    ensures { result.now ≡ without_last_zeros digits.now }
{
    let mut end = digits.len();
    while end > 0 && digits[end - 1] == b'0' {
        end -= 1;
    }
    digits.split_at(end).0
}
