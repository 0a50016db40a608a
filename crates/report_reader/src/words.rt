// The values of single pieces.
ghost use Rattle.std.specs.Prelude.{◌≡◌, ◌<◌, ◌≤◌, ◌^◌, ◌∷◌, ◌++◌, ◌≢◌, ℕ, ℤ, pos, length, slice_index};
ghost use Rattle.std.specs.Prelude.{IfSome, IsNone, IsFalse, IsTrue, unsigned_abs};
ghost use Rattle.std.specs.Fmt.{decimal, signed_decimal};
ghost use Rattle.std.specs.Int.{IsGcd};
ghost use Rattle.corr_game.specs.declared.notions.Notion.{Notion};
ghost use Rattle.corr_num.specs.Fraction.{Fraction};
ghost use Rattle.report_form.specs.Ranges.{IsPayoff};
ghost use Rattle.report_reader.specs.Reading.{slash_place};
ghost use Rattle.report_text.specs.NameText.{notion_name};
ghost use Rattle.report_text.specs.PartText.{frac_text};

use corr_game::Notion;
use corr_num::{Frac, difference, gcd};

/// The digits' value, where they have no leading zero and their value is below the limit.
pub(crate) fn magnitude(digits: &[u8], limit: u128) -> Option<u128>
    ensures below { IfSome result (λ value. value < limit) }
    ensures text { IfSome result (λ value. digits.now ≡ decimal value) }
    ensures none { IsNone result → (n : ℕ) → n < limit → digits.now ≡ decimal n → ⊥ }
{
    if digits.is_empty() || (digits[0] == b'0' && digits.len() > 1) {
        return None;
    }
    let mut value = 0u128;
    for digit in digits {
        if !digit.is_ascii_digit() {
            return None;
        }
        value = value
            .checked_mul(10)?
            .checked_add(u128::from(*digit - b'0'))?;
    }
    if value < limit { Some(value) } else { None }
}

/// The value of a whole number, where its magnitude is below the limit. Zero has no sign.
pub(crate) fn whole(word: &[u8], limit: u128) -> Option<i128>
    requires { limit ≤ 2 ^ 126 }
    ensures below { IfSome result (λ value. unsigned_abs value < limit) }
    ensures text { IfSome result (λ value. word.now ≡ signed_decimal value) }
    ensures none { IsNone result → (z : ℤ) → unsigned_abs z < limit → word.now ≡ signed_decimal z → ⊥ }
{
    match word {
        [b'-', digits @ ..] => negative(digits, limit),
        _ => Some(magnitude(word, limit)? as i128),
    }
}

fn negative(digits: &[u8], limit: u128) -> Option<i128>
    requires { limit ≤ 2 ^ 126 }
    ensures below { IfSome result (λ value. unsigned_abs value < limit) }
    ensures text { IfSome result (λ value. 45 ∷ digits.now ≡ signed_decimal value) }
    ensures none { IsNone result → (z : ℤ) → unsigned_abs z < limit → 45 ∷ digits.now ≡ signed_decimal z → ⊥ }
{
    let size = magnitude(digits, limit)?;
    if size == 0 {
        return None;
    }
    Some(difference(0, size as i128))
}

/// How many bytes stand before the first slash, which may be all.
fn before_slash(word: &[u8]) -> usize
    ensures value { result ≡ slash_place word.now }
    ensures within { result ≤ length word.now }
    ensures slash { result < length word.now → slice_index word.now result ≡ 47 }
{
    let mut n = 0;
    while n < word.len() && word[n] != b'/' {
        n += 1;
    }
    n
}

/// The value of a whole number or of a quotient in lowest terms.
pub(crate) fn fraction(word: &[u8]) -> Option<Frac>
    ensures payoff { IfSome result IsPayoff }
    ensures text { IfSome result (λ value. word.now ≡ frac_text value) }
    ensures none { IsNone result → (value : Fraction) → IsPayoff value → word.now ≡ frac_text value → ⊥ }
{
    let (num, rest) = word.split_at(before_slash(word));
    let num = whole(num, 1 << 126)?;
    match rest {
        [_, den @ ..] => quotient(num, den),
        [] => Some(Frac::of(num, 1)),
    }
}

fn quotient(num: i128, den: &[u8]) -> Option<Frac>
    requires { unsigned_abs num < 2 ^ 126 }
    ensures payoff { IfSome result IsPayoff }
    ensures text { IfSome result (λ value. signed_decimal num ++ 47 ∷ den.now ≡ frac_text value) }
    ensures none { IsNone result → (d : ℤ) → IsPayoff (record { num = num; den = d }) → d ≢ pos 1 → den.now ≡ signed_decimal d → ⊥ }
{
    let den = magnitude(den, 1 << 126)? as i128;
    if den < 2 {
        return None;
    }
    let value = Frac::of(num, den);
    if value.den() == den {
        Some(value)
    } else {
        None
    }
}

pub(crate) fn are_coprime(a: i128, b: i128) -> bool
    ensures coprime { IsTrue result → IsGcd (unsigned_abs a) (unsigned_abs b) 1 }
    ensures other { IsFalse result → IsGcd (unsigned_abs a) (unsigned_abs b) 1 → ⊥ }
{
    gcd(a.unsigned_abs(), b.unsigned_abs()) == 1
}

pub(crate) fn notion(word: &[u8]) -> Option<Notion>
    ensures text { IfSome result (λ notion. word.now ≡ notion_name notion) }
    ensures none { IsNone result → (notion : Notion) → word.now ≡ notion_name notion → ⊥ }
{
    if word == b"efce".as_slice() {
        return Some(Notion::Efce);
    }
    if word == b"efcce".as_slice() {
        return Some(Notion::Efcce);
    }
    if word == b"nfcce".as_slice() {
        return Some(Notion::Nfcce);
    }
    None
}
