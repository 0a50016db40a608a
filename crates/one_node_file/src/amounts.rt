//! Words that are read as whole numbers.

ghost use Rattle.std.specs.Prelude.{◌≡◌, ◌<◌, ◌^◌, IfSome};
ghost use Rattle.one_node_file.specs.Amount.{short_number, magnitude, amount};

/// The greatest magnitude of an amount.
const LIMIT: u32 = 1 << 28;

/// The value of a word of 1 to 9 digits.
pub fn short_number(word: &[u8]) -> Option<u32>
    ensures { result ≡ short_number word.now }
{
    if word.is_empty() || word.len() > 9 {
        return None;
    }
    let mut value = 0;
    for byte in word {
        if !byte.is_ascii_digit() {
            return None;
        }
        value = value * 10 + u32::from(*byte - b'0');
    }
    Some(value)
}

/// The value of a word of 1 to 9 digits, where it is within the limit of an amount.
fn magnitude(word: &[u8]) -> Option<u32>
    ensures value { result ≡ magnitude word.now }
    ensures within { IfSome result (λ n. n < 2 ^ 29) }
{
    let value = short_number(word)?;
    if value > LIMIT {
        return None;
    }
    Some(value)
}

/// The amount that a word writes: a minus or none, and 1 to 9 digits.
pub fn amount(word: &[u8]) -> Option<i64>
    ensures { result ≡ amount word.now }
{
    match word {
        [b'-', digits @ ..] => Some(-i64::from(magnitude(digits)?)),
        _ => Some(i64::from(magnitude(word)?)),
    }
}
