//! Which words are wholes and numbers.

ghost use Rattle.std.specs.Prelude.{◌≡◌, ◌≤◌, length};
ghost use Rattle.number_words.specs.Words.{digit_count, is_digits, is_null, is_whole, is_magnitude, is_number};

/// How many digits stand at the front.
pub fn digit_count(word: &[u8]) -> usize
    ensures value { result ≡ digit_count word.now }
    ensures within { result ≤ length word.now }
{
    let mut n = 0;
    while n < word.len() && word[n].is_ascii_digit() {
        n += 1;
    }
    n
}

/// Whether there are no bytes but digits.
pub fn is_digits(word: &[u8]) -> bool
    ensures { result ≡ is_digits word.now }
{
    digit_count(word) == word.len()
}

/// Whether there are no bytes but the digit 0.
pub fn is_null(word: &[u8]) -> bool
    ensures { result ≡ is_null word.now }
{
    for byte in word {
        if *byte != b'0' {
            return false;
        }
    }
    true
}

/// Whether a word is a whole: one or more digits.
pub fn is_whole(word: &[u8]) -> bool
    ensures { result ≡ is_whole word.now }
{
    !word.is_empty() && is_digits(word)
}

/// Whether a word is a number: a sign or none, and then digits, a decimal fraction, or a quotient of digits.
pub fn is_number(word: &[u8]) -> bool
    ensures { result ≡ is_number word.now }
{
    match word {
        [b'+', magnitude @ ..] => is_magnitude(magnitude),
        [b'-', magnitude @ ..] => is_magnitude(magnitude),
        _ => is_magnitude(word),
    }
}

/// Whether a word is a number without a sign.
fn is_magnitude(word: &[u8]) -> bool
    ensures { result ≡ is_magnitude word.now }
{
    let count = digit_count(word);
    match word.split_at(count).1 {
        [] => count > 0,
        [b'.', fraction @ ..] => is_digits(fraction) && (count > 0 || !fraction.is_empty()),
        [b'/', divisor @ ..] => count > 0 && is_whole(divisor) && !is_null(divisor),
        _ => false,
    }
}
