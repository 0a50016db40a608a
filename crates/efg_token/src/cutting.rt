//! Lengths of what stands at the front of some bytes.

ghost use Rattle.std.specs.Prelude.{false, ◌≡◌, ◌<◌, ◌≤◌, ◌↔◌, length, take, drop, IfSome, IsNone, slice_index};
ghost use Rattle.efg_token.specs.Bytes.{is_white, is_in_word};
ghost use Rattle.efg_token.specs.Front.{gap, word_length, text_length, opened, found, unended};
ghost use Rattle.efg_token.specs.Seen.{lexeme};
ghost use Rattle.efg_token.specs.Lexeme.{spelling};

use crate::token::Token;

/// White space of the format: tab, line feed, vertical tab, form feed, carriage return and space.
pub fn is_white(byte: u8) -> bool
    ensures { result ≡ is_white byte }
{
    (9 <= byte && byte <= 13) || byte == b' '
}

/// Whether the byte may stand in a word.
pub fn is_in_word(byte: u8) -> bool
    ensures { result ≡ is_in_word byte }
{
    !(is_white(byte) || byte == b'"' || byte == b',' || byte == b'{' || byte == b'}')
}

/// How many bytes of white space stand at the front.
pub fn gap(bytes: &[u8]) -> usize
    ensures value { result ≡ gap bytes.now }
    ensures within { result ≤ length bytes.now }
    ensures stops { result < length bytes.now → is_white (slice_index bytes.now result) ≡ false }
{
    let mut n = 0;
    while n < bytes.len() && is_white(bytes[n]) {
        n += 1;
    }
    n
}

/// How many bytes that may stand in a word stand at the front.
pub fn word_length(bytes: &[u8]) -> usize
    ensures value { result ≡ word_length bytes.now }
    ensures within { result ≤ length bytes.now }
{
    let mut n = 0;
    while n < bytes.len() && is_in_word(bytes[n]) {
        n += 1;
    }
    n
}

/// The length of a text's content, where the bytes begin behind its opening quote; none if it doesn't end.
pub fn text_length(bytes: &[u8]) -> Option<usize>
    ensures value { result ≡ text_length 34 bytes.now }
    ensures within { IfSome result (λ n. n < length bytes.now) }
    ensures quote { IfSome result (λ n. slice_index bytes.now n ≡ 34) }
{
    let mut before = b'"';
    for (i, byte) in bytes.iter().enumerate() {
        if *byte == b'"' && before != b'\\' {
            return Some(i);
        }
        before = *byte;
    }
    None
}

/// The token whose first byte is the first of these, and how many bytes it takes; none if it is a text without end.
pub fn opened<'a>(bytes: &'a [u8]) -> Option<(Token<'a>, usize)>
    requires some { 0 < length bytes.now }
    requires not_white { is_white (slice_index bytes.now 0) ≡ false }
    ensures token { IfSome result (λ it. opened bytes.now ≡ found (lexeme it.0) (drop it.1 bytes.now)) }
    ensures within { IfSome result (λ it. it.1 ≤ length bytes.now) }
    ensures spelled { IfSome result (λ it. take it.1 bytes.now ≡ spelling (lexeme it.0)) }
    ensures longer { IfSome result (λ it. 0 < it.1) }
    ensures unended { IsNone result ↔ (opened bytes.now ≡ unended) }
{
    match bytes[0] {
        b'"' => {
            let content = bytes.split_at(1).1;
            let length = text_length(content)?;
            Some((Token::Text(content.split_at(length).0), length + 2))
        }
        b'{' => Some((Token::BraceLeft, 1)),
        b'}' => Some((Token::BraceRight, 1)),
        b',' => Some((Token::Comma, 1)),
        _ => {
            let length = word_length(bytes);
            Some((Token::Word(bytes.split_at(length).0), length))
        }
    }
}
