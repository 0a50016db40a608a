use thiserror::Error;

/// A token. Its content is a slice of the input: of a text the bytes between its quotes.
#[derive(Clone, Copy, Debug)]
pub enum Token<'a> {
    Text(&'a [u8]),
    BraceLeft,
    BraceRight,
    Comma,
    Word(&'a [u8]),
}

/// A token with its place: the index of its first byte, and one past the index of its last.
#[derive(Clone, Copy, Debug)]
pub struct Spot<'a> {
    pub token: Token<'a>,
    pub at: usize,
    pub end: usize,
}

/// Why no token follows.
#[derive(Clone, Copy, Debug, PartialEq, Eq, Error)]
pub enum TokenFault {
    /// A text opens at this byte and doesn't end.
    #[error("Unterminated")]
    Unterminated { at: usize },
}
