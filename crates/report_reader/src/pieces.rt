ghost use Rattle.std.specs.Prelude.{◌≡◌, ◌+◌, ◌<◌, ◌≤◌, [], ◌∷◌, length, IsTrue, IsFalse, IfErr, OnOk};
ghost use Rattle.report_reader.specs.Cursor.{Cursor};
ghost use Rattle.report_reader.specs.Reading.{Reads, ReadsPieces, StopsAt, first_piece, left_of, piece_length};

use crate::refusals::Stop;
use std::marker::Model;

/// Some bytes cut into pieces, and the place of the next one. A piece is a space, a line feed, or a run of other bytes
/// that is as long as can be.
#[derive(Drop)]
pub(crate) struct Pieces<'a> {
    bytes: &'a [u8],
    at: usize,
}

impl<'a> Model for Pieces<'a> {
    ghost use Rattle.std.specs.Prelude.{◌≤◌, length};
    ghost use Rattle.report_reader.specs.Cursor.{Cursor};

    ghost Value = { Cursor };

    ghost view = { λ t. record { bytes = t.bytes.now; at = t.at } };

    ghost invariant = { λ t. t.at ≤ length t.bytes.now };
}

/// The length of the first piece, or 0 where no byte is left.
fn piece_length(bytes: &[u8]) -> usize
    ensures value { result ≡ piece_length bytes.now }
    ensures within { result ≤ length bytes.now }
{
    let mut n = 0;
    while n < bytes.len() && bytes[n] != b' ' && bytes[n] != b'\n' {
        n += 1;
    }
    if n == 0 && !bytes.is_empty() { 1 } else { n }
}

impl<'a> Pieces<'a> {
    pub(crate) fn new(bytes: &'a [u8]) -> Pieces<'a>
        ensures input { result.bytes ≡ bytes.now }
        ensures start { result.at ≡ 0 }
    {
        Pieces { bytes, at: 0 }
    }

    /// The place of the next piece, which is the number of bytes where none is left.
    pub(crate) fn at(&self) -> usize
        ensures place { result ≡ self.now.at }
        ensures within { result ≤ length self.now.bytes }
    {
        self.at
    }

    /// The next piece, which is empty where none is left.
    pub(crate) fn next(&self) -> &'a [u8]
        ensures first { result.now ≡ first_piece (left_of self.now) }
        ensures within { self.now.at + length result.now ≤ length self.now.bytes }
    {
        let left = self.bytes.split_at(self.at).1;
        left.split_at(piece_length(left)).0
    }

    /// Goes on behind the next piece.
    pub(crate) fn pass(&mut self)
        ensures text { Reads self.old self.new (first_piece (left_of self.old)) }
        ensures piece { 0 < length (first_piece (left_of self.old))
            → ReadsPieces self.old self.new (first_piece (left_of self.old) ∷ []) }
        ensures same_input { self.new.bytes ≡ self.old.bytes }
        ensures forward { self.old.at ≤ self.new.at }
        ensures within { self.new.at ≤ length self.new.bytes }
    {
        self.at += self.next().len();
    }

    /// Goes on behind the next piece where it is this text.
    pub(crate) fn take(&mut self, text: &[u8]) -> bool
        ensures text { IsTrue result → Reads self.old self.new text.now }
        ensures piece { IsTrue result → 0 < length text.now → ReadsPieces self.old self.new (text.now ∷ []) }
        ensures other { IsFalse result → self.new ≡ self.old }
        ensures not_text { IsFalse result → first_piece (left_of self.old) ≡ text.now → ⊥ }
        ensures same_input { self.new.bytes ≡ self.old.bytes }
        ensures forward { self.old.at ≤ self.new.at }
        ensures taken { IsTrue result → self.new.at ≡ self.old.at + length text.now }
        ensures within { self.new.at ≤ length self.new.bytes }
    {
        let piece = self.next();
        if piece != text {
            return false;
        }
        self.at += piece.len();
        true
    }

    /// Goes on behind the next piece, which has to be this text.
    pub(crate) fn expect(&mut self, text: &[u8]) -> Result<(), Stop>
        ensures text { OnOk result (Reads self.old self.new text.now) }
        ensures piece { OnOk result (0 < length text.now → ReadsPieces self.old self.new (text.now ∷ [])) }
        ensures refused { IfErr result (StopsAt (λ word. word ≡ text.now) (λ word. word) self.old self.new) }
        ensures same_input { self.new.bytes ≡ self.old.bytes }
    {
        if self.take(text) {
            Ok(())
        } else {
            Err(Stop::Syntax)
        }
    }
}
