ghost use Rattle.std.specs.Prelude.{[], ◌≡◌, ◌+◌, ◌<◌, ◌≤◌, ◌↔◌, length, take, drop, IfSome, IsNone, MatchOption, slice_range};
ghost use Rattle.efg_token.specs.Cursor.{Cursor, left};
ghost use Rattle.efg_token.specs.Front.{gap, front, opened, blank, unended, found};
ghost use Rattle.efg_token.specs.Seen.{lexeme, IfFound, IfUnended};
ghost use Rattle.efg_token.specs.Lexeme.{spelling};

use crate::cutting;
use crate::token::{Spot, Token, TokenFault};
use std::marker::Model;

/// What is left of some bytes to be cut into tokens.
#[derive(Drop)]
pub struct Tokens<'a> {
    bytes: &'a [u8],
    at: usize,
}

impl<'a> Model for Tokens<'a> {
    ghost use Rattle.std.specs.Prelude.{◌≤◌, length};
    ghost use Rattle.efg_token.specs.Cursor.{Cursor};

    ghost Value = { Cursor };

    ghost view = { λ t. record { bytes = t.bytes.now; at = t.at } };

    ghost invariant = { λ t. t.at ≤ length t.bytes.now };
}

impl<'a> Tokens<'a> {
    /// All of the bytes are left.
    pub fn new(bytes: &'a [u8]) -> Tokens<'a>
        ensures input { result.bytes ≡ bytes.now }
        ensures start { result.at ≡ 0 }
    {
        Tokens { bytes, at: 0 }
    }

    /// The first token of what is left; none where only white space is left. Behind a fault nothing is left.
    pub fn next(&mut self) -> Option<Result<Spot<'a>, TokenFault>>
        ensures input { self.new.bytes ≡ self.old.bytes }
        ensures within { self.new.at ≤ length self.new.bytes }

        // The token is the first of what was left, and what is behind it is left.
        ensures token { IfFound result (λ spot. front (left self.old) ≡ found (lexeme spot.token) (left self.new)) }
        ensures at { IfFound result (λ spot. spot.at ≡ self.old.at + gap (left self.old)) }
        ensures end { IfFound result (λ spot. spot.end ≡ self.new.at) }
        ensures span { IfFound result (λ spot. spot.at < spot.end) }
        ensures spelled { IfFound result (λ spot. slice_range self.old.bytes spot.at spot.end ≡ spelling (lexeme spot.token)) }

        // A text opens there and doesn't end.
        ensures unended { IfUnended result (λ at. front (left self.old) ≡ unended) }
        ensures opening { IfUnended result (λ at. at ≡ self.old.at + gap (left self.old)) }
        ensures over { IfUnended result (λ at. left self.new ≡ []) }

        ensures blank { IsNone result ↔ (front (left self.old) ≡ blank) }
    {
        let left = self.bytes.split_at(self.at).1;
        let gap = cutting::gap(left);
        let at = self.at + gap;
        let left = left.split_at(gap).1;
        if left.is_empty() {
            return None;
        }
        let Some((token, length)) = cutting::opened(left) else {
            self.at = self.bytes.len();
            return Some(Err(TokenFault::Unterminated { at }));
        };
        let end = at + length;
        self.at = end;
        Some(Ok(Spot { token, at, end }))
    }
}
