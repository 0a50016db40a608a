//! Text made piece by piece, each piece behind what stands there.
//!
//! It stands on `itoa` for digits. The crates that write reports and lines say of each of their writers that it
//! `Adds` a piece, and join two such facts by the lemmas of `proofs/Pieces.antt`; where memory runs out a front of
//! the piece may have been added, and nothing else has changed.
#![tactic(auto)]

ghost use Rattle.std.specs.Prelude.{◌≡◌, OnOk, OnErr};
ghost use Rattle.text_pieces.specs.Piece.{Adds};

use itoa::{Buffer, Integer};
use std::alloc::AllocError;

/// Adds the bytes as they are.
pub fn add_bytes(out: &mut Vec<u8>, bytes: &[u8]) -> Result<(), AllocError>
    ensures ok { OnOk result (Adds out.old.items out.new.items bytes.now) }
    ensures err { OnErr result (out.new.items ≡ out.old.items) }
{
    out.extend_from_slice(bytes)
}

/// Adds a whole number in decimal, with a minus sign below 0 and no leading zero.
///
/// `I` is any integer type up to 128 bits. `I.text` is std's `decimal` of an unsigned number and
/// `signed_decimal` of a signed one.
pub fn add_number<I: Integer>(out: &mut Vec<u8>, number: &I) -> Result<(), AllocError>
    ensures ok { OnOk result (Adds out.old.items out.new.items (I.text number.now)) }
    ensures err { OnErr result (out.new.items ≡ out.old.items) }
{
    let mut buffer = Buffer::new();
    out.extend_from_slice(buffer.format(*number).as_bytes())
}
