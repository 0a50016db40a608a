// All that a source has left, up to a limit and one byte more.
ghost use Rattle.std.specs.Prelude.{◌≡◌, ℕ, ◌+◌, ◌^◌, ◌<◌, ◌≤◌, vec_len, IfOk, OnErr, IsErrOf};
ghost use Rattle.std.specs.Io.KnownBytes.{Consumes, IsAtEnd};
ghost use Rattle.corr_port.specs.Count.{Rose};
ghost use Rattle.corr_run.specs.Input.{TakesAtMost, Moves};
ghost use Rattle.corr_run.specs.declared.input.InputEnd.TheVariants.{NoMemory, Unread};

use corr_port::{Failed, Source};
use std::alloc::{AllocError, Global};

// How many bytes are asked for at a time.
const PIECE: usize = 4096;

/// Why the input isn't there: the source failed, or memory was wanting.
#[derive(Clone, Copy, Debug, PartialEq, Eq)]
pub enum InputEnd {
    Unread,
    NoMemory,
}

impl From<AllocError> for InputEnd {
    ghost from_gives = { λ _ e. e ≡ NoMemory };

    fn from(_: AllocError) -> Self {
        InputEnd::NoMemory
    }
}

impl From<Failed> for InputEnd {
    ghost from_gives = { λ _ e. e ≡ Unread };

    fn from(_: Failed) -> Self {
        InputEnd::Unread
    }
}

// Takes once, at most so many bytes, and adds what came.
fn take_piece<S: Source>(src: &mut S, bytes: &mut Vec<u8>, most: usize) -> Result<usize, InputEnd>
    requires { 0 < most }
    ensures moves { IfOk result (λ n. Moves most (S.left src.old) (S.left src.new) bytes.old.items bytes.new.items) }
    ensures grows { IfOk result (λ n. vec_len bytes.new ≡ vec_len bytes.old + n) }
    ensures end { IfOk result (λ n. n ≡ 0 → IsAtEnd (S.left src.new)) }
    ensures taken { TakesAtMost most (S.left src.old) (S.left src.new) }
    ensures cause { IsErrOf result InputEnd.Unread → Rose (S.faults src.old) (S.faults src.new) }
    ensures count { S.faults src.old ≤ S.faults src.new }
{
    let mut piece = [0u8; PIECE];
    let room = most.min(PIECE);
    let n = src.take(&mut piece[..room])?;
    bytes.extend_from_slice(&piece[..n])?;
    Ok(n)
}

/// The bytes left, or the first `limit + 1` of them.
pub fn read_input<S: Source>(alloc: Global, src: &mut S, limit: usize) -> Result<Vec<u8>, InputEnd>
    requires { limit < 2 ^ 32 }
    ensures read { IfOk result (λ bytes. Consumes (S.left src.old) (S.left src.new) bytes.items) }
    ensures size { IfOk result (λ bytes. vec_len bytes ≤ limit + 1) }
    ensures whole { IfOk result (λ bytes. vec_len bytes ≤ limit → IsAtEnd (S.left src.new)) }
    ensures taken { TakesAtMost (limit + 1) (S.left src.old) (S.left src.new) }
    ensures cause { IsErrOf result InputEnd.Unread → Rose (S.faults src.old) (S.faults src.new) }
    ensures count { S.faults src.old ≤ S.faults src.new }
{
    let mut bytes = Vec::new(alloc);
    while bytes.len() <= limit {
        let most = limit + 1 - bytes.len();
        if take_piece(src, &mut bytes, most)? == 0 {
            return Ok(bytes);
        }
    }
    Ok(bytes)
}
