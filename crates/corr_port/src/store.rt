// Bytes in memory that grow in steps.
ghost use Rattle.std.specs.Prelude.{◌≡◌, [], ◌++◌, ◌≤◌, min, length, take, IfOk, OnErr};

use std::alloc::{AllocError, Global};

/// Bytes to which at most `step` are added at a time.
#[derive(Drop)]
pub struct Store {
    bytes: Vec<u8>,
    step: usize,
    ghost step_moves: { 1 ≤ step },
}

impl Store {
    pub fn new(alloc: Global, step: usize) -> Self
        requires { 1 ≤ step }
        ensures empty { result.bytes.items ≡ [] }
        ensures step { result.step ≡ step }
    {
        Store {
            bytes: Vec::new(alloc),
            step,
        }
    }

    /// Adds as many bytes of the piece as the step allows.
    pub fn add(&mut self, piece: &[u8]) -> Result<usize, AllocError>
        ensures count { IfOk result (λ n. n ≡ min self.old.step (length piece.now)) }
        ensures added { IfOk result (λ n. self.new.bytes.items ≡ self.old.bytes.items ++ take n piece.now) }
        ensures kept { OnErr result (self.new.bytes.items ≡ self.old.bytes.items) }
        ensures step { self.new.step ≡ self.old.step }
    {
        let n = self.step.min(piece.len());
        self.bytes.extend_from_slice(&piece[..n])?;
        Ok(n)
    }

    pub fn bytes(&self) -> &[u8]
        ensures { result.now ≡ self.now.bytes.items }
    {
        &self.bytes
    }
}
