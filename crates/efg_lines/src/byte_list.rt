ghost use Rattle.std.specs.Prelude.{◌≡◌, ◌<◌, ◌++◌, ◌∷◌, [], length, slice_index, IfOk, OnErr, OnOk};

use std::alloc::{AllocError as NoMemory, Global};
use std::marker::Model;

/// Bytes that a token of the file holds.
#[derive(Debug, Drop)]
pub struct ByteList {
    bytes: Vec<u8>,
}

impl Model for ByteList {
    ghost use Rattle.std.specs.Prelude.{ℕ, List};

    ghost Value = { List ℕ };

    ghost view = { λ a. a.bytes.items };
}

impl ByteList {
    pub fn new(alloc: Global) -> ByteList
        ensures empty { result ≡ [] }
    {
        ByteList {
            bytes: Vec::new(alloc),
        }
    }

    /// A copy of these bytes.
    pub(crate) fn of(alloc: Global, bytes: &[u8]) -> Result<ByteList, NoMemory>
        ensures copy { IfOk result (λ list. list ≡ bytes.now) }
    {
        Ok(ByteList {
            bytes: Vec::from_slice(alloc, bytes)?,
        })
    }

    pub fn push(&mut self, item: u8) -> Result<(), NoMemory>
        ensures ok { OnOk result (self.new ≡ self.old ++ item ∷ []) }
        ensures err { OnErr result (self.new ≡ self.old) }
    {
        self.bytes.push(item)?;
        Ok(())
    }

    pub fn len(&self) -> usize
        ensures count { result ≡ length self.now }
    {
        self.bytes.len()
    }

    pub fn at(&self, k: usize) -> &u8
        requires { k < length self.now }
        ensures item { result.now ≡ slice_index self.now k }
    {
        &self.bytes[k]
    }

    pub fn as_slice(&self) -> &[u8]
        ensures bytes { result.now ≡ self.now }
    {
        self.bytes.as_slice()
    }
}
