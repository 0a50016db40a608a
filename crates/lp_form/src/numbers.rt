ghost use Rattle.std.specs.Prelude.{◌≡◌, ◌<◌, ◌++◌, ◌∷◌, [], length, slice_index_or, pos, OnErr, OnOk, IfOk};

use std::alloc::{AllocError as NoMemory, Global};
use std::marker::Model;

/// A list of whole numbers, as multipliers and values of columns.
#[derive(Debug, Drop)]
pub struct NumList {
    numbers: Vec<i128>,
}

impl Model for NumList {
    ghost use Rattle.std.specs.Prelude.{ℤ, List};

    ghost Value = { List ℤ };

    ghost view = { λ a. a.numbers.items };
}

impl NumList {
    pub fn new(alloc: Global) -> NumList
        ensures empty { result ≡ [] }
    {
        NumList {
            numbers: Vec::new(alloc),
        }
    }

    /// The empty list, with room for so many numbers.
    pub fn with_capacity(alloc: Global, count: usize) -> Result<NumList, NoMemory>
        ensures empty { IfOk result (λ list. list ≡ []) }
    {
        Ok(NumList {
            numbers: Vec::with_capacity(alloc, count)?,
        })
    }

    pub fn push(&mut self, item: i128) -> Result<(), NoMemory>
        ensures ok { OnOk result (self.new ≡ self.old ++ item ∷ []) }
        ensures err { OnErr result (self.new ≡ self.old) }
    {
        self.numbers.push(item)?;
        Ok(())
    }

    pub fn len(&self) -> usize
        ensures count { result ≡ length self.now }
    {
        self.numbers.len()
    }

    pub fn at(&self, k: usize) -> &i128
        requires { k < length self.now }
        ensures item { result.now ≡ slice_index_or self.now k (pos 0) }
    {
        &self.numbers[k]
    }
}
