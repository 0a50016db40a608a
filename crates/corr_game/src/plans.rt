ghost use Rattle.std.specs.Prelude.{◌≡◌, ◌<◌, ◌++◌, ◌∷◌, [], length, slice_index, slice_get, Some, OnErr, OnOk};

use crate::nodes::SetId;
use std::alloc::{AllocError as NoMemory, Global};
use std::marker::Model;

/// A player's plan: per set the action that it names there, or none.
#[derive(Debug, Drop)]
pub struct Plan {
    entries: Vec<Option<u32>>,
}

impl Model for Plan {
    ghost use Rattle.std.specs.Prelude.{ℕ, List, Option};

    ghost Value = { List (Option ℕ) };

    ghost view = { λ a. a.entries.items };
}

impl Plan {
    pub fn from_list(entries: Vec<Option<u32>>) -> Plan
        ensures wrapped { result ≡ entries.items }
    {
        Plan { entries }
    }

    pub fn len(&self) -> usize
        ensures count { result ≡ length self.now }
    {
        self.entries.len()
    }

    pub fn at(&self, set: SetId) -> Option<u32>
        requires { set.0 < length self.now }
        ensures entry { slice_get self.now set.0 ≡ Some result }
    {
        self.entries[set.0 as usize]
    }

    /// The entries in the order of the sets.
    pub fn entries(&self) -> &[Option<u32>]
        ensures all { result.now ≡ self.now }
    {
        &self.entries
    }
}

/// A full choice of a player: an action at each set.
#[derive(Debug, Drop)]
pub struct Choice {
    entries: Vec<u32>,
}

impl Model for Choice {
    ghost use Rattle.std.specs.Prelude.{ℕ, List};

    ghost Value = { List ℕ };

    ghost view = { λ a. a.entries.items };
}

impl Choice {
    pub fn from_list(entries: Vec<u32>) -> Choice
        ensures wrapped { result ≡ entries.items }
    {
        Choice { entries }
    }

    pub fn len(&self) -> usize
        ensures count { result ≡ length self.now }
    {
        self.entries.len()
    }

    pub fn at(&self, k: usize) -> &u32
        requires { k < length self.now }
        ensures item { result.now ≡ slice_index self.now k }
    {
        &self.entries[k]
    }
}

/// A plan of each player and the weight at which the mediator draws the two.
#[derive(Debug, Drop)]
pub struct Pair {
    pub one: Plan,
    pub two: Plan,
    pub weight: i128,
}

/// Weighted pairs of plans.
#[derive(Debug, Drop)]
pub struct PairList {
    pairs: Vec<Pair>,
}

impl Model for PairList {
    ghost use Rattle.std.specs.Prelude.{List};
    ghost use Rattle.corr_game.specs.declared.plans.Pair.{Pair};

    ghost Value = { List Pair };

    ghost view = { λ a. a.pairs.items };
}

impl PairList {
    pub fn new(alloc: Global) -> PairList
        ensures empty { result ≡ [] }
    {
        PairList {
            pairs: Vec::new(alloc),
        }
    }

    pub fn push(&mut self, item: Pair) -> Result<(), NoMemory>
        ensures ok { OnOk result (self.new ≡ self.old ++ item ∷ []) }
        ensures err { OnErr result (self.new ≡ self.old) }
    {
        self.pairs.push(item)?;
        Ok(())
    }

    pub fn len(&self) -> usize
        ensures count { result ≡ length self.now }
    {
        self.pairs.len()
    }

    pub fn at(&self, k: usize) -> &Pair
        requires { k < length self.now }
        ensures item { slice_get self.now k ≡ Some result.now }
    {
        &self.pairs[k]
    }
}
