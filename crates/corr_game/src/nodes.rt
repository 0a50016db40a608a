ghost use Rattle.std.specs.Prelude.{◌≡◌, ◌<◌, ◌++◌, ◌∷◌, [], length, slice_index, OnErr, OnOk};

use crate::payoffs::Pay;
use crate::sides::Side;
use std::alloc::{AllocError as NoMemory, Global};
use std::marker::Model;

/// The number of an information set among its player's, in the order of first nodes.
#[derive(Clone, Copy, Debug, PartialEq, Eq)]
pub struct SetId(pub u32);

/// What a set is called in the file, and how many actions it has.
#[derive(Clone, Copy, Debug, PartialEq, Eq)]
pub struct SetInfo {
    pub file: u32,
    pub actions: u32,
}

/// Numbers of nodes, one per action and in the order of the actions.
#[derive(Debug, Drop)]
pub struct NodeList {
    nodes: Vec<u32>,
}

impl Model for NodeList {
    ghost use Rattle.std.specs.Prelude.{ℕ, List};

    ghost Value = { List ℕ };

    ghost view = { λ a. a.nodes.items };
}

impl NodeList {
    pub fn new(alloc: Global) -> NodeList
        ensures empty { result ≡ [] }
    {
        NodeList {
            nodes: Vec::new(alloc),
        }
    }

    pub fn push(&mut self, item: u32) -> Result<(), NoMemory>
        ensures ok { OnOk result (self.new ≡ self.old ++ item ∷ []) }
        ensures err { OnErr result (self.new ≡ self.old) }
    {
        self.nodes.push(item)?;
        Ok(())
    }

    pub fn len(&self) -> usize
        ensures count { result ≡ length self.now }
    {
        self.nodes.len()
    }

    pub fn at(&self, k: usize) -> &u32
        requires { k < length self.now }
        ensures item { result.now ≡ slice_index self.now k }
    {
        &self.nodes[k]
    }
}

/// One node of the tree.
#[derive(Debug, Drop)]
pub enum Node {
    Leaf {
        pay: Pay,
    },
    Chance {
        kids: NodeList,
    },
    Choice {
        side: Side,
        set: SetId,
        kids: NodeList,
    },
}
