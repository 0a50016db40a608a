ghost use Rattle.std.specs.Prelude.{◌≡◌, ◌<◌, ◌++◌, ◌∷◌, [], length, slice_get, Some, OnErr, OnOk};

use crate::byte_list::ByteList;
use std::alloc::{AllocError as NoMemory, Global};
use std::marker::Model;

/// An action of a list in the file: its name, and in a chance line the word of its probability.
#[derive(Debug, Drop)]
pub struct ActLine {
    pub name: ByteList,
    pub prob: Option<ByteList>,
}

/// The actions of a list in the file, in its order.
#[derive(Debug, Drop)]
pub struct ActLines {
    acts: Vec<ActLine>,
}

impl Model for ActLines {
    ghost use Rattle.std.specs.Prelude.{List};
    ghost use Rattle.efg_lines.specs.declared.node_line.ActLine.{ActLine};

    ghost Value = { List ActLine };

    ghost view = { λ a. a.acts.items };
}

impl ActLines {
    pub fn new(alloc: Global) -> ActLines
        ensures empty { result ≡ [] }
    {
        ActLines {
            acts: Vec::new(alloc),
        }
    }

    pub fn push(&mut self, item: ActLine) -> Result<(), NoMemory>
        ensures ok { OnOk result (self.new ≡ self.old ++ item ∷ []) }
        ensures err { OnErr result (self.new ≡ self.old) }
    {
        self.acts.push(item)?;
        Ok(())
    }

    pub fn len(&self) -> usize
        ensures count { result ≡ length self.now }
    {
        self.acts.len()
    }

    pub fn at(&self, k: usize) -> &ActLine
        requires { k < length self.now }
        ensures item { slice_get self.now k ≡ Some result.now }
    {
        &self.acts[k]
    }
}

/// The number words of a payoff list in the file, in its order.
#[derive(Debug, Drop)]
pub struct PayWords {
    words: Vec<ByteList>,
}

impl Model for PayWords {
    ghost use Rattle.std.specs.Prelude.{ℕ, List};

    ghost Value = { List (List ℕ) };

    ghost view = { λ a. a.words.items };
}

impl PayWords {
    pub fn new(alloc: Global) -> PayWords
        ensures empty { result ≡ [] }
    {
        PayWords {
            words: Vec::new(alloc),
        }
    }

    pub fn push(&mut self, item: ByteList) -> Result<(), NoMemory>
        ensures ok { OnOk result (self.new ≡ self.old ++ item ∷ []) }
        ensures err { OnErr result (self.new ≡ self.old) }
    {
        self.words.push(item)?;
        Ok(())
    }

    pub fn len(&self) -> usize
        ensures count { result ≡ length self.now }
    {
        self.words.len()
    }

    pub fn at(&self, k: usize) -> &ByteList
        requires { k < length self.now }
        ensures item { slice_get self.now k ≡ Some result.now }
    {
        &self.words[k]
    }
}

/// What kind of node a line is: its set's number and its actions, where the file lists them, and the mover's number.
#[derive(Debug, Drop)]
pub enum LineKind {
    Chance {
        set: ByteList,
        acts: Option<ActLines>,
    },
    Player {
        player: ByteList,
        set: ByteList,
        acts: Option<ActLines>,
    },
    Leaf,
}

/// A node of the file: its kind, the number of its outcome, and its payoffs, where the file lists them.
///
/// Each list is none exactly where the file has no such list there. Names other than those of actions aren't kept.
#[derive(Debug, Drop)]
pub struct NodeLine {
    pub kind: LineKind,
    pub outcome: ByteList,
    pub pays: Option<PayWords>,
}
