ghost use Rattle.std.specs.Prelude.{◌≡◌, ◌<◌, ◌-◌, false, slice_index, vec_len, sum, reverse};
ghost use Rattle.efg_reader.specs.Above.{without_complete};

use std::alloc::{AllocError as NoMemory, Global};

/// The nodes above the next one, while a tree is read in preorder: how many kids each of them still waits for.
#[derive(Debug, Drop)]
pub struct Outline {
    awaited: Vec<u32>,
    begun: bool,
    ghost idle: { begun ≡ false → vec_len awaited ≡ 0 },
    ghost waits: { 0 < vec_len awaited → 0 < slice_index awaited.items (vec_len awaited - 1) },
}

impl Outline {
    ghost use Rattle.std.specs.Prelude.{◌+◌, ◌≤◌, ◌↔◌, [], length, true, false, OnOk, IsTrue};
    ghost use Rattle.efg_reader.specs.Above.{above_next};
    ghost use Rattle.efg_reader.specs.Outline.{above, has_begun, is_whole, places};

    pub fn new(alloc: Global) -> Outline
        ensures places { places result ≡ 1 }
        ensures above { above result ≡ [] }
        ensures begun { has_begun result ≡ false }
    {
        Outline {
            awaited: Vec::new(alloc),
            begun: false,
        }
    }

    /// Whether every action of every node has its subtree.
    pub fn is_closed(&self) -> bool
        ensures closed { IsTrue result ↔ (places self.now ≡ 0) }
        ensures value { result ≡ is_whole self.now }
    {
        self.begun && self.awaited.is_empty()
    }

    /// How many nodes are above the next one.
    pub fn depth(&self) -> usize
        ensures { result ≡ length (above self.now) }
    {
        self.awaited.len()
    }

    /// The next node has this many kids.
    pub fn place(&mut self, kids: u32) -> Result<(), NoMemory>
        requires { 0 < places self.old }
        ensures places { OnOk result (places self.new + 1 ≡ places self.old + kids) }
        ensures above { OnOk result (above self.new ≡ above_next (above self.old) kids) }
        ensures begun { OnOk result (has_begun self.new ≡ true) }
    {
        let above = self.awaited.len();
        self.awaited.push(kids)?;
        if above > 0 {
            self.awaited[above - 1] -= 1;
        }
        drop_complete(&mut self.awaited);
        self.begun = true;
        Ok(())
    }
}

/// Takes off the nodes that wait for no more kids.
fn drop_complete(awaited: &mut Vec<u32>)
    ensures sum { sum awaited.new.items ≡ sum awaited.old.items }
    ensures above { reverse awaited.new.items ≡ without_complete (reverse awaited.old.items) }
    ensures waits { 0 < vec_len awaited.new → 0 < slice_index awaited.new.items (vec_len awaited.new - 1) }
{
    while let Some(0) = awaited.last() {
        awaited.pop();
    }
}
