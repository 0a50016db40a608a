//! The tree of the nodes that stand in preorder.

ghost use Rattle.std.specs.Prelude.{◌≡◌, ◌<◌, ◌^◌, length, take, drop, reverse, IfOk, OnOk};
ghost use Rattle.efg_reader.specs.Assembly.{assembled, node_with};

use crate::events::{Bare, Event};
use crate::raw_game::{RawNode, Shape};
use corr_game::NodeList;
use std::alloc::{AllocError as NoMemory, Global};

/// The nodes with their kids.
///
/// The nodes are taken from the last to the first; the subtrees that stand behind a node wait, its first kid on top.
pub fn assemble(alloc: Global, listed: Vec<Bare>) -> Result<Vec<RawNode>, NoMemory>
    requires { length listed.items < 2 ^ 32 }
    ensures nodes { IfOk result (λ nodes. nodes.items ≡ (assembled 0 listed.items).0) }
    ensures count { IfOk result (λ nodes. length nodes.items ≡ length listed.items) }
{
    let mut bares = listed;
    let mut roots = Vec::new(alloc);
    let mut nodes = Vec::new(alloc);
    while let Some(bare) = bares.pop() {
        let kids = take_kids(alloc, &mut roots, bare.kids)?;
        roots.push(bares.len() as u32)?;
        nodes.push(with_kids(bare, kids))?;
    }
    nodes.reverse();
    Ok(nodes)
}

/// The first of the waiting subtrees, as many as a node has kids.
fn take_kids(alloc: Global, roots: &mut Vec<u32>, count: u32) -> Result<NodeList, NoMemory>
    ensures kids { IfOk result (λ kids. kids ≡ take count (reverse roots.old.items)) }
    ensures rest { OnOk result (reverse roots.new.items ≡ drop count (reverse roots.old.items)) }
{
    let mut kids = NodeList::new(alloc);
    for _ in 0..count {
        if let Some(kid) = roots.pop() {
            kids.push(kid)?;
        }
    }
    Ok(kids)
}

fn with_kids(bare: Bare, kids: NodeList) -> RawNode
    ensures { result ≡ node_with bare kids }
{
    let Bare {
        event,
        kids: _,
        one,
        two,
    } = bare;
    let shape = match event {
        Event::Leaf => Shape::Leaf,
        Event::Chance { probs } => Shape::Chance { kids, probs },
        Event::Choice { side, set } => Shape::Choice { side, set, kids },
    };
    RawNode { shape, one, two }
}
