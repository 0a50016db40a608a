ghost use Rattle.std.specs.Prelude.{◌≡◌, ◌<◌, ◌≤◌, ◌+◌, ℕ, length, slice_index, All, IfOk};
ghost use Rattle.corr_game.specs.Game.{sets_of};
ghost use Rattle.sequences.specs.Number.{AreAtNodes, IsNumberingOf};
ghost use Rattle.tree_recall.specs.LastMove.{IsHandedOn};

use crate::numbers::Numbers;
use corr_game::{Game, Node, NodeList, Side};
use std::alloc::{AllocError as NoMemory, Global};

/// The number of a player's sequence at each node.
pub fn node_seqs(
    alloc: Global,
    game: &Game,
    side: Side,
    numbers: &Numbers,
) -> Result<Vec<u32>, NoMemory>
    requires { IsNumberingOf (sets_of side game.now) numbers.now.places.items numbers.now.lasts.items }
    ensures per_node { IfOk result (λ seqs. length seqs.items ≡ length game.now.nodes) }
    ensures in_range { IfOk result
        (λ seqs. All (λ seq. seq ≤ length numbers.now.lasts.items) seqs.items) }
    ensures of_tree { IfOk result
        (λ seqs. AreAtNodes side game.now numbers.now.places.items seqs.items) }
{
    let mut seqs: Vec<u32> = vec![in alloc; 0; game.len() as usize]?;
    for n in 0..game.len() {
        let here = seqs[n as usize];
        match game.node(n) {
            Node::Leaf { .. } => {}
            Node::Chance { kids } => pass_on(&mut seqs, kids, here),
            Node::Choice {
                side: mover,
                set,
                kids,
            } => {
                if *mover == side {
                    pass_moves(&mut seqs, kids, numbers.places[set.0 as usize].first);
                } else {
                    pass_on(&mut seqs, kids, here);
                }
            }
        }
    }
    Ok(seqs)
}

/// Gives each kid this sequence.
fn pass_on(seqs: &mut Vec<u32>, kids: &NodeList, seq: u32)
    requires { All (λ kid. kid < length seqs.old.items) kids.now }
    ensures count { length seqs.new.items ≡ length seqs.old.items }
    ensures each { (k : ℕ) → IsHandedOn kids.now (λ _. seq) (length kids.now) k (slice_index seqs.old.items k) (slice_index seqs.new.items k) }
{
    for k in 0..kids.len() {
        seqs[*kids.at(k) as usize] = seq;
    }
}

/// Gives each kid the sequence that ends with the move to it, from `first` on.
fn pass_moves(seqs: &mut Vec<u32>, kids: &NodeList, first: u32)
    requires behind { All (λ kid. kid < length seqs.old.items) kids.now }
    requires few { first + length kids.now ≤ 4096 }
    ensures count { length seqs.new.items ≡ length seqs.old.items }
    ensures each { (k : ℕ) → IsHandedOn kids.now (λ action. first + action) (length kids.now) k (slice_index seqs.old.items k) (slice_index seqs.new.items k) }
{
    for k in 0..kids.len() {
        seqs[*kids.at(k) as usize] = first + k as u32;
    }
}
