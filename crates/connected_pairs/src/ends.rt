ghost use Rattle.std.specs.Prelude.{◌≡◌, ◌<◌, ℕ, length, slice_index, All, IfOk};
ghost use Rattle.corr_game.specs.Preorder.{end_of, row_end};

use corr_game::{Game, Node, NodeList};
use std::alloc::{AllocError as NoMemory, Global};

/// Per node the first node after it that isn't below it.
pub fn ends_of(alloc: Global, game: &Game) -> Result<Vec<u32>, NoMemory>
    ensures per_node { IfOk result (λ ends. length ends.items ≡ length game.now.nodes) }
    ensures each { IfOk result
        (λ ends. (n : ℕ) → n < length game.now.nodes → slice_index ends.items n ≡ end_of game.now.nodes n) }
{
    let count = game.len();
    let mut ends: Vec<u32> = vec![in alloc; 0; count as usize]?;
    for done in 0..count {
        let n = count - 1 - done;
        let end = match game.node(n) {
            Node::Leaf { .. } => n + 1,
            Node::Chance { kids } => end_of_row(&ends, kids, n + 1),
            Node::Choice { kids, .. } => end_of_row(&ends, kids, n + 1),
        };
        ends[n as usize] = end;
    }
    Ok(ends)
}

/// Where the row of the kids' subtrees ends, which begins at `start`.
fn end_of_row(ends: &[u32], kids: &NodeList, start: u32) -> u32
    requires { All (λ kid. kid < length ends.now) kids.now }
    ensures { result ≡ row_end start kids.now (λ kid. slice_index ends.now kid) }
{
    let mut end = start;
    for k in 0..kids.len() {
        end = ends[*kids.at(k) as usize];
    }
    end
}
