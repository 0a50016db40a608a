ghost use Rattle.std.specs.Prelude.{◌≡◌, ◌≤◌, ◌↔◌, ℕ, pos, length, slice_get, slice_index_or, All, IfOk, IsTrue, Some};
ghost use Rattle.corr_num.specs.Narrow.{Narrow};
ghost use Rattle.connected_pairs.specs.Connected.{IsPairsOf};
ghost use Rattle.plan_decompose.specs.Entry.{AreSums, IsEntry};
ghost use Rattle.plan_decompose.specs.Solution.{IsSolution};

use crate::entries::take_entry;
use connected_pairs::Pairs;
use corr_game::{Game, PairList};
use lp_form::NumList;
use std::alloc::{AllocError as NoMemory, Global};

/// Weighted pairs of plans whose weights sum, over those that play a relevant pair, to its value.
pub fn decompose(
    alloc: Global,
    game: &Game,
    pairs: &Pairs,
    values: NumList,
) -> Result<PairList, NoMemory>
    requires whose { IsPairsOf game.now pairs.now }
    requires per_pair { length values ≡ length pairs.now.pairs }
    requires narrow { All Narrow values }
    requires solution { IsSolution pairs.now values }
    ensures entries { IfOk result (λ list. All (IsEntry game.now pairs.now.seqs) list) }
    ensures sums { IfOk result (λ list. AreSums pairs.now list values) }
    ensures some { IfOk result (λ list. 1 ≤ length list) }
    ensures few { IfOk result (λ list. length list ≤ length pairs.now.pairs) }
{
    let mut rest = copied(alloc, &values, pairs.len())?;
    let mut list = PairList::new(alloc);
    loop {
        let entry = take_entry(alloc, game, pairs, &mut rest)?;
        list.push(entry)?;
        if nothing_left(&rest) {
            return Ok(list);
        }
    }
}

fn nothing_left(rest: &[i128]) -> bool
    ensures { IsTrue result ↔ All (λ value. value ≡ pos 0) rest.now }
{
    rest.iter().all(|value| *value == 0)
}

/// The numbers of a list, `count` of them.
fn copied(alloc: Global, values: &NumList, count: u32) -> Result<Vec<i128>, NoMemory>
    requires { length values.now ≡ count }
    ensures { IfOk result (λ copy. copy.items ≡ values.now) }
{
    let mut copy = Vec::with_capacity(alloc, count as usize)?;
    for k in 0..count {
        copy.push(*values.at(k as usize))?;
    }
    Ok(copy)
}
