ghost use Rattle.std.specs.Prelude.{◌≡◌, ◌<◌, ◌≤◌, ◌+◌, ◌*◌, ◌^◌, ℕ, length, IfOk, IfSome, option_map};
ghost use Rattle.corr_game.specs.Game.{sets_of};
ghost use Rattle.connected_pairs.specs.Table.{IsMarkedBelow, IsTable, of_side, other};
ghost use Rattle.corr_game.specs.declared.nodes.SetId.{SetId};
ghost use Rattle.tree_recall.specs.Tree.{set_of};
ghost use Rattle.corr_game.specs.declared.sides.Side.TheVariants.{One, Two};

use crate::ends::ends_of;
use corr_game::{Game, Node, SetId, Side};
use std::alloc::{AllocError as NoMemory, Global};

/// Whether each set of player 1 is connected to each of player 2, in rows of player 1's.
pub fn connected_sets(alloc: Global, game: &Game) -> Result<Vec<bool>, NoMemory>
    ensures size { IfOk result
        (λ table. length table.items ≡ length (sets_of One game.now) * length (sets_of Two game.now)) }
    ensures connected { IfOk result (λ table. IsTable game.now table.items) }
{
    let ends = ends_of(alloc, game)?;
    let width = game.sets(Side::Two) as usize;
    let size = game.sets(Side::One) as usize * width;
    let mut table: Vec<bool> = vec![in alloc; false; size]?;
    for n in 0..game.len() {
        match game.node(n) {
            Node::Leaf { .. } => {}
            Node::Chance { .. } => {}
            Node::Choice { side, set, .. } => {
                connect_below(game, &mut table, (*side, *set), n + 1, ends[n as usize]);
            }
        }
    }
    Ok(table)
}

/// Connects a set to those of the other player from node `first` to before node `end`.
fn connect_below(game: &Game, table: &mut Vec<bool>, above: (Side, SetId), first: u32, end: u32)
    requires all_sets { length table.old.items ≡ length (sets_of One game.now) * length (sets_of Two game.now) }
    requires known { above.1.0 < length (sets_of above.0 game.now) }
    requires in_list { end ≤ length game.now.nodes }
    ensures size { length table.new.items ≡ length table.old.items }
    ensures below { IsMarkedBelow game.now above.0 above.1.0 first end table.old.items table.new.items }
{
    let width = game.sets(Side::Two) as usize;
    for n in first..end {
        match own_set(game, other(above.0), n) {
            None => {}
            Some(set) => table[cell(above, set, width)] = true,
        }
    }
}

/// The set at a node where this player moves there.
fn own_set(game: &Game, side: Side, n: u32) -> Option<SetId>
    requires { n < length game.now.nodes }
    ensures at { option_map (λ (set : SetId). set.0) result ≡ set_of game.now side n }
    ensures known { IfSome result (λ set. set.0 < length (sets_of side game.now)) }
{
    match game.node(n) {
        Node::Leaf { .. } | Node::Chance { .. } => None,
        Node::Choice {
            side: mover,
            set,
            ..
        } => { if *mover == side { Some(*set) } else { None } }
    }
}

/// Where the table has this set and one of the other player's.
fn cell(own: (Side, SetId), set: SetId, width: usize) -> usize
    requires { width < 2 ^ 32 }
    ensures { (one two : ℕ) → of_side own.0 one two ≡ own.1.0 → of_side (other own.0) one two ≡ set.0 → result ≡ one * width + two }
{
    match own.0 {
        Side::One => own.1.0 as usize * width + set.0 as usize,
        Side::Two => set.0 as usize * width + own.1.0 as usize,
    }
}

fn other(side: Side) -> Side
    ensures { result ≡ other side }
{
    match side {
        Side::One => Side::Two,
        Side::Two => Side::One,
    }
}
