// The relevant pairs of a game's sequences.
ghost use Rattle.std.specs.Prelude.{IfOk};
ghost use Rattle.connected_pairs.specs.Connected.{IsPairsOf};

use connected_pairs::Pairs;
use corr_game::Game;
use sequences::Seqs;
use std::alloc::Global;
use tree_recall::{RecallRefusal, recall};

pub fn pairs_of(alloc: Global, game: &Game) -> Result<Pairs, RecallRefusal>
    ensures { IfOk result (λ pairs. IsPairsOf game.now pairs) }
{
    let recalled = recall(alloc, game)?;
    let seqs = Seqs::of(alloc, game, recalled)?;
    let pairs = Pairs::of(alloc, game, seqs)?;
    Ok(pairs)
}
