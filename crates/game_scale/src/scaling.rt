ghost use Rattle.std.specs.Prelude.{IfErr, IfOk};
ghost use Rattle.game_scale.specs.Scaled.{IsScaled, IsRefused};

use crate::amounts::scaled_nodes;
use crate::paths::paths_of;
use crate::refusal::ScaleRefusal;
use crate::scales::scales_of;
use corr_game::Game;
use efg_reader::{RawGame, RawParts};
use std::alloc::Global;

/// The game with whole amounts.
///
/// The first refusal is the answer: `PathTooFine` over all nodes, then `ScaleTooLarge`, then `AmountTooLarge`.
pub fn scale(alloc: Global, raw: RawGame) -> Result<Game, ScaleRefusal>
    ensures ok { IfOk result (λ game. IsScaled raw game) }
    ensures err { IfErr result (λ refusal. IsRefused raw refusal) }
{
    let paths = paths_of(alloc, &raw)?;
    let scales = scales_of(&raw, &paths)?;
    let RawParts { nodes, one, two } = raw.into_parts();
    let nodes = scaled_nodes(alloc, nodes, &paths, scales)?;
    Ok(Game::of(nodes, one, two, scales.one, scales.two))
}
