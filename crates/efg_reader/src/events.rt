ghost use Rattle.std.specs.Prelude.{IsTrue};
ghost use Rattle.efg_reader.specs.Event.{is_fit, HasChances};
ghost use Rattle.efg_reader.specs.RawGame.{IsLimited};

use crate::raw_game::FracList;
use corr_game::{SetId, Side};
use corr_num::Frac;

/// What happens at a node, its kids apart.
#[derive(Debug, Drop)]
pub enum Event {
    Leaf,
    Chance { probs: FracList },
    Choice { side: Side, set: SetId },
}

/// A node of which only the number of kids is known.
#[derive(Debug, Drop)]
pub struct Bare {
    pub event: Event,
    pub kids: u32,
    pub one: Frac,
    pub two: Frac,
    ghost fits: { IsTrue (is_fit event kids) },
    ghost chances: { HasChances event kids },
    ghost one_limited: { IsLimited one },
    ghost two_limited: { IsLimited two },
}
