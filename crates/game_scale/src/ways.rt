ghost use Rattle.std.specs.Prelude.{◌≡◌};
ghost use Rattle.efg_reader.specs.RawGame.{IsLimited};
ghost use Rattle.game_scale.specs.Paths.{IsChance, certain, nothing};

use corr_num::Frac;

/// What leads to a node: the probability of its path, and each player's payoffs at the nodes above it.
#[derive(Clone, Copy, Debug)]
pub struct Way {
    pub chance: Frac,
    pub one: Frac,
    pub two: Frac,
    ghost chance_is: { IsChance chance },
    ghost one_is: { IsLimited one },
    ghost two_is: { IsLimited two },
}

impl Way {
    /// The way to the root, which is certain and pays nothing.
    pub fn to_root() -> Way
        ensures chance { result.chance ≡ certain }
        ensures one { result.one ≡ nothing }
        ensures two { result.two ≡ nothing }
    {
        Way {
            chance: Frac::of(1, 1),
            one: Frac::of(0, 1),
            two: Frac::of(0, 1),
        }
    }
}
