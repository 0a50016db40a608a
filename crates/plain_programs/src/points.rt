// What a list of pairs of plans pays on average.
ghost use Rattle.std.specs.Prelude.{◌≡◌, ◌*ℤ◌, All};
ghost use Rattle.corr_game.specs.declared.notions.Notion.{Notion};
ghost use Rattle.corr_game.specs.declared.sides.Side.TheVariants.{One, Two};
ghost use Rattle.equilibrium.specs.Deviation.{following};
ghost use Rattle.equilibrium.specs.Distribution.{IsEntry, entries_of, entry_of, total};
ghost use Rattle.equilibrium.specs.Equilibrium.{IsEquilibriumList, Slack};
ghost use Rattle.equilibrium.specs.ReachedPoint.{IsReached};
ghost use Rattle.plain_programs.specs.Weights.{AreWeights};

use crate::sums::{following, total};
use corr_game::{Game, PairList, Side};

/// The weighted sums of what a list pays both players, and the sum of its weights.
#[derive(Clone, Copy, Debug, PartialEq, Eq)]
pub struct PayoffPoint {
    pub one: i128,
    pub two: i128,
    pub total: i128,
}

/// What a list of pairs of reduced plans pays.
///
/// An equilibrium list reaches the point `one / (total * scale of player 1)`, `two / (total * scale of player 2)`.
pub fn payoff_point(game: &Game, list: &PairList) -> PayoffPoint
    requires entries { All (λ pair. IsEntry game.now (entry_of pair)) list.now }
    requires weights { AreWeights list.now }
    ensures one { result.one ≡ following One game.now (entries_of list.now) }
    ensures two { result.two ≡ following Two game.now (entries_of list.now) }
    ensures total { result.total ≡ total (entries_of list.now) }
    ensures reached { (notion : Notion) (slack : Slack) → IsEquilibriumList notion game.now slack (entries_of list.now)
        → IsReached notion game.now slack (record {
          x = result.one *ℤ game.now.scale_two;
          y = result.two *ℤ game.now.scale_one;
          den = result.total *ℤ (game.now.scale_one *ℤ game.now.scale_two);
        }) }
{
    let _ = game.len();
    PayoffPoint {
        one: following(game, Side::One, list),
        two: following(game, Side::Two, list),
        total: total(list),
    }
}
