ghost use Rattle.std.specs.Prelude.{◌≡◌, ◌↔◌, ◌<◌, ℕ, All, IsTrue, length};
ghost use Rattle.corr_game.specs.Game.{IsGame, sets_of};
ghost use Rattle.equilibrium.specs.ReducedPlan.{IsReduced};
ghost use Rattle.connected_pairs.specs.Connected.{IsPairs, IsPairsOf};
ghost use Rattle.deviation_gains.specs.Planned.{AreReduced, FitsAt, IsPlanned};

use connected_pairs::Pairs;
use corr_game::{Game, Pair, PairList, Plan, SetId, Side};

/// Whether both plans of each pair have an action at just the sets that they lead to, and no other entry.
pub fn all_planned(game: &Game, pairs: &Pairs, list: &PairList) -> bool
    requires rules { IsGame game.now }
    requires whose { IsPairsOf game.now pairs.now }
    ensures planned { IsTrue result → All (IsPlanned game.now) list.now }
    ensures reduced { IsTrue result ↔ All (AreReduced game.now) list.now }
{
    let _ = pairs.len();
    for k in 0..list.len() {
        if !is_planned(game, pairs, list.at(k)) {
            return false;
        }
    }
    true
}

fn is_planned(game: &Game, pairs: &Pairs, pair: &Pair) -> bool
    requires rules { IsGame game.now }
    requires table { IsPairs pairs.now }
    requires whose { IsPairsOf game.now pairs.now }
    ensures { IsTrue result ↔ AreReduced game.now pair.now }
{
    is_plan(game, pairs, Side::One, &pair.one) && is_plan(game, pairs, Side::Two, &pair.two)
}

fn is_plan(game: &Game, pairs: &Pairs, side: Side, plan: &Plan) -> bool
    requires rules { IsGame game.now }
    requires table { IsPairs pairs.now }
    requires whose { IsPairsOf game.now pairs.now }
    ensures { IsTrue result ↔ IsReduced side game.now plan.now }
{
    plan.len() == game.sets(side) as usize && fits_sets(game, pairs, side, plan)
}

fn fits_sets(game: &Game, pairs: &Pairs, side: Side, plan: &Plan) -> bool
    requires rules { IsGame game.now }
    requires table { IsPairs pairs.now }
    requires whose { IsPairsOf game.now pairs.now }
    requires per_set { length plan.now ≡ length (sets_of side game.now) }
    ensures { IsTrue result ↔ ((set : ℕ) → set < length (sets_of side game.now) → FitsAt side game.now plan.now set) }
{
    for set in 0..game.sets(side) {
        if !fits_set(game, pairs, side, plan, SetId(set)) {
            return false;
        }
    }
    true
}

/// Whether a plan names one of a set's actions where it plays the set's own sequence, and none elsewhere.
fn fits_set(game: &Game, pairs: &Pairs, side: Side, plan: &Plan, set: SetId) -> bool
    requires rules { IsGame game.now }
    requires table { IsPairs pairs.now }
    requires whose { IsPairsOf game.now pairs.now }
    requires per_set { length plan.now ≡ length (sets_of side game.now) }
    requires known { set.0 < length (sets_of side game.now) }
    ensures { IsTrue result ↔ FitsAt side game.now plan.now set.0 }
{
    let seqs = pairs.seqs();
    let led_to = seqs.plays(side, plan, seqs.own(side, set));
    match plan.at(set) {
        None => !led_to,
        Some(action) => led_to && action < game.set(side, set).actions,
    }
}
