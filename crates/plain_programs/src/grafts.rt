// Which sets are below others, and the plan of a player who leaves for a full choice.
ghost use Rattle.std.specs.Prelude.{◌≡◌, ◌<◌, ◌≤◌, ℕ, true, length, slice_get, Some, All, IfOk};
ghost use Rattle.corr_game.specs.Game.{sets_of};
ghost use Rattle.corr_game.specs.Node.{kids_of};
ghost use Rattle.corr_game.specs.declared.nodes.Node.{Node};
ghost use Rattle.equilibrium.specs.FullChoice.{chosen_anew, graft, is_under};
ghost use Rattle.equilibrium.specs.Reach.{comes_to, is_below, some_kid};

use crate::plans::{is_of_set, kids_of};
use corr_game::{Choice, Game, Plan, SetId, Side};
use std::alloc::{AllocError as NoMemory, Global};

/// Whether some node below this one is of a set.
fn holds_below(game: &Game, side: Side, set: SetId, n: u32) -> bool
    requires in_range { n < length game.now.nodes }
    ensures { (node : Node) → slice_get game.now.nodes n ≡ Some node
        → result ≡ some_kid (λ action. true) (comes_to (λ at action. true) side game.now set.0) 0 (kids_of node) }
{
    let Some(kids) = kids_of(game.node(n)) else {
        return false;
    };
    for k in 0..kids.len() {
        let kid = *kids.at(k);
        if is_of_set(game.node(kid), side, set) || holds_below(game, side, set, kid) {
            return true;
        }
    }
    false
}

/// Whether a set is below another one of its player: some node of it is below some node of that.
pub fn is_below(game: &Game, side: Side, above: SetId, set: SetId) -> bool
    ensures { result ≡ is_below side game.now above.0 set.0 }
{
    for n in 0..game.len() {
        if is_of_set(game.node(n), side, above) && holds_below(game, side, set, n) {
            return true;
        }
    }
    false
}

/// Whether a set is this one or below it.
fn is_under(game: &Game, side: Side, above: SetId, set: SetId) -> bool
    ensures { result ≡ is_under side game.now above.0 set.0 }
{
    set.0 == above.0 || is_below(game, side, above, set)
}

/// The full choice at a set and at every set below it, and the plan elsewhere.
pub fn graft(
    alloc: Global,
    game: &Game,
    side: Side,
    above: SetId,
    choice: &Choice,
    plan: &Plan,
) -> Result<Plan, NoMemory>
    requires chosen { length choice.now ≡ length plan.now }
    requires few { length plan.now ≤ 4096 }
    ensures { IfOk result (λ grafted. grafted ≡ graft side game.now above.0 choice.now plan.now) }
{
    let mut entries = Vec::new(alloc);
    for set in 0..plan.len() {
        if is_under(game, side, above, SetId(set as u32)) {
            entries.push(Some(*choice.at(set)))?;
        } else {
            entries.push(plan.at(SetId(set as u32)))?;
        }
    }
    Ok(Plan::from_list(entries))
}
