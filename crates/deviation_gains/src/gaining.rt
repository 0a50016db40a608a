// Whether a player gains by a deviation of a notion, one trigger at a time.
ghost use Rattle.std.specs.Prelude.{◌≡◌, ◌↔◌, ◌<◌, false, All, length, slice_get, IfOk, Some};
ghost use Rattle.corr_game.specs.declared.nodes.SetInfo.{SetInfo};
ghost use Rattle.sequences.specs.Number.{Ends, count_of, side_of};
ghost use Rattle.equilibrium.specs.declared.triggers.Trigger.{Trigger as Deviation};
ghost use Rattle.equilibrium.specs.Deviation.{IsTriggerOf};
ghost use Rattle.equilibrium.specs.Distribution.{IsEntry, entries_of};
ghost use Rattle.equilibrium.specs.Equilibrium.{NoneImproves, no_slack};
ghost use Rattle.equilibrium_solutions.specs.Values.{IsProgramTrigger, stands_for, top_of};
ghost use Rattle.report_form.specs.Ranges.{IsPair};
ghost use Rattle.deviation_gains.specs.Gains.{AreGiven, NoneGains, NoneGainsAt};
ghost use Rattle.corr_game.specs.declared.notions.Notion.{Notion};
ghost use Rattle.corr_game.specs.declared.notions.Notion.TheVariants.{Efce, Nfcce};
ghost use Rattle.corr_game.specs.Game.{sets_of};
ghost use Rattle.connected_pairs.specs.Connected.{IsPairsOf};
ghost use Rattle.deviation_gains.specs.Planned.{AreDrawn};
ghost use Rattle.deviation_gains.specs.Triggers.{IsKnown};

use crate::deviations::{Trigger, best_left, followed};
use connected_pairs::Pairs;
use corr_game::{Game, Notion, PairList, SetId, Side};
use std::alloc::{AllocError as NoMemory, Global};

/// Whether a player gains by leaving at one of the notion's triggers.
pub fn gains(
    alloc: Global,
    game: &Game,
    pairs: &Pairs,
    list: &PairList,
    at: (Notion, Side),
) -> Result<bool, NoMemory>
    requires whose { IsPairsOf game.now pairs.now }
    requires drawn { AreDrawn game.now list.now }
    requires entries { All (IsEntry game.now) (entries_of list.now) }
    requires ranges { All IsPair list.now }
    ensures exact { IfOk result (λ gained. (gained ≡ false) ↔ NoneImproves at.0 at.1 game.now no_slack (entries_of list.now)) }
{
    let (notion, side) = at;
    // Read for their rules alone.
    let _ = (game.len(), pairs.len());
    if notion == Notion::Nfcce {
        return gains_by(
            alloc,
            game,
            pairs,
            list,
            &Trigger {
                side,
                set: None,
                seq: 0,
            },
        );
    }
    for set in 0..game.sets(side) {
        if gains_at(alloc, game, pairs, list, (notion, side, SetId(set)))? {
            return Ok(true);
        }
    }
    Ok(false)
}

/// The triggers at a set: in EFCE one for each action, in EFCCE one.
fn gains_at(
    alloc: Global,
    game: &Game,
    pairs: &Pairs,
    list: &PairList,
    at: (Notion, Side, SetId),
) -> Result<bool, NoMemory>
    requires whose { IsPairsOf game.now pairs.now }
    requires drawn { AreDrawn game.now list.now }
    requires known { at.2.0 < length (sets_of at.1 game.now) }
    ensures exact { IfOk result (λ gained. AreGiven game.now pairs.now list.now → (at.0 ≡ Nfcce → ⊥)
        → (gained ≡ false) ↔ NoneGainsAt at.0 at.1 game.now (entries_of list.now) at.2.0) }
{
    let (notion, side, set) = at;
    if notion == Notion::Efce {
        return gains_at_moves(alloc, game, pairs, list, (side, set));
    }
    let trigger = Trigger {
        side,
        set: Some(set),
        seq: pairs.seqs().own(side, set),
    };
    gains_by(alloc, game, pairs, list, &trigger)
}

fn gains_at_moves(
    alloc: Global,
    game: &Game,
    pairs: &Pairs,
    list: &PairList,
    at: (Side, SetId),
) -> Result<bool, NoMemory>
    requires whose { IsPairsOf game.now pairs.now }
    requires drawn { AreDrawn game.now list.now }
    requires known { at.1.0 < length (sets_of at.0 game.now) }
    ensures exact { IfOk result (λ gained. AreGiven game.now pairs.now list.now
        → (gained ≡ false) ↔ NoneGainsAt Efce at.0 game.now (entries_of list.now) at.1.0) }
{
    let (side, set) = at;
    for action in 0..game.set(side, set).actions {
        let trigger = Trigger {
            side,
            set: Some(set),
            seq: seq_with(game, pairs, at, action),
        };
        if gains_by(alloc, game, pairs, list, &trigger)? {
            return Ok(true);
        }
    }
    Ok(false)
}

/// The sequence that ends with a move.
fn seq_with(game: &Game, pairs: &Pairs, at: (Side, SetId), action: u32) -> u32
    requires whose { IsPairsOf game.now pairs.now }
    requires known { (info : SetInfo) × (slice_get (sets_of at.0 game.now) at.1.0 ≡ Some info) × (action < info.actions) }
    ensures in_range { result < count_of (side_of at.0 pairs.now.seqs) }
    ensures ends { Ends (side_of at.0 pairs.now.seqs).places (at.1, action) result }
{
    let _ = game;
    let count = pairs.seqs().count(at.0);
    let seq = pairs.seqs().number(at.0, at.1, action);
    prove!(seq < count);
    seq
}

fn gains_by(
    alloc: Global,
    game: &Game,
    pairs: &Pairs,
    list: &PairList,
    trigger: &Trigger,
) -> Result<bool, NoMemory>
    requires whose { IsPairsOf game.now pairs.now }
    requires drawn { AreDrawn game.now list.now }
    requires known { IsKnown pairs.now.seqs trigger.now }
    ensures exact { IfOk result (λ gained. (notion : Notion) (left : Deviation) → AreGiven game.now pairs.now list.now
        → IsTriggerOf notion game.now trigger.now.side left
        → IsProgramTrigger notion game.now pairs.now trigger.now.side (stands_for trigger.now.side left trigger.now.seq)
        → trigger.now.set ≡ top_of left
        → (gained ≡ false) ↔ NoneGains trigger.now.side game.now (entries_of list.now) left) }
{
    let best = best_left(alloc, game, pairs, list, trigger)?;
    Ok(best > followed(game, pairs, list, trigger))
}
