ghost use Rattle.std.specs.Prelude.{◌≡◌, ◌<◌, ℕ, length, slice_get, IfNone, IfSome, Some};
ghost use Rattle.corr_game.specs.Game.{sets_of};
ghost use Rattle.sequences.specs.Number.{IsSideOf, side_of};
ghost use Rattle.connected_pairs.specs.Connected.{other, touches};
ghost use Rattle.plan_decompose.specs.Fair.{IsNotOne, IsOnlyJoined, Waits};
ghost use Rattle.plan_decompose.specs.OpenSets.{AreMoved, AreOpened};

use connected_pairs::Pairs;
use corr_game::{Game, SetId, Side};

/// An open set, and the sequence of the other player that stands beside it.
#[derive(Clone, Copy, Debug)]
pub struct Open {
    pub side: Side,
    pub set: SetId,
    pub beside: u32,
}

/// The first open set of a player.
pub fn first_open(game: &Game, side: Side, beside: &[Option<u32>]) -> Option<Open>
    requires { length beside.now ≡ length (sets_of side game.now) }
    ensures none { IfNone result ((set t : ℕ) → slice_get beside.now set ≡ Some (Some t) → ⊥) }
    ensures some { IfSome result (λ at. (at.side ≡ side) × (slice_get beside.now at.set.0 ≡ Some (Some at.beside))) }
{
    for set in 0..game.sets(side) {
        if let Some(sequence) = beside[set as usize] {
            return Some(Open {
                side,
                set: SetId(set),
                beside: sequence,
            });
        }
    }
    None
}

/// The only open set of the other player that is connected to this one, if there is exactly one.
pub fn only_joined(game: &Game, pairs: &Pairs, first: Open, beside: &[Option<u32>]) -> Option<Open>
    requires sides { (side : Side) → IsSideOf side game.now (side_of side pairs.now.seqs) }
    requires per_set { length beside.now ≡ length (sets_of (other first.side) game.now) }
    requires known { first.set.0 < length (sets_of first.side game.now) }
    ensures some { IfSome result
        (λ at. (at.side ≡ other first.side) × Waits beside.now at.set.0 at.beside × IsOnlyJoined (touches pairs.now first.side first.set.0) beside.now at.set.0) }
    ensures none { IfNone result (IsNotOne (touches pairs.now first.side first.set.0) beside.now) }
{
    let side = other_side(first.side);
    let mut only = None;
    for set in 0..game.sets(side) {
        let Some(sequence) = beside[set as usize] else {
            continue;
        };
        if !pairs.touches(first.side, first.set, SetId(set)) {
            continue;
        }
        if only.is_some() {
            return None;
        }
        only = Some(Open {
            side,
            set: SetId(set),
            beside: sequence,
        });
    }
    only
}

/// Opens the sets of a player that come right after a sequence, each beside the same one of the other player.
pub fn open_after(
    game: &Game,
    pairs: &Pairs,
    after: (Side, u32),
    sequence: u32,
    beside: &mut Vec<Option<u32>>,
)
    requires sides { (side : Side) → IsSideOf side game.now (side_of side pairs.now.seqs) }
    requires per_set { length beside.old.items ≡ length (sets_of after.0 game.now) }
    ensures { AreOpened (side_of after.0 pairs.now.seqs) after.1 sequence beside.old.items beside.new.items }
{
    for set in 0..game.sets(after.0) {
        if pairs.seqs().own(after.0, SetId(set)) == after.1 {
            beside[set as usize] = Some(sequence);
        }
    }
}

/// Puts the open sets of the other player that are connected to a settled one beside the sequence that it ends now.
pub fn move_beside(
    game: &Game,
    pairs: &Pairs,
    settled: (Side, SetId),
    sequence: u32,
    beside: &mut Vec<Option<u32>>,
)
    requires sides { (side : Side) → IsSideOf side game.now (side_of side pairs.now.seqs) }
    requires per_set { length beside.old.items ≡ length (sets_of (other settled.0) game.now) }
    requires known { settled.1.0 < length (sets_of settled.0 game.now) }
    ensures { AreMoved pairs.now settled.0 settled.1.0 sequence beside.old.items beside.new.items }
{
    for set in 0..game.sets(other_side(settled.0)) {
        if beside[set as usize].is_some() && pairs.touches(settled.0, settled.1, SetId(set)) {
            beside[set as usize] = Some(sequence);
        }
    }
}

/// The other player.
pub fn other_side(side: Side) -> Side
    ensures { result ≡ other side }
{
    match side {
        Side::One => Side::Two,
        Side::Two => Side::One,
    }
}
