ghost use Rattle.std.specs.Prelude.{◌≡◌, ◌<◌, ◌+◌, ◌≤ℤ◌, ℕ, ℤ, pos, List, length, slice_get, slice_set, Some, None, IfNone, IfOk, IfSome};
ghost use Rattle.corr_game.specs.declared.sides.Side.TheVariants.{One, Two};
ghost use Rattle.sequences.specs.Number.{Ends, side_of};
ghost use Rattle.connected_pairs.specs.Connected.{IsPairs, IsPairsOf, other, touches};
ghost use Rattle.plan_decompose.specs.Fair.{IsCentre, IsFair, IsLongest, IsNext, IsNotOne, IsOnlyJoined};
ghost use Rattle.plan_decompose.specs.OpenSets.{AreOpened};
ghost use Rattle.plan_decompose.specs.Solution.{IsSolution, value_of};
ghost use Rattle.plan_decompose.specs.Walk.{IsActionOf, IsFresh, IsOpenOf, IsSideWalk, IsWalk, NoneOpen, part_of, unchosen, unsettled};

use crate::actions::positive_action;
use crate::opens::{Open, first_open, move_beside, only_joined, open_after};
use connected_pairs::Pairs;
use corr_game::{Game, Side};
use std::alloc::{AllocError as NoMemory, Global};

/// One player's part of a walk, by set.
#[derive(Debug, Drop)]
pub struct SideWalk {
    /// The action chosen at the set, if there is one yet.
    pub actions: Vec<Option<u32>>,
    /// Where the set is open, the sequence of the other player that stands beside it.
    pub beside: Vec<Option<u32>>,
}

/// A walk that chooses a plan of each player, set by set. A set is open where the actions chosen so far lead to it and
/// its own isn't chosen yet.
#[derive(Debug, Drop)]
pub struct Walk {
    pub one: SideWalk,
    pub two: SideWalk,
}

impl SideWalk {
    fn start(alloc: Global, game: &Game, pairs: &Pairs, side: Side) -> Result<SideWalk, NoMemory>
        requires { IsPairsOf game.now pairs.now }
        ensures walk { IfOk result (λ walk. IsSideWalk side game.now pairs.now walk) }
        ensures fresh { IfOk result
            (λ walk. IsFresh (side_of side pairs.now.seqs) walk.actions.items walk.beside.items) }
    {
        let sets = game.sets(side) as usize;
        let actions = vec![in alloc; None; sets]?;
        let mut beside = vec![in alloc; None; sets]?;
        open_after(game, pairs, (side, 0), 0, &mut beside);
        Ok(SideWalk { actions, beside })
    }

    /// Puts the action in, whose move ends sequence `seq`, and opens the sets that it leads to.
    fn choose(&mut self, game: &Game, pairs: &Pairs, at: Open, action: u32, seq: u32)
        requires whose { IsPairsOf game.now pairs.now }
        requires rules { IsPairs pairs.now }
        requires before { IsSideWalk at.side game.now pairs.now self.old }
        requires is_open { slice_get self.old.beside.items at.set.0 ≡ Some (Some at.beside) }
        requires named { IsActionOf at.side game.now at.set.0 action }
        requires numbered { Ends (side_of at.side pairs.now.seqs).places (at.set, action) seq }
        ensures walk { IsSideWalk at.side game.now pairs.now self.new }
        ensures fewer { unchosen self.new.actions.items + 1 ≡ unchosen self.old.actions.items }
        ensures chosen { self.new.actions.items ≡ slice_set self.old.actions.items at.set.0 (Some action) }
        ensures opened { AreOpened (side_of at.side pairs.now.seqs) seq at.beside (slice_set self.old.beside.items at.set.0 None) self.new.beside.items }
    {
        self.actions[at.set.0 as usize] = Some(action);
        self.beside[at.set.0 as usize] = None;
        open_after(game, pairs, (at.side, seq), at.beside, &mut self.beside);
    }
}

impl Walk {
    /// No action is chosen, and the sets that come first are open.
    pub fn start(alloc: Global, game: &Game, pairs: &Pairs) -> Result<Walk, NoMemory>
        requires { IsPairsOf game.now pairs.now }
        ensures walk { IfOk result (λ walk. IsWalk game.now pairs.now walk) }
        ensures fair { (values : List ℤ) → IsSolution pairs.now values → IfOk result (λ walk. IsFair pairs.now values walk) }
    {
        Ok(Walk {
            one: SideWalk::start(alloc, game, pairs, Side::One)?,
            two: SideWalk::start(alloc, game, pairs, Side::Two)?,
        })
    }

    /// The open set to settle next, if one is left: the only one that is connected to the first, or else the first.
    ///
    /// Open sets that are connected make stars, because three connections in a row would be a triangle. So this is
    /// the centre of the star of the first one.
    pub fn next(&self, game: &Game, pairs: &Pairs) -> Option<Open>
        requires whose { IsPairsOf game.now pairs.now }
        requires before { IsWalk game.now pairs.now self.now }
        ensures none { IfNone result (NoneOpen self.now) }
        ensures some { IfSome result (λ at. IsOpenOf self.now at) }
        ensures chosen { IfSome result (λ at. IsNext pairs.now self.now at) }
    {
        let first = self.first(game)?;
        match self.near(game, pairs, first) {
            Some(centre) => Some(centre),
            None => Some(first),
        }
    }

    fn first(&self, game: &Game) -> Option<Open>
        requires one_per_set { length self.now.one.beside.items ≡ length game.now.one }
        requires two_per_set { length self.now.two.beside.items ≡ length game.now.two }
        ensures none { IfNone result (NoneOpen self.now) }
        ensures some { IfSome result (λ at. IsOpenOf self.now at) }
    {
        match first_open(game, Side::One, &self.one.beside) {
            Some(first) => Some(first),
            None => first_open(game, Side::Two, &self.two.beside),
        }
    }

    /// The only open set that is connected to this one, if there is exactly one.
    fn near(&self, game: &Game, pairs: &Pairs, first: Open) -> Option<Open>
        requires whose { IsPairsOf game.now pairs.now }
        requires before { IsWalk game.now pairs.now self.now }
        requires is_open { IsOpenOf self.now first }
        ensures some { IfSome result
            (λ at. IsOpenOf self.now at × (at.side ≡ other first.side) × IsOnlyJoined (touches pairs.now first.side first.set.0) (part_of (other first.side) self.now).beside.items at.set.0) }
        ensures none { IfNone result (IsNotOne (touches pairs.now first.side first.set.0) (part_of (other first.side) self.now).beside.items) }
    {
        match first.side {
            Side::One => only_joined(game, pairs, first, &self.two.beside),
            Side::Two => only_joined(game, pairs, first, &self.one.beside),
        }
    }

    /// Chooses an action of positive value at an open set.
    pub fn settle(&mut self, game: &Game, pairs: &Pairs, values: &[i128], at: Open)
        requires whose { IsPairsOf game.now pairs.now }
        requires rules { IsPairs pairs.now }
        requires per_pair { length values.now ≡ length pairs.now.pairs }
        requires before { IsWalk game.now pairs.now self.old }
        requires is_open { IsOpenOf self.old at }
        requires solution { IsSolution pairs.now values.now }
        requires fair { IsFair pairs.now values.now self.old }
        requires next { IsNext pairs.now self.old at }
        ensures walk { IsWalk game.now pairs.now self.new }
        ensures fewer { unsettled self.new + 1 ≡ unsettled self.old }
        ensures fair { IsFair pairs.now values.now self.new }
    {
        let action = positive_action(game, pairs, values, at).unwrap();
        self.choose(game, pairs, at, action);
    }

    /// Chooses an action at an open set. The other player's open sets that are connected to it stand beside the move
    /// from then on.
    fn choose(&mut self, game: &Game, pairs: &Pairs, at: Open, action: u32)
        requires whose { IsPairsOf game.now pairs.now }
        requires rules { IsPairs pairs.now }
        requires before { IsWalk game.now pairs.now self.old }
        requires is_open { IsOpenOf self.old at }
        requires named { IsActionOf at.side game.now at.set.0 action }
        ensures walk { IsWalk game.now pairs.now self.new }
        ensures fewer { unsettled self.new + 1 ≡ unsettled self.old }
        ensures fair { (values : List ℤ) (near : ℕ) → IsSolution pairs.now values → IsFair pairs.now values self.old → IsCentre pairs.now self.old at
            → IsLongest pairs.now (other at.side) at.set.0 at.beside near
            → ((seq : ℕ) → Ends (side_of at.side pairs.now.seqs).places (at.set, action) seq → pos 1 ≤ℤ value_of pairs.now values at.side seq near)
            → IsFair pairs.now values self.new }
    {
        let seq = pairs.seqs().number(at.side, at.set, action);
        match at.side {
            Side::One => {
                self.one.choose(game, pairs, at, action, seq);
                move_beside(game, pairs, (at.side, at.set), seq, &mut self.two.beside);
            }
            Side::Two => {
                self.two.choose(game, pairs, at, action, seq);
                move_beside(game, pairs, (at.side, at.set), seq, &mut self.one.beside);
            }
        }
    }
}
