ghost use Rattle.std.specs.Prelude.{◌≡◌, ◌<◌, ◌↔◌, IsTrue, IfOk, length, slice_get, slice_index, Some};
ghost use Rattle.tree_recall.specs.LastMove.{IsRecallOf};
ghost use Rattle.corr_game.specs.Game.{sets_of};
ghost use Rattle.sequences.specs.Number.{Ends, Holds, IsAt, IsOwn, IsSeqsOf, IsSide, IsSideOf, IsUnder, Plays, count_of, last_of, side_of};

use crate::nodes::node_seqs;
use crate::numbers::{Move, number};
use crate::places::Place;
use corr_game::{Game, Plan, SetId, Side};
use std::alloc::{AllocError as NoMemory, Global};
use std::marker::Model;
use tree_recall::Recalled;

/// One player's sequences.
#[derive(Debug, Drop)]
struct SideSeqs {
    places: Vec<Place>,
    lasts: Vec<Move>,
    nodes: Vec<u32>,
}

/// Both players' sequences by number.
#[derive(Debug, Drop)]
pub struct Seqs {
    one: SideSeqs,
    two: SideSeqs,
}

impl Model for Seqs {
    ghost use Rattle.sequences.specs.Number.{SeqsView, IsSide};

    ghost Value = { SeqsView };

    ghost view = { λ a. record {
      one = record { places = a.one.places.items; lasts = a.one.lasts.items; nodes = a.one.nodes.items };
      two = record { places = a.two.places.items; lasts = a.two.lasts.items; nodes = a.two.nodes.items };
    } };

    ghost invariant = { λ a.
        IsSide record { places = a.one.places.items; lasts = a.one.lasts.items; nodes = a.one.nodes.items }
        × IsSide record { places = a.two.places.items; lasts = a.two.lasts.items; nodes = a.two.nodes.items } };
}

impl Seqs {
    /// The sequences of a game whose recalled moves are these.
    pub fn of(alloc: Global, game: &Game, recalled: Recalled) -> Result<Seqs, NoMemory>
        requires { IsRecallOf game.now recalled }
        ensures { IfOk result (λ seqs. IsSeqsOf game.now seqs) }
    {
        let one = side_seqs(alloc, game, &recalled, Side::One)?;
        let two = side_seqs(alloc, game, &recalled, Side::Two)?;
        Ok(Seqs { one, two })
    }

    fn side(&self, side: Side) -> &SideSeqs
        ensures places { result.now.places.items ≡ (side_of side self.now).places }
        ensures lasts { result.now.lasts.items ≡ (side_of side self.now).lasts }
        ensures nodes { result.now.nodes.items ≡ (side_of side self.now).nodes }
        ensures rules { IsSide (side_of side self.now) }
    {
        match side {
            Side::One => &self.one,
            Side::Two => &self.two,
        }
    }

    /// The number of a player's sequences.
    pub fn count(&self, side: Side) -> u32
        ensures count { result ≡ count_of (side_of side self.now) }
        ensures rules { IsSide (side_of side self.now) }
    {
        self.side(side).lasts.len() as u32 + 1
    }

    /// The last move of a sequence; the empty one has none.
    pub fn last(&self, side: Side, seq: u32) -> Option<Move>
        requires { seq < count_of (side_of side self.now) }
        ensures taken { result ≡ last_of (side_of side self.now) seq }
        ensures rules { IsSide (side_of side self.now) }
    {
        let numbers = self.side(side);
        if seq == 0 {
            None
        } else {
            Some(numbers.lasts[seq as usize - 1])
        }
    }

    /// The number of the sequence that ends with this move.
    pub fn number(&self, side: Side, set: SetId, action: u32) -> u32
        requires { IsAt (side_of side self.now).places (set, action) }
        ensures { Ends (side_of side self.now).places (set, action) result }
    {
        self.side(side).places[set.0 as usize].first + action
    }

    /// The number of a set's own sequence.
    pub fn own(&self, side: Side, set: SetId) -> u32
        requires { set.0 < length (side_of side self.now).places }
        ensures number { IsOwn (side_of side self.now) set.0 result }
        ensures rules { IsSide (side_of side self.now) }
    {
        self.side(side).places[set.0 as usize].own
    }

    /// The number of the player's sequence at a leaf, and so at any node.
    pub fn leaf(&self, side: Side, node: u32) -> u32
        requires { node < length (side_of side self.now).nodes }
        ensures { result ≡ slice_index (side_of side self.now).nodes node }
    {
        self.side(side).nodes[node as usize]
    }

    /// Whether a set is `above` or its own sequence holds a choice there.
    pub fn under(&self, side: Side, set: SetId, above: SetId) -> bool
        requires { set.0 < length (side_of side self.now).places }
        ensures { IsTrue result ↔ IsUnder (side_of side self.now) set.0 above.0 }
    {
        set.0 == above.0 || self.holds(side, self.own(side, set), above)
    }

    /// Whether a sequence holds a choice at this set.
    fn holds(&self, side: Side, seq: u32, above: SetId) -> bool
        requires { seq < count_of (side_of side self.now) }
        ensures { IsTrue result ↔ Holds (side_of side self.now) above.0 seq }
    {
        match self.last(side, seq) {
            None => false,
            Some(taken) => {
                taken.0.0 == above.0 || self.holds(side, self.own(side, taken.0), above)
            }
        }
    }

    /// Whether a plan names every choice of a sequence.
    pub fn plays(&self, side: Side, plan: &Plan, seq: u32) -> bool
        requires known { seq < count_of (side_of side self.now) }
        requires per_set { length plan.now ≡ length (side_of side self.now).places }
        ensures { IsTrue result ↔ Plays (side_of side self.now) plan.now seq }
    {
        match self.last(side, seq) {
            None => true,
            Some(taken) => { names(plan, taken) && self.plays(side, plan, self.own(side, taken.0)) }
        }
    }
}

/// Whether a plan names this move.
fn names(plan: &Plan, taken: Move) -> bool
    requires { taken.0.0 < length plan.now }
    ensures { IsTrue result ↔ (slice_get plan.now taken.0.0 ≡ Some (Some taken.1)) }
{
    match plan.at(taken.0) {
        None => false,
        Some(action) => action == taken.1,
    }
}

fn side_seqs(
    alloc: Global,
    game: &Game,
    recalled: &Recalled,
    side: Side,
) -> Result<SideSeqs, NoMemory>
    requires { IsRecallOf game.now recalled.now }
    ensures rules { IfOk result
        (λ s. IsSide record { places = s.places.items; lasts = s.lasts.items; nodes = s.nodes.items }) }
    ensures of { IfOk result
        (λ s. IsSideOf side game.now record { places = s.places.items; lasts = s.lasts.items; nodes = s.nodes.items }) }
{
    let numbers = number(alloc, game, recalled, side)?;
    let nodes = node_seqs(alloc, game, side, &numbers)?;
    Ok(SideSeqs {
        places: numbers.places,
        lasts: numbers.lasts,
        nodes,
    })
}
