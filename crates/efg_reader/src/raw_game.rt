ghost use Rattle.std.specs.Prelude.{◌≡◌, ◌<◌, ◌++◌, ◌∷◌, [], length, slice_get, Some, OnErr, OnOk};
ghost use Rattle.efg_reader.specs.RawGame.{RawGameView, IsRawGame, raw_sets};

use corr_game::{NodeList, SetId, SetInfo, Side};
use corr_num::Frac;
use std::alloc::{AllocError as NoMemory, Global};
use std::marker::Model;

/// Fractions in a row.
#[derive(Debug, Drop)]
pub struct FracList {
    fracs: Vec<Frac>,
}

impl Model for FracList {
    ghost use Rattle.std.specs.Prelude.{List};
    ghost use Rattle.corr_num.specs.Fraction.{Fraction};

    ghost Value = { List Fraction };

    ghost view = { λ a. a.fracs.items };
}

impl FracList {
    pub fn new(alloc: Global) -> FracList
        ensures empty { result ≡ [] }
    {
        FracList {
            fracs: Vec::new(alloc),
        }
    }

    pub fn push(&mut self, item: Frac) -> Result<(), NoMemory>
        ensures ok { OnOk result (self.new ≡ self.old ++ item ∷ []) }
        ensures err { OnErr result (self.new ≡ self.old) }
    {
        self.fracs.push(item)?;
        Ok(())
    }

    pub fn len(&self) -> usize
        ensures count { result ≡ length self.now }
    {
        self.fracs.len()
    }

    pub fn at(&self, k: usize) -> &Frac
        requires { k < length self.now }
        ensures item { slice_get self.now k ≡ Some result.now }
    {
        &self.fracs[k]
    }
}

/// What happens at a node: nothing more, a draw, or a choice. A chance node has one probability per kid.
#[derive(Debug, Drop)]
pub enum Shape {
    Leaf,
    Chance {
        kids: NodeList,
        probs: FracList,
    },
    Choice {
        side: Side,
        set: SetId,
        kids: NodeList,
    },
}

/// A node of the file, with the payoffs of its own outcome.
#[derive(Debug, Drop)]
pub struct RawNode {
    pub shape: Shape,
    pub one: Frac,
    pub two: Frac,
}

/// The nodes of a game in file order, and the sets of each player.
#[derive(Debug, Drop)]
pub struct RawParts {
    pub nodes: Vec<RawNode>,
    pub one: Vec<SetInfo>,
    pub two: Vec<SetInfo>,
}

/// A game as its file says, before payoffs are summed along paths and scaled.
#[derive(Debug, Drop)]
pub struct RawGame {
    nodes: Vec<RawNode>,
    one: Vec<SetInfo>,
    two: Vec<SetInfo>,
}

impl Model for RawGame {
    ghost use Rattle.efg_reader.specs.RawGame.{RawGameView, IsRawGame};

    ghost Value = { RawGameView };

    ghost view = { λ a. record { nodes = a.nodes.items; one = a.one.items; two = a.two.items } };

    ghost invariant = { λ a. IsRawGame record { nodes = a.nodes.items; one = a.one.items; two = a.two.items } };
}

impl RawGame {
    pub(crate) fn of(nodes: Vec<RawNode>, one: Vec<SetInfo>, two: Vec<SetInfo>) -> RawGame
        requires { IsRawGame record { nodes = nodes.items; one = one.items; two = two.items } }
        ensures made { result ≡ record { nodes = nodes.items; one = one.items; two = two.items } }
    {
        RawGame { nodes, one, two }
    }

    /// The number of nodes.
    pub fn len(&self) -> u32
        ensures count { result ≡ length self.now.nodes }
        ensures rules { IsRawGame self.now }
    {
        self.nodes.len() as u32
    }

    pub fn node(&self, n: u32) -> &RawNode
        requires { n < length self.now.nodes }
        ensures item { slice_get self.now.nodes n ≡ Some result.now }
        ensures rules { IsRawGame self.now }
    {
        &self.nodes[n as usize]
    }

    /// The nodes and the sets, to be taken over.
    pub fn into_parts(self) -> RawParts
        ensures nodes { result.nodes.items ≡ self.nodes }
        ensures one { result.one.items ≡ self.one }
        ensures two { result.two.items ≡ self.two }
    {
        RawParts {
            nodes: self.nodes,
            one: self.one,
            two: self.two,
        }
    }

    /// The number of a player's sets.
    pub fn sets(&self, side: Side) -> u32
        ensures count { result ≡ length (raw_sets side self.now) }
    {
        match side {
            Side::One => self.one.len() as u32,
            Side::Two => self.two.len() as u32,
        }
    }

    pub fn set(&self, side: Side, set: SetId) -> &SetInfo
        requires { set.0 < length (raw_sets side self.now) }
        ensures item { slice_get (raw_sets side self.now) set.0 ≡ Some result.now }
    {
        match side {
            Side::One => &self.one[set.0 as usize],
            Side::Two => &self.two[set.0 as usize],
        }
    }
}
