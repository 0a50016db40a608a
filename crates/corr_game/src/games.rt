ghost use Rattle.std.specs.Prelude.{◌≡◌, ◌<◌, length, slice_get, Some};
ghost use Rattle.corr_game.specs.Game.{GameView, IsGame, sets_of, scale_of};

use crate::nodes::{Node, SetId, SetInfo};
use crate::sides::Side;
use std::marker::Model;

/// A finite two-player game with information sets, its payoffs scaled to whole amounts.
#[derive(Debug, Drop)]
pub struct Game {
    nodes: Vec<Node>,
    one: Vec<SetInfo>,
    two: Vec<SetInfo>,
    scale_one: i64,
    scale_two: i64,
}

impl Model for Game {
    ghost use Rattle.corr_game.specs.Game.{GameView, IsGame};

    ghost Value = { GameView };

    ghost view = { λ a. record {
      nodes = a.nodes.items;
      one = a.one.items;
      two = a.two.items;
      scale_one = a.scale_one;
      scale_two = a.scale_two;
    } };

    ghost invariant = { λ a. IsGame record {
      nodes = a.nodes.items;
      one = a.one.items;
      two = a.two.items;
      scale_one = a.scale_one;
      scale_two = a.scale_two;
    } };
}

impl Game {
    /// Sets and amounts are numbered and scaled as the caller says; the two lists of sets are of player 1 and 2.
    pub fn of(
        nodes: Vec<Node>,
        one: Vec<SetInfo>,
        two: Vec<SetInfo>,
        scale_one: i64,
        scale_two: i64,
    ) -> Game
        requires { IsGame record {
          nodes = nodes.items;
          one = one.items;
          two = two.items;
          scale_one = scale_one;
          scale_two = scale_two;
        } }
        ensures made { result
            ≡ record {
              nodes = nodes.items;
              one = one.items;
              two = two.items;
              scale_one = scale_one;
              scale_two = scale_two;
            } }
    {
        Game {
            nodes,
            one,
            two,
            scale_one,
            scale_two,
        }
    }

    /// The number of nodes.
    pub fn len(&self) -> u32
        ensures count { result ≡ length self.now.nodes }
        ensures rules { IsGame self.now }
    {
        self.nodes.len() as u32
    }

    /// The number of the root.
    pub(crate) fn root(&self) -> u32
        ensures first { result ≡ 0 }
        ensures in_range { 0 < length self.now.nodes }
    {
        let _ = &self.nodes;
        0
    }

    pub fn node(&self, n: u32) -> &Node
        requires { n < length self.now.nodes }
        ensures item { slice_get self.now.nodes n ≡ Some result.now }
        ensures rules { IsGame self.now }
    {
        &self.nodes[n as usize]
    }

    /// The number of a player's sets.
    pub fn sets(&self, side: Side) -> u32
        ensures count { result ≡ length (sets_of side self.now) }
        ensures rules { IsGame self.now }
    {
        match side {
            Side::One => self.one.len() as u32,
            Side::Two => self.two.len() as u32,
        }
    }

    pub fn set(&self, side: Side, set: SetId) -> &SetInfo
        requires { set.0 < length (sets_of side self.now) }
        ensures item { slice_get (sets_of side self.now) set.0 ≡ Some result.now }
        ensures rules { IsGame self.now }
    {
        match side {
            Side::One => &self.one[set.0 as usize],
            Side::Two => &self.two[set.0 as usize],
        }
    }

    /// By how much the file's payoffs of this player were multiplied.
    pub fn scale(&self, side: Side) -> i64
        ensures number { result ≡ scale_of side self.now }
        ensures rules { IsGame self.now }
    {
        match side {
            Side::One => self.scale_one,
            Side::Two => self.scale_two,
        }
    }
}
