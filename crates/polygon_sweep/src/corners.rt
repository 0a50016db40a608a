ghost use Rattle.std.specs.Prelude.{◌≡◌, ◌<◌, ◌++◌, ◌∷◌, [], length, slice_get, Some, OnErr, OnOk};

use lp_form::NumList;
use plane_hull::SideList;
use std::alloc::{AllocError as NoMemory, Global};
use std::marker::Model;

/// A corner in scaled payoffs, and a solution of the program there: both payoffs and the values of the program's columns
/// are numerators over `den`.
#[derive(Debug, Drop)]
pub struct SweptCorner {
    pub one: i128,
    pub two: i128,
    pub den: i128,
    pub values: NumList,
}

/// Corners, counter-clockwise from the greatest first payoff.
#[derive(Debug, Drop)]
pub struct CornerList {
    corners: Vec<SweptCorner>,
}

impl Model for CornerList {
    ghost use Rattle.std.specs.Prelude.{List};
    ghost use Rattle.polygon_sweep.specs.declared.corners.SweptCorner.{SweptCorner};

    ghost Value = { List SweptCorner };

    ghost view = { λ a. a.corners.items };
}

impl CornerList {
    pub fn new(alloc: Global) -> CornerList
        ensures empty { result ≡ [] }
    {
        CornerList {
            corners: Vec::new(alloc),
        }
    }

    pub fn push(&mut self, item: SweptCorner) -> Result<(), NoMemory>
        ensures ok { OnOk result (self.new ≡ self.old ++ item ∷ []) }
        ensures err { OnErr result (self.new ≡ self.old) }
    {
        self.corners.push(item)?;
        Ok(())
    }

    pub fn len(&self) -> usize
        ensures count { result ≡ length self.now }
    {
        self.corners.len()
    }

    pub fn at(&self, k: usize) -> &SweptCorner
        requires { k < length self.now }
        ensures item { slice_get self.now k ≡ Some result.now }
    {
        &self.corners[k]
    }
}

/// The corners of a polygon, and its sides in the order of the belt.
#[derive(Debug, Drop)]
pub struct Swept {
    pub corners: CornerList,
    pub sides: SideList,
}
