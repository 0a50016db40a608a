ghost use Rattle.std.specs.Prelude.{◌≡◌, ◌<◌, ◌++◌, ◌∷◌, [], length, slice_get, Some, OnErr, OnOk};

use crate::directions::Dir;
use corr_num::Frac;
use lp_form::NumList;
use std::alloc::{AllocError as NoMemory, Global};
use std::marker::Model;

/// A pair of payoffs.
#[derive(Clone, Copy, Debug, PartialEq, Eq)]
pub struct Point {
    pub one: Frac,
    pub two: Frac,
}

/// A side of a polygon: no point of it lies further in the direction than the corner with this number. The multipliers
/// of the two payoff rows, over the common denominator `den`, certify it.
#[derive(Debug, Drop)]
pub struct SideRow {
    pub dir: Dir,
    pub corner: usize,
    pub den: i128,
    pub first: NumList,
    pub second: NumList,
}

/// Sides in the order of the belt.
#[derive(Debug, Drop)]
pub struct SideList {
    sides: Vec<SideRow>,
}

impl Model for SideList {
    ghost use Rattle.std.specs.Prelude.{List};
    ghost use Rattle.plane_hull.specs.declared.sides.SideRow.{SideRow};

    ghost Value = { List SideRow };

    ghost view = { λ a. a.sides.items };
}

impl SideList {
    pub fn new(alloc: Global) -> SideList
        ensures empty { result ≡ [] }
    {
        SideList {
            sides: Vec::new(alloc),
        }
    }

    pub fn push(&mut self, item: SideRow) -> Result<(), NoMemory>
        ensures ok { OnOk result (self.new ≡ self.old ++ item ∷ []) }
        ensures err { OnErr result (self.new ≡ self.old) }
    {
        self.sides.push(item)?;
        Ok(())
    }

    pub fn len(&self) -> usize
        ensures count { result ≡ length self.now }
    {
        self.sides.len()
    }

    pub fn at(&self, k: usize) -> &SideRow
        requires { k < length self.now }
        ensures item { slice_get self.now k ≡ Some result.now }
    {
        &self.sides[k]
    }
}
