ghost use Rattle.std.specs.Prelude.{◌↔◌, ◌≤◌, All, IfOk, IsTrue, length};
ghost use Rattle.lp_form.specs.Program.{IsProgram};
ghost use Rattle.lp_form.specs.Small.{IsSmall};
ghost use Rattle.polygon_sweep.specs.Swept.{IsCornerOf, IsSideAmong, IsSwept};

use crate::corners::is_corner;
use crate::sides::is_side;
use lp_form::Lp;
use polygon_sweep::{CornerList, Swept};
use std::alloc::{AllocError as NoMemory, Global};

/// Whether the proposed corners and sides are those of a polygon of the program: each corner is what
/// a solution pays, and each side's multipliers certify its direction at its corner.
///
/// That the sides go once round the corners is for `plane_hull` to test.
pub fn is_polygon(alloc: Global, lp: &Lp, swept: &Swept) -> Result<bool, NoMemory>
    requires program { IsProgram lp.now }
    requires small { IsSmall lp.now }
    requires few_rows { length lp.now.rows ≤ 2048 }
    requires few_columns { lp.now.cols ≤ 8192 }
    ensures { IfOk result (λ yes. IsTrue yes ↔ IsSwept lp.now swept.now) }
{
    if swept.corners.len() == 0 || swept.sides.len() == 0 {
        return Ok(false);
    }
    if !are_corners(lp, &swept.corners) {
        return Ok(false);
    }
    are_sides(alloc, lp, swept)
}

fn are_corners(lp: &Lp, corners: &CornerList) -> bool
    requires small { IsSmall lp.now }
    requires few_columns { lp.now.cols ≤ 8192 }
    ensures { IsTrue result ↔ All (IsCornerOf lp.now) corners.now }
{
    for k in 0..corners.len() {
        if !is_corner(lp, corners.at(k)) {
            return false;
        }
    }
    true
}

fn are_sides(alloc: Global, lp: &Lp, swept: &Swept) -> Result<bool, NoMemory>
    requires program { IsProgram lp.now }
    requires small { IsSmall lp.now }
    requires few_rows { length lp.now.rows ≤ 2048 }
    requires corners { All (IsCornerOf lp.now) swept.now.corners }
    ensures { IfOk result (λ yes. IsTrue yes
        ↔ All (IsSideAmong lp.now swept.now.corners) swept.now.sides) }
{
    for k in 0..swept.sides.len() {
        if !is_side(alloc, lp, &swept.corners, swept.sides.at(k))? {
            return Ok(false);
        }
    }
    Ok(true)
}
