ghost use Rattle.std.specs.Prelude.{◌≡◌, ◌↔◌, ◌<◌, ◌≤◌, ℕ, length, IfErr, IsOk, IsTrue};
ghost use Rattle.plane_hull.specs.Belt.{GoesRoundOnce, HasAxes, HasDirection, IsAxis, IsBelt, IsDirection};
ghost use Rattle.plane_hull.specs.Belt.{IsNext, MayFollow, PointsDiffer, StandAtCorners, TurnsOn};
ghost use Rattle.plane_hull.specs.BeltFault.{IsFaultOf, IsInTurn};
ghost use Rattle.plane_hull.specs.Round.{IsWhole, PairsUp, PairsWith};

use crate::angles::cmp_angle;
use crate::directions::Dir;
use crate::sides::{Point, SideList, SideRow};
use std::cmp::Ordering;

/// The first side that doesn't follow the one before it as the belt's rules ask, or the number of sides where each
/// follows and a rule on the whole belt fails.
#[derive(Clone, Copy, Debug, PartialEq, Eq)]
pub struct BeltFault {
    pub side: usize,
}

fn is_direction(dir: &Dir, a: i128, b: i128) -> bool
    ensures { IsTrue result ↔ IsDirection a b dir.now }
{
    dir.a == a && dir.b == b
}

fn is_axis(dir: &Dir) -> bool
    ensures { IsTrue result ↔ IsAxis dir.now }
{
    is_direction(dir, 1, 0)
        || is_direction(dir, 0, 1)
        || is_direction(dir, -1, 0)
        || is_direction(dir, 0, -1)
}

fn same_direction(x: &SideRow, y: &SideRow) -> bool
    ensures { IsTrue result ↔ (x.now.dir ≡ y.now.dir) }
{
    x.dir == y.dir
}

/// Whether the direction behind the one of a side with this number has the greater angle. Its (1, 0) is a full turn,
/// and so is the other's unless that side begins the belt.
fn turns(number: usize, from: &Dir, to: &Dir) -> bool
    ensures { IsTrue result ↔ TurnsOn number from.now to.now }
{
    if number > 0 && is_direction(from, 1, 0) {
        return false;
    }
    is_direction(to, 1, 0) || cmp_angle(from, to) == Ordering::Less
}

/// The number behind another one of so many, and the first behind the last.
fn next_of(count: usize, number: usize) -> usize
    requires { number < count }
    ensures next { IsNext count number result }
    ensures in_range { result < count }
{
    if number + 1 < count { number + 1 } else { 0 }
}

/// The number before another one of so many, and the last before the first.
fn before_of(count: usize, number: usize) -> usize
    requires { number < count }
    ensures before { IsNext count result number }
    ensures in_range { result < count }
{
    if number == 0 { count - 1 } else { number - 1 }
}

/// Whether the belt may go from one side to the next: it turns at a corner, or goes on to the next one along an edge.
fn follows(corners: usize, number: usize, from: &SideRow, to: &SideRow) -> bool
    requires { from.now.corner < corners }
    ensures { IsTrue result ↔ MayFollow corners number from.now to.now }
{
    if from.corner == to.corner && turns(number, &from.dir, &to.dir) {
        return true;
    }
    same_direction(from, to) && to.corner == next_of(corners, from.corner)
}

/// Whether the points of two corners differ, where the corners do.
fn points_differ(points: &[Point], from: &SideRow, to: &SideRow) -> bool
    requires from_at { from.now.corner < length points.now }
    requires to_at { to.now.corner < length points.now }
    ensures { IsTrue result ↔ PointsDiffer points.now from.now to.now }
{
    from.corner == to.corner || points[from.corner] != points[to.corner]
}

fn may_follow(points: &[Point], number: usize, from: &SideRow, to: &SideRow) -> bool
    requires from_at { from.now.corner < length points.now }
    requires to_at { to.now.corner < length points.now }
    ensures { IsTrue result
        ↔ (MayFollow (length points.now) number from.now to.now × PointsDiffer points.now from.now to.now) }
{
    follows(points.len(), number, from, to) && points_differ(points, from, to)
}

/// Whether this side begins the belt as it has to, or follows the side before it.
fn is_in_turn(points: &[Point], sides: &SideList, side: usize) -> bool
    requires corners { StandAtCorners (length points.now) sides.now }
    requires in_range { side < length sides.now }
    ensures { IsTrue result ↔ IsInTurn points.now sides.now side }
{
    let here = sides.at(side);
    if side == 0 {
        is_direction(&here.dir, 1, 0) && here.corner == 0
    } else {
        may_follow(points, side - 1, sides.at(side - 1), here)
    }
}

fn has_direction(sides: &SideList, a: i128, b: i128) -> bool
    ensures { IsTrue result ↔ HasDirection a b sides.now }
{
    for side in 0..sides.len() {
        if is_direction(&sides.at(side).dir, a, b) {
            return true;
        }
    }
    false
}

/// Whether the belt goes once round the corners: one corner is never left, and of more each is left once.
fn goes_round_once(corners: usize, sides: &SideList) -> bool
    requires a_corner { 0 < corners }
    requires a_side { 0 < length sides.now }
    ensures { IsTrue result ↔ GoesRoundOnce corners sides.now }
{
    let mut corner = sides.at(sides.len() - 1).corner;
    let mut changes = 0;
    for side in 0..sides.len() {
        let here = sides.at(side).corner;
        if corner != here {
            changes += 1;
        }
        corner = here;
    }
    changes == if corners == 1 { 0 } else { corners }
}

/// Whether a side has its direction alone or shares it with one neighbour, as it has to unless it is an axis.
fn pairs_with(before: &SideRow, here: &SideRow, behind: &SideRow) -> bool
    ensures { IsTrue result ↔ PairsWith before.now here.now behind.now }
{
    let with_before = same_direction(before, here);
    let with_behind = same_direction(here, behind);
    if with_before && with_behind {
        return false;
    }
    let parts = !with_behind || here.corner != behind.corner;
    parts && (is_axis(&here.dir) || with_before || with_behind)
}

/// Whether each direction stands at one side or at two with different corners, and at two unless it is an axis.
///
/// Where each side follows the one before, sides of one direction stand one behind the other round the belt.
fn all_pair_up(sides: &SideList) -> bool
    ensures { IsTrue result ↔ ((k : ℕ) → PairsUp sides.now k) }
{
    for side in 0..sides.len() {
        let before = sides.at(before_of(sides.len(), side));
        let behind = sides.at(next_of(sides.len(), side));
        if !pairs_with(before, sides.at(side), behind) {
            return false;
        }
    }
    true
}

fn has_axes(sides: &SideList) -> bool
    ensures { IsTrue result ↔ HasAxes sides.now }
{
    has_direction(sides, 0, 1) && has_direction(sides, -1, 0) && has_direction(sides, 0, -1)
}

/// Whether the belt keeps the rules that speak of it as a whole.
fn is_whole(points: &[Point], sides: &SideList) -> bool
    requires corners { StandAtCorners (length points.now) sides.now }
    requires a_corner { 0 < length points.now }
    ensures { IsTrue result ↔ IsWhole points.now sides.now }
{
    let count = sides.len();
    if count == 0 || !has_axes(sides) {
        return false;
    }
    if !may_follow(points, count - 1, sides.at(count - 1), sides.at(0)) {
        return false;
    }
    goes_round_once(points.len(), sides) && all_pair_up(sides)
}

/// Whether the sides go once round the corners, from the direction (1, 0) at corner 0 counter-clockwise.
///
/// Between two sides the belt either turns at a corner or keeps its direction and goes on to the next corner, which is
/// another point; the four axes stand among the directions, and any other direction stands at exactly two sides.
pub fn belt(points: &[Point], sides: &SideList) -> Result<(), BeltFault>
    requires a_corner { 0 < length points.now }
    requires corners { StandAtCorners (length points.now) sides.now }
    ensures is_belt { IsOk result ↔ IsBelt points.now sides.now }
    ensures fault { IfErr result (λ fault. IsFaultOf points.now sides.now fault.side) }
    ensures in_range { IfErr result (λ fault. fault.side ≤ length sides.now) }
{
    for side in 0..sides.len() {
        if !is_in_turn(points, sides, side) {
            return Err(BeltFault { side });
        }
    }
    if is_whole(points, sides) {
        Ok(())
    } else {
        Err(BeltFault { side: sides.len() })
    }
}
