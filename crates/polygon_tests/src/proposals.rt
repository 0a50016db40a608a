// Proposals for the program's triangle: the right one, and others with one thing wrong.
ghost use Rattle.std.specs.Prelude.{◌≡◌, ◌<◌, All, IfOk, length, vec_len};
ghost use Rattle.lp_form.specs.Program.{LpView};
ghost use Rattle.polygon_sweep.specs.Swept.{IsCornerOf};
ghost use Rattle.polygon_tests.specs.Tested.{IsTested};

use crate::programs::program;
use corr_num::Frac;
use lp_form::{Lp, NumList};
use plane_hull::{Dir, Point, SideList, SideRow, belt};
use polygon_check::is_polygon;
use polygon_sweep::{CornerList, Swept, SweptCorner};
use std::alloc::{AllocError, Global};
use std::process::Abort;
use std::test::Fail;

/// A corner's payoffs, the denominator and the columns' values.
type CornerNumbers = (i8, i8, i8, [i8; 4]);

/// A side's direction, corner, denominator and multipliers.
type SideNumbers = ((i8, i8), usize, i8, [i8; 2], [i8; 2]);

const CORNERS: [CornerNumbers; 3] = [
    (4, 2, 2, [1, 1, 0, 0]),
    (0, 3, 1, [0, 0, 0, 1]),
    (0, 0, 1, [0, 0, 1, 0]),
];

const SIDES: [SideNumbers; 9] = [
    ((1, 0), 0, 3, [6, 6], [3, -3]),
    ((1, 1), 0, 3, [6, 6], [3, -3]),
    ((1, 1), 1, 1, [0, 4], [3, -3]),
    ((0, 1), 1, 1, [0, 4], [3, -3]),
    ((-1, 0), 1, 1, [0, 4], [3, -3]),
    ((-1, 0), 2, 1, [0, 4], [0, 0]),
    ((0, -1), 2, 1, [0, 4], [0, 0]),
    ((1, -2), 2, 1, [0, 4], [0, 0]),
    ((1, -2), 0, 3, [6, 6], [3, -3]),
];

/// The triangle with one more corner, in the middle of an edge.
const MIDDLE_CORNERS: [CornerNumbers; 4] = [
    (4, 2, 2, [1, 1, 0, 0]),
    (4, 8, 4, [1, 1, 0, 2]),
    (0, 3, 1, [0, 0, 0, 1]),
    (0, 0, 1, [0, 0, 1, 0]),
];

const MIDDLE_SIDES: [SideNumbers; 10] = [
    ((1, 0), 0, 3, [6, 6], [3, -3]),
    ((1, 1), 0, 3, [6, 6], [3, -3]),
    ((1, 1), 1, 1, [1, 1], [2, 0]),
    ((1, 1), 2, 1, [0, 4], [3, -3]),
    ((0, 1), 2, 1, [0, 4], [3, -3]),
    ((-1, 0), 2, 1, [0, 4], [3, -3]),
    ((-1, 0), 3, 1, [0, 4], [0, 0]),
    ((0, -1), 3, 1, [0, 4], [0, 0]),
    ((1, -2), 3, 1, [0, 4], [0, 0]),
    ((1, -2), 0, 3, [6, 6], [3, -3]),
];

/// Corners that are put in the place of one of the triangle's.
const WRONG_CORNERS: [(usize, CornerNumbers); 7] = [
    // A value off by one, which breaks each row.
    (0, (4, 2, 2, [1, 2, 0, 0])),
    // Values that break the second row alone, and pay what the corner says.
    (0, (8, 0, 2, [2, 0, 0, 0])),
    // Values that break the first row alone: the denominator is doubled.
    (0, (4, 2, 4, [1, 1, 0, 0])),
    // A payoff off by one.
    (0, (5, 2, 2, [1, 1, 0, 0])),
    (0, (4, 3, 2, [1, 1, 0, 0])),
    // A value below 0, which meets the rows and pays what the corner says.
    (2, (0, -3, 1, [0, 0, 2, -1])),
    // The right corner over a denominator below 0.
    (2, (0, 0, -1, [0, 0, -1, 0])),
];

/// Sides that are put in the place of one of the triangle's.
const WRONG_SIDES: [(usize, SideNumbers); 9] = [
    // A multiplier's sign.
    (0, ((1, 0), 0, 3, [6, -6], [3, -3])),
    (1, ((1, 1), 0, 3, [6, 6], [3, 3])),
    // Multipliers that certify the direction, at another point than the corner.
    (0, ((1, 0), 0, 3, [7, 6], [3, -3])),
    (3, ((0, 1), 1, 1, [0, 4], [4, -3])),
    // Another corner than the side's, and one that isn't there.
    (3, ((0, 1), 2, 1, [0, 4], [3, -3])),
    (3, ((0, 1), 3, 1, [0, 4], [3, -3])),
    // Directions that aren't coprime.
    (0, ((2, 0), 0, 3, [6, 6], [3, -3])),
    (3, ((0, 0), 1, 1, [0, 4], [3, -3])),
    // The right multipliers over a denominator below 0.
    (0, ((1, 0), 0, -3, [-6, -6], [-3, 3])),
];

fn numbers(alloc: Global, row: &[i8]) -> Result<NumList, AllocError> {
    let mut list = NumList::new(alloc);
    for number in row {
        list.push(i128::from(*number))?;
    }
    Ok(list)
}

fn corners_of(alloc: Global, rows: &[CornerNumbers]) -> Result<CornerList, AllocError> {
    let mut corners = CornerList::new(alloc);
    for (one, two, den, values) in rows {
        corners.push(SweptCorner {
            one: i128::from(*one),
            two: i128::from(*two),
            den: i128::from(*den),
            values: numbers(alloc, values)?,
        })?;
    }
    Ok(corners)
}

fn direction(a: i8, b: i8) -> Dir {
    Dir {
        a: i128::from(a),
        b: i128::from(b),
    }
}

fn sides_of(alloc: Global, rows: &[SideNumbers]) -> Result<SideList, AllocError> {
    let mut sides = SideList::new(alloc);
    for (dir, corner, den, first, second) in rows {
        sides.push(SideRow {
            dir: direction(dir.0, dir.1),
            corner: *corner,
            den: i128::from(*den),
            first: numbers(alloc, first)?,
            second: numbers(alloc, second)?,
        })?;
    }
    Ok(sides)
}

/// Where a corner of a program lies.
fn point_of(corner: &SweptCorner) -> Point
    requires { (lp : LpView) × IsCornerOf lp corner.now }
{
    Point {
        one: Frac::of(corner.one, corner.den),
        two: Frac::of(corner.two, corner.den),
    }
}

fn points_of(alloc: Global, corners: &CornerList) -> Result<Vec<Point>, AllocError>
    requires { (lp : LpView) × All (IsCornerOf lp) corners.now }
    ensures { IfOk result (λ points. vec_len points ≡ length corners.now) }
{
    let mut points = Vec::new(alloc);
    for k in 0..corners.len() {
        points.push(point_of(corners.at(k)))?;
    }
    Ok(points)
}

/// Whether a proposal is a polygon of the program, with a belt round its corners.
fn is_round(alloc: Global, lp: &Lp, swept: &Swept) -> Result<bool, AllocError>
    requires { IsTested lp.now }
{
    if !is_polygon(alloc, lp, swept)? {
        return Ok(false);
    }
    let points = points_of(alloc, &swept.corners)?;
    Ok(belt(&points, &swept.sides).is_ok())
}

fn proposal(
    alloc: Global,
    corners: &[CornerNumbers],
    sides: &[SideNumbers],
) -> Result<Swept, AllocError> {
    Ok(Swept {
        corners: corners_of(alloc, corners)?,
        sides: sides_of(alloc, sides)?,
    })
}

fn is_accepted(
    rt: &impl Abort,
    alloc: Global,
    corners: &[CornerNumbers],
    sides: &[SideNumbers],
) -> Result<bool, AllocError> {
    let lp = program(rt, alloc)?;
    is_round(alloc, &lp, &proposal(alloc, corners, sides)?)
}

/// Whether only the belt is missing.
fn is_without_belt(
    rt: &impl Abort,
    alloc: Global,
    corners: &[CornerNumbers],
    sides: &[SideNumbers],
) -> Result<bool, AllocError> {
    let lp = program(rt, alloc)?;
    let swept = proposal(alloc, corners, sides)?;
    Ok(is_polygon(alloc, &lp, &swept)? && !is_round(alloc, &lp, &swept)?)
}

#[test]
fn the_triangle_is_accepted(rt: HostRuntime) -> Result<(), Fail> {
    let alloc = rt.alloc();
    assert!(rt; is_accepted(&rt, alloc, &CORNERS, &SIDES)?);
    Ok(())
}

#[test]
fn the_belt_refuses_what_goes_round_otherwise(rt: HostRuntime) -> Result<(), Fail> {
    let alloc = rt.alloc();
    assert!(rt; is_without_belt(&rt, alloc, &MIDDLE_CORNERS, &MIDDLE_SIDES)?);
    let mut sides = SIDES;
    sides.swap(1, 2);
    assert!(rt; is_without_belt(&rt, alloc, &CORNERS, &sides)?);
    Ok(())
}

#[test]
fn wrong_corners_are_refused(rt: HostRuntime) -> Result<(), Fail> {
    let alloc = rt.alloc();
    // The sides at the last corner name one that isn't there.
    assert!(rt; !is_accepted(&rt, alloc, &CORNERS[..2], &SIDES)?);
    for (place, wrong) in &WRONG_CORNERS {
        let mut corners = CORNERS;
        assert!(rt; *place < 3);
        corners[*place] = *wrong;
        assert!(rt; !is_accepted(&rt, alloc, &corners, &SIDES)?, "at {wrong:?}");
    }
    Ok(())
}

#[test]
fn wrong_sides_are_refused(rt: HostRuntime) -> Result<(), Fail> {
    let alloc = rt.alloc();
    assert!(rt; !is_accepted(&rt, alloc, &CORNERS, &[])?);
    for (place, wrong) in &WRONG_SIDES {
        let mut sides = SIDES;
        assert!(rt; *place < 9);
        sides[*place] = *wrong;
        assert!(rt; !is_accepted(&rt, alloc, &CORNERS, &sides)?, "at {wrong:?}");
    }
    Ok(())
}
