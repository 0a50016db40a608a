// The polygon of Chicken's extensive-form correlated equilibria, its sides worked by hand from its four corners, and the
// polygon of one point.
ghost use Rattle.std.specs.Prelude.{◌≡◌, ◌<◌, length, IfOk, ◌≤◌, ◌^◌, unsigned_abs};
ghost use Rattle.plane_hull.specs.Belt.{StandAtCorners};
ghost use Rattle.plain_programs.specs.SmallPolygon.{AreSmallPoints, AreSmallSides, IsSmallDirection, IsSmallPlace, IsSmallPoint, place_at};

use corr_num::Frac;
use lp_form::NumList;
use plain_programs::{Place, is_inside};
use plane_hull::{BeltFault, Dir, Point, SideList, SideRow, belt};
use std::alloc::{AllocError, Global};
use std::process::Abort;
use std::test::Fail;

/// Corners by numerators and denominators of their two payoffs.
const CHICKEN_CORNERS: [(i8, i8, i8, i8); 4] = [
    (7, 1, 2, 1),
    (21, 4, 21, 4),
    (2, 1, 7, 1),
    (18, 5, 18, 5),
];

/// Sides by their directions and corners.
const CHICKEN_SIDES: [(i8, i8, usize); 12] = [
    (1, 0, 0),
    (13, 7, 0),
    (13, 7, 1),
    (7, 13, 1),
    (7, 13, 2),
    (0, 1, 2),
    (-1, 0, 2),
    (-17, -8, 2),
    (-17, -8, 3),
    (-8, -17, 3),
    (-8, -17, 0),
    (0, -1, 0),
];

const POINT_CORNERS: [(i8, i8, i8, i8); 1] = [(3, 1, 4, 1)];

const POINT_SIDES: [(i8, i8, usize); 4] = [(1, 0, 0), (0, 1, 0), (-1, 0, 0), (0, -1, 0)];

fn direction(a: i8, b: i8) -> Dir
    ensures { IsSmallDirection result }
{
    Dir {
        a: i128::from(a),
        b: i128::from(b),
    }
}

fn place(x: i8, y: i8, den: i8) -> Place
    ensures { IsSmallPlace (place_at result) }
{
    Place {
        x: i128::from(x),
        y: i128::from(y),
        den: i128::from(den),
    }
}

fn fraction(rt: &impl Abort, num: i8, den: i8) -> Frac
    ensures num { unsigned_abs result.num ≤ 2 ^ 10 }
    ensures den { unsigned_abs result.den ≤ 2 ^ 10 }
{
    assert!(rt; den > 0);
    Frac::of(i128::from(num), i128::from(den))
}

fn points_of(
    rt: &impl Abort,
    alloc: Global,
    rows: &[(i8, i8, i8, i8)],
) -> Result<Vec<Point>, AllocError>
    ensures { IfOk result (λ points. AreSmallPoints points.items) }
{
    let mut points = Vec::new(alloc);
    for (one, one_den, two, two_den) in rows {
        points.push(Point {
            one: fraction(rt, *one, *one_den),
            two: fraction(rt, *two, *two_den),
        })?;
    }
    Ok(points)
}

/// Sides with these directions and corners, without multipliers.
fn sides_of(
    rt: &impl Abort,
    alloc: Global,
    corners: usize,
    rows: &[(i8, i8, usize)],
) -> Result<SideList, AllocError>
    ensures stand { IfOk result (StandAtCorners corners) }
    ensures small { IfOk result AreSmallSides }
{
    let mut sides = SideList::new(alloc);
    for (a, b, corner) in rows {
        assert!(rt; *corner < corners);
        sides.push(SideRow {
            dir: direction(*a, *b),
            corner: *corner,
            den: 1,
            first: NumList::new(alloc),
            second: NumList::new(alloc),
        })?;
    }
    Ok(sides)
}

fn expect_belt(
    rt: &impl Abort,
    alloc: Global,
    corners: &[(i8, i8, i8, i8)],
    rows: &[(i8, i8, usize)],
    answer: Result<(), BeltFault>,
) -> Result<(), Fail> {
    let points = points_of(rt, alloc, corners)?;
    let sides = sides_of(rt, alloc, points.len(), rows)?;
    assert!(rt; points.len() > 0);
    assert_eq!(rt; belt(&points, &sides), answer);
    Ok(())
}

/// Points by their numerators and denominator, and whether each lies inside.
fn expect_inside(
    rt: &impl Abort,
    alloc: Global,
    corners: &[(i8, i8, i8, i8)],
    rows: &[(i8, i8, usize)],
    places: &[(i8, i8, i8, bool)],
) -> Result<(), Fail> {
    let points = points_of(rt, alloc, corners)?;
    let sides = sides_of(rt, alloc, points.len(), rows)?;
    for (x, y, den, inside) in places {
        assert_eq!(rt;
            is_inside(&(1, 1), &points, &sides, &place(*x, *y, *den)),
            *inside
        );
    }
    Ok(())
}

#[test]
fn chickens_polygon_has_a_belt(rt: HostRuntime) -> Result<(), Fail> {
    let alloc = rt.alloc();
    expect_belt(&rt, alloc, &CHICKEN_CORNERS, &CHICKEN_SIDES, Ok(()))?;
    // Without its last side, (0, -1), the belt lacks an axis alone, which no side shows.
    let an_axis_short = Err(BeltFault { side: 11 });
    expect_belt(
        &rt,
        alloc,
        &CHICKEN_CORNERS,
        &CHICKEN_SIDES[..11],
        an_axis_short,
    )?;
    expect_belt(&rt, alloc, &POINT_CORNERS, &POINT_SIDES, Ok(()))?;
    let begins_late = Err(BeltFault { side: 0 });
    expect_belt(&rt, alloc, &POINT_CORNERS, &POINT_SIDES[1..], begins_late)
}

#[test]
fn points_lie_inside_where_no_side_cuts_them_off(rt: HostRuntime) -> Result<(), Fail> {
    let alloc = rt.alloc();
    let in_chickens = [
        (7, 2, 1, true),
        (21, 21, 4, true),
        (18, 18, 5, true),
        (5, 5, 1, true),
        (6, 6, 1, false),
        (7, 7, 2, false),
        (0, 0, 1, false),
    ];
    expect_inside(&rt, alloc, &CHICKEN_CORNERS, &CHICKEN_SIDES, &in_chickens)?;
    let in_point = [
        (3, 4, 1, true),
        (6, 8, 2, true),
        (3, 5, 1, false),
        (2, 4, 1, false),
    ];
    expect_inside(&rt, alloc, &POINT_CORNERS, &POINT_SIDES, &in_point)
}
