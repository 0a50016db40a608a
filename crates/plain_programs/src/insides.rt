// Whether points lie inside polygons, side by side.
ghost use Rattle.std.specs.Prelude.{◌≡◌, ◌↔◌, ◌^◌, ◌<◌, ◌≤◌, ◌*ℤ◌, length, IsTrue, unsigned_abs};
ghost use Rattle.plane_hull.specs.Belt.{StandAtCorners};
ghost use Rattle.plane_hull.specs.Inside.{IsInside, NoFurther, corner_at, reach};
ghost use Rattle.plain_programs.specs.SmallPolygon.{AreSmallPoints, AreSmallSides, IsSmallDirection, IsSmallPlace, place_at};

use corr_num::{product, sum};
use plane_hull::{Dir, Point, SideList};

/// A point of the plane, at `x/den` and `y/den`.
#[derive(Clone, Copy, Debug, PartialEq, Eq)]
pub struct Place {
    pub x: i128,
    pub y: i128,
    pub den: i128,
}

/// Whether a point lies inside a polygon once the two payoffs are scaled: no further in each side's direction than the
/// side's corner. All numbers are small, so that the products are computed whole.
pub fn is_inside(scales: &(i128, i128), points: &[Point], sides: &SideList, p: &Place) -> bool
    requires first_scale { unsigned_abs scales.now.0 ≤ 2 ^ 20 }
    requires second_scale { unsigned_abs scales.now.1 ≤ 2 ^ 20 }
    requires corners { StandAtCorners (length points.now) sides.now }
    requires small_points { AreSmallPoints points.now }
    requires small_sides { AreSmallSides sides.now }
    requires small_place { IsSmallPlace (place_at p.now) }
    ensures { IsTrue result ↔ IsInside scales.now.0 scales.now.1 points.now sides.now (place_at p.now) }
{
    for k in 0..sides.len() {
        let side = sides.at(k);
        if !lies_no_further(scales, &side.dir, p, &corner(points, side.corner)) {
            return false;
        }
    }
    true
}

/// The corner with this number, over the product of its payoffs' denominators.
fn corner(points: &[Point], k: usize) -> Place
    requires in_range { k < length points.now }
    requires small { AreSmallPoints points.now }
    ensures place { place_at result ≡ corner_at points.now k }
    ensures small { IsSmallPlace (place_at result) }
{
    let point = points[k];
    Place {
        x: small_product(point.one.num(), point.two.den()),
        y: small_product(point.two.num(), point.one.den()),
        den: small_product(point.one.den(), point.two.den()),
    }
}

fn small_product(a: i128, b: i128) -> i128
    requires small_a { unsigned_abs a ≤ 2 ^ 10 }
    requires small_b { unsigned_abs b ≤ 2 ^ 10 }
    ensures value { result ≡ a *ℤ b }
    ensures bound { unsigned_abs result ≤ 2 ^ 20 }
{
    product(a, b)
}

/// Whether one point lies no further in a direction than another one.
fn lies_no_further(scales: &(i128, i128), dir: &Dir, p: &Place, q: &Place) -> bool
    requires first_scale { unsigned_abs scales.now.0 ≤ 2 ^ 20 }
    requires second_scale { unsigned_abs scales.now.1 ≤ 2 ^ 20 }
    requires small_direction { IsSmallDirection dir.now }
    requires small_p { IsSmallPlace (place_at p.now) }
    requires small_q { IsSmallPlace (place_at q.now) }
    ensures { IsTrue result ↔ NoFurther scales.now.0 scales.now.1 dir.now (place_at p.now) (place_at q.now) }
{
    product(reach_of(scales, dir, p), q.den) <= product(reach_of(scales, dir, q), p.den)
}

/// How far a point lies in a direction, times its denominator.
fn reach_of(scales: &(i128, i128), dir: &Dir, p: &Place) -> i128
    requires first_scale { unsigned_abs scales.now.0 ≤ 2 ^ 20 }
    requires second_scale { unsigned_abs scales.now.1 ≤ 2 ^ 20 }
    requires small_direction { IsSmallDirection dir.now }
    requires small { IsSmallPlace (place_at p.now) }
    ensures value { result ≡ reach scales.now.0 scales.now.1 dir.now (place_at p.now) }
    ensures bound { unsigned_abs result ≤ 2 ^ 61 }
{
    sum(part(dir.a, scales.0, p.x), part(dir.b, scales.1, p.y))
}

/// The product of three small numbers.
fn part(a: i128, scale: i128, x: i128) -> i128
    requires small_a { unsigned_abs a ≤ 2 ^ 20 }
    requires small_scale { unsigned_abs scale ≤ 2 ^ 20 }
    requires small_x { unsigned_abs x ≤ 2 ^ 20 }
    ensures value { result ≡ a *ℤ (scale *ℤ x) }
    ensures bound { unsigned_abs result ≤ 2 ^ 60 }
{
    product(a, product(scale, x))
}
