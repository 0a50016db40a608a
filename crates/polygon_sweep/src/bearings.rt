// Where a turning direction stops next.
ghost use Rattle.std.specs.Prelude.{◌≡◌, ◌↔◌, ℤ, pos, ◌<ℤ◌, ◌-ℤ◌, ◌*ℤ◌, unsigned_abs, IfSome, IsTrue};
ghost use Rattle.std.specs.Int.{IsGcd};
ghost use Rattle.corr_num.specs.Narrow.{Narrow};
ghost use Rattle.polygon_sweep.specs.Turning.{IsAhead, IsBoundOrNone, IsUpTo, TurnsTo, cross};
ghost use Rattle.plane_hull.specs.declared.directions.Dir.{Dir};
ghost use Rattle.bland_simplex.specs.Improving.{IsOptimal};
ghost use Rattle.bland_simplex.specs.Open.{IsOpen};
ghost use Rattle.polygon_sweep.specs.Swept.{IsBounding, IsCoprime};

use bland_simplex::Shape;
use corr_num::{cmp_products, gcd, quotient};
use int_tableau::Tableau;
use plane_hull::Dir;
use std::cmp::Ordering;

/// The first axis that is met counter-clockwise behind this direction.
fn axis_behind(dir: &Dir) -> Dir
    requires { IsCoprime dir.now }
    ensures coprime { IsCoprime result }
    ensures turns { TurnsTo dir.now result }
{
    if dir.b > 0 {
        if dir.a > 0 {
            return Dir { a: 0, b: 1 };
        }
        return Dir { a: -1, b: 0 };
    }
    if dir.a < 0 {
        return Dir { a: 0, b: -1 };
    }
    if dir.b < 0 {
        return Dir { a: 1, b: 0 };
    }
    Dir { a: 0, b: 1 }
}

/// The greatest common divisor of the magnitudes of two narrow numbers that aren't both 0.
fn common_divisor(a: i128, b: i128) -> i128
    requires a_narrow { Narrow a }
    requires b_narrow { Narrow b }
    requires not_both { a ≡ pos 0 → b ≡ pos 0 → ⊥ }
    ensures divisor { IsGcd (unsigned_abs a) (unsigned_abs b) (unsigned_abs result) }
    ensures positive { pos 0 <ℤ result }
{
    gcd(a.unsigned_abs(), b.unsigned_abs()) as i128
}

/// The direction of a vector that isn't 0, in coprime numbers.
fn direction_of(a: i128, b: i128) -> Dir
    requires a_narrow { Narrow a }
    requires b_narrow { Narrow b }
    requires not_both { a ≡ pos 0 → b ≡ pos 0 → ⊥ }
    ensures coprime { IsCoprime result }
    ensures same { (by : ℤ) × (pos 0 <ℤ by) × (result.a *ℤ by ≡ a) × (result.b *ℤ by ≡ b) }
{
    let divisor = common_divisor(a, b);
    Dir {
        a: quotient(a, divisor),
        b: quotient(b, divisor),
    }
}

/// The direction up to which a column with these costs stays optimal: a right angle to the left of its costs. A column
/// that costs nothing always stays.
fn bound_of(first: i128, second: i128) -> Option<Dir>
    requires first { Narrow first }
    requires second { Narrow second }
    ensures coprime { IfSome result IsCoprime }
    ensures bound { IsBoundOrNone first second result }
{
    if first == 0 && second == 0 {
        None
    } else {
        Some(direction_of(-second, first))
    }
}

/// Whether one of two directions that are less than a half turn apart comes first counter-clockwise.
fn is_before(one: &Dir, other: &Dir) -> bool
    ensures { IsTrue result ↔ (pos 0 <ℤ cross one.now.a one.now.b other.now.a other.now.b) }
{
    cmp_products(one.a, other.b, one.b, other.a) == Ordering::Greater
}

/// A column's bound, where it has one that is met before the other direction; else that direction.
fn first_met(bound: Option<Dir>, other: Dir) -> Dir
    requires bound { IfSome bound IsCoprime }
    requires other { IsCoprime other }
    ensures coprime { IsCoprime result }
    ensures turns { (dir : Dir) → IfSome bound (IsAhead dir) → TurnsTo dir other → TurnsTo dir result }
    ensures not_behind { IfSome bound (IsUpTo result) }
    ensures sooner { IsUpTo result other }
{
    let Some(bound) = bound else {
        return other;
    };
    if is_before(&bound, &other) {
        return bound;
    }
    other
}

/// The next direction, counter-clockwise, that is an axis or at which the tableau's basis may stop being optimal.
///
/// The tableau is optimal for the direction and its left turn, so that each column's bound lies within a half turn.
pub fn next_direction<T: Tableau>(table: &T, shape: Shape, dir: &Dir) -> Dir
    requires open { IsOpen shape.rows shape.cols (T.content table.now) }
    requires optimal { IsOptimal (T.content table.now) shape.rows shape.cols dir.now }
    requires coprime { IsCoprime dir.now }
    ensures coprime { IsCoprime result }
    ensures turns { TurnsTo dir.now result }
    ensures bounds { IsBounding (T.content table.now) shape.rows shape.cols result }
{
    let mut next = axis_behind(dir);
    for col in 0..shape.cols {
        let first = table.entry(shape.rows, col);
        let second = table.entry(shape.rows + 1, col);
        next = first_met(bound_of(first, second), next);
    }
    next
}
