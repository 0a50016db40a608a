// The conditions on a side.
ghost use Rattle.std.specs.Prelude.{◌≡◌, ◌↔◌, ◌^◌, ◌<◌, ◌≤◌, pos, ◌-ℤ◌, ◌*ℤ◌, ◌<ℤ◌, All, IfOk, IsTrue, length, unsigned_abs};
ghost use Rattle.corr_num.specs.Narrow.{Narrow};
ghost use Rattle.lp_form.specs.Certificates.{times_column};
ghost use Rattle.lp_form.specs.Program.{IsProgram, payoff_of};
ghost use Rattle.lp_form.specs.Small.{IsSmall};
ghost use Rattle.polygon_sweep.specs.Swept.{IsCoprime, IsCornerOf, IsPointOf, IsSideAmong};
ghost use Rattle.polygon_check.specs.SideParts.{AreMultipliers, HasScale, IsAtCorner, IsSideInRange, IsWeighed, PassesColumn, PassesColumns};

use crate::numbers::{all_narrow, are_equal, weighed};
use column_sums::column_products;
use corr_game::Side;
use corr_num::{difference, gcd, narrow, product};
use lp_form::{Lp, NumList};
use plane_hull::{Dir, SideRow};
use polygon_sweep::{CornerList, SweptCorner};
use std::alloc::{AllocError as NoMemory, Global};

/// Whether a side at one of the corners is proposed.
pub fn is_side(
    alloc: Global,
    lp: &Lp,
    corners: &CornerList,
    side: &SideRow,
) -> Result<bool, NoMemory>
    requires program { IsProgram lp.now }
    requires small { IsSmall lp.now }
    requires few_rows { length lp.now.rows ≤ 2048 }
    requires corners { All (IsCornerOf lp.now) corners.now }
    ensures { IfOk result (λ yes. IsTrue yes ↔ IsSideAmong lp.now corners.now side.now) }
{
    if !is_side_in_range(lp, side) {
        return Ok(false);
    }
    if !is_at_corner(lp, corners, side) {
        return Ok(false);
    }
    passes_columns(alloc, lp, side)
}

fn is_side_in_range(lp: &Lp, side: &SideRow) -> bool
    ensures { IsTrue result ↔ IsSideInRange (length lp.now.rows) side.now }
{
    has_scale(side) && are_multipliers(lp, &side.first) && are_multipliers(lp, &side.second)
}

/// Whether a side's direction is coprime and its denominator positive and narrow.
fn has_scale(side: &SideRow) -> bool
    ensures { IsTrue result ↔ HasScale side.now }
{
    is_coprime(&side.dir) && side.den > 0 && narrow(side.den)
}

fn is_coprime(dir: &Dir) -> bool
    ensures { IsTrue result ↔ IsCoprime dir.now }
{
    gcd(dir.a.unsigned_abs(), dir.b.unsigned_abs()) == 1
}

/// Whether a list has a narrow number for each row.
fn are_multipliers(lp: &Lp, list: &NumList) -> bool
    ensures { IsTrue result ↔ AreMultipliers (length lp.now.rows) list.now }
{
    list.len() == lp.rows() as usize && all_narrow(list)
}

/// Whether a side's corner is there and is its point.
fn is_at_corner(lp: &Lp, corners: &CornerList, side: &SideRow) -> bool
    requires program { IsProgram lp.now }
    requires corners { All (IsCornerOf lp.now) corners.now }
    requires in_range { IsSideInRange (length lp.now.rows) side.now }
    ensures { IsTrue result ↔ IsAtCorner corners.now side.now }
{
    if side.corner >= corners.len() {
        return false;
    }
    has_point(lp, side, corners.at(side.corner))
}

fn has_point(lp: &Lp, side: &SideRow, corner: &SweptCorner) -> bool
    requires program { IsProgram lp.now }
    requires corner { IsCornerOf lp.now corner.now }
    requires in_range { IsSideInRange (length lp.now.rows) side.now }
    ensures { IsTrue result ↔ IsPointOf side.now corner.now }
{
    are_equal(*side.first.at(0), corner.den, corner.one, side.den)
        && are_equal(*side.second.at(0), corner.den, corner.two, side.den)
}

/// The certificate's inequality in each column.
fn passes_columns(alloc: Global, lp: &Lp, side: &SideRow) -> Result<bool, NoMemory>
    requires small { IsSmall lp.now }
    requires few_rows { length lp.now.rows ≤ 2048 }
    requires in_range { IsSideInRange (length lp.now.rows) side.now }
    ensures { IfOk result (λ yes. IsTrue yes ↔ PassesColumns lp.now side.now) }
{
    let first = column_products(alloc, lp, &side.first)?;
    let second = column_products(alloc, lp, &side.second)?;
    for col in 0..lp.cols() {
        let at = col as usize;
        if !passes_column(lp, side, col, (first[at], second[at])) {
            return Ok(false);
        }
    }
    Ok(true)
}

/// The inequality in one column, whose products with the first and second multipliers are given.
fn passes_column(lp: &Lp, side: &SideRow, col: u32, products: (i128, i128)) -> bool
    requires small { IsSmall lp.now }
    requires in_range { IsSideInRange (length lp.now.rows) side.now }
    requires first { products.0 ≡ times_column lp.now side.now.first col }
    requires second { products.1 ≡ times_column lp.now side.now.second col }
    requires first_bound { unsigned_abs products.0 ≤ 2 ^ 124 }
    requires second_bound { unsigned_abs products.1 ≤ 2 ^ 124 }
    ensures { IsTrue result ↔ PassesColumn lp.now side.now col }
{
    let one = left_over(lp, Side::One, side.den, (products.0, col));
    let two = left_over(lp, Side::Two, side.den, (products.1, col));
    is_weighed(&side.dir, one, two)
}

/// A column's product less `den` times what the column pays a player.
fn left_over(lp: &Lp, side: Side, den: i128, column: (i128, u32)) -> i128
    requires small { IsSmall lp.now }
    requires den { Narrow den }
    requires bound { unsigned_abs column.0 ≤ 2 ^ 124 }
    ensures { result ≡ column.0 -ℤ den *ℤ payoff_of side lp.now column.1 }
{
    difference(
        column.0,
        product(den, i128::from(lp.payoff(side, column.1))),
    )
}

/// Whether what is left of a column is narrow, and 0 or more when weighed with the direction.
fn is_weighed(dir: &Dir, one: i128, two: i128) -> bool
    ensures { IsTrue result ↔ IsWeighed dir.now one two }
{
    narrow(one) && narrow(two) && weighed(dir, one, two) >= 0
}
