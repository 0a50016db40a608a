// The conditions on a corner.
ghost use Rattle.std.specs.Prelude.{◌≡◌, ◌↔◌, ℕ, ◌<◌, ◌≤◌, ◌*ℤ◌, All, IsTrue, length};
ghost use Rattle.corr_num.specs.Narrow.{Narrow};
ghost use Rattle.lp_form.specs.Program.{right_of};
ghost use Rattle.lp_form.specs.Small.{IsSmall};
ghost use Rattle.lp_form.specs.Solutions.{paid};
ghost use Rattle.polygon_sweep.specs.Swept.{IsCornerOf, number_in};
ghost use Rattle.polygon_check.specs.CornerParts.{AreValuesInRange, IsInRange, IsPaidSolution, IsPointInRange, MeetsRow, MeetsRows, PaysBoth};

use crate::numbers::{all_narrow, none_negative};
use crate::rows::row_product;
use corr_game::Side;
use corr_num::{narrow, product};
use lp_form::{Lp, NumList};
use polygon_sweep::SweptCorner;

/// Whether a corner of the program is proposed.
pub fn is_corner(lp: &Lp, corner: &SweptCorner) -> bool
    requires small { IsSmall lp.now }
    requires few_columns { lp.now.cols ≤ 8192 }
    ensures { IsTrue result ↔ IsCornerOf lp.now corner.now }
{
    is_in_range(lp, corner) && is_paid_solution(lp, corner)
}

fn is_in_range(lp: &Lp, corner: &SweptCorner) -> bool
    ensures { IsTrue result ↔ IsInRange lp.now.cols corner.now }
{
    is_point_in_range(corner) && are_values_in_range(lp, &corner.values)
}

fn is_point_in_range(corner: &SweptCorner) -> bool
    ensures { IsTrue result ↔ IsPointInRange corner.now }
{
    corner.den > 0 && narrow(corner.den) && narrow(corner.one) && narrow(corner.two)
}

fn are_values_in_range(lp: &Lp, values: &NumList) -> bool
    ensures { IsTrue result ↔ AreValuesInRange lp.now.cols values.now }
{
    values.len() == lp.cols() as usize && all_narrow(values) && none_negative(values)
}

fn is_paid_solution(lp: &Lp, corner: &SweptCorner) -> bool
    requires small { IsSmall lp.now }
    requires few_columns { lp.now.cols ≤ 8192 }
    requires in_range { IsInRange lp.now.cols corner.now }
    ensures { IsTrue result ↔ IsPaidSolution lp.now corner.now }
{
    meets_rows(lp, corner) && pays_both(lp, corner)
}

fn meets_rows(lp: &Lp, corner: &SweptCorner) -> bool
    requires small { IsSmall lp.now }
    requires few_columns { lp.now.cols ≤ 8192 }
    requires in_range { IsInRange lp.now.cols corner.now }
    ensures { IsTrue result ↔ MeetsRows lp.now corner.now }
{
    for row in 0..lp.rows() {
        if !meets_row(lp, corner, row) {
            return false;
        }
    }
    true
}

fn meets_row(lp: &Lp, corner: &SweptCorner, row: u32) -> bool
    requires in_rows { row < length lp.now.rows }
    requires small { IsSmall lp.now }
    requires few_columns { lp.now.cols ≤ 8192 }
    requires in_range { IsInRange lp.now.cols corner.now }
    ensures { IsTrue result ↔ MeetsRow lp.now corner.now row }
{
    row_product(lp.row(row), &corner.values) == scaled_right(lp, row, corner.den)
}

/// A row's right side over a denominator.
fn scaled_right(lp: &Lp, row: u32, den: i128) -> i128
    requires in_rows { row < length lp.now.rows }
    requires den { Narrow den }
    ensures { result ≡ den *ℤ right_of lp.now row }
{
    product(den, i128::from(lp.right(row)))
}

fn pays_both(lp: &Lp, corner: &SweptCorner) -> bool
    requires small { IsSmall lp.now }
    requires few_columns { lp.now.cols ≤ 8192 }
    requires values { AreValuesInRange lp.now.cols corner.now.values }
    ensures { IsTrue result ↔ PaysBoth lp.now corner.now }
{
    corner.one == payment(lp, Side::One, &corner.values)
        && corner.two == payment(lp, Side::Two, &corner.values)
}

/// What a player gets from the columns' numbers.
fn payment(lp: &Lp, side: Side, values: &NumList) -> i128
    requires small { IsSmall lp.now }
    requires few_columns { lp.now.cols ≤ 8192 }
    requires values { AreValuesInRange lp.now.cols values.now }
    ensures { result ≡ paid lp.now side (number_in values.now) }
{
    row_product(lp.payoffs(side), values)
}
