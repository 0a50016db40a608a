// The rules of a side and of the multipliers of an empty program.
ghost use Rattle.std.specs.Prelude.{◌≡◌, ◌↔◌, ℕ, ◌+◌, ◌^◌, ◌<◌, ◌≤◌, pos, neg_ℤ, ◌+ℤ◌, ◌*ℤ◌, ◌≤ℤ◌, All, IfErr, IfOk, IsTrue, List, length, slice_index_or, unsigned_abs};
ghost use Rattle.corr_game.specs.Game.{GameView, IsGame, scale_of};
ghost use Rattle.corr_num.specs.Fraction.{IsSameNumber};
ghost use Rattle.corr_num.specs.Narrow.{Narrow};
ghost use Rattle.lp_form.specs.Certificates.{left_over};
ghost use Rattle.report_form.specs.Certified.{IsPointIn};
ghost use Rattle.report_form.specs.Points.{points_of};
ghost use Rattle.report_form.specs.Ranges.{IsPositive, IsScale, IsSide};
ghost use Rattle.report_form.specs.declared.reports.Corner.{Corner};
ghost use Rattle.cert_check.specs.Bounds.{IsBounded};
ghost use Rattle.cert_check.specs.Certified.{FailsAt, Passes, whole_of};
ghost use Rattle.cert_check.specs.Ends.{IsBreak};
ghost use Rattle.cert_check.specs.Rules.{AllHold, by_column};
ghost use Rattle.cert_check.specs.SideRules.{EmptyRule, IsFirstCause, SideRule, empty_rules, side_rules, sign, width};
ghost use Rattle.cert_check.specs.Truth.{IsTrueSide};
ghost use Rattle.cert_check.specs.declared.faults.RuleEnd.TheVariants.{Broken};

use crate::faults::RuleEnd;
use crate::multipliers::column_products;
use crate::programs::Program;
use column_sums::add_row;
use corr_game::{Game, Side};
use corr_num::{Frac, narrow, product, sum};
use lp_form::NumList;
use plane_hull::{Dir, Point, SideRow};
use report_form::Cause;
use std::alloc::{AllocError as NoMemory, Global};

/// Goes on where a rule holds.
pub fn keep(holds: bool, cause: Cause) -> Result<(), RuleEnd>
    ensures holds { IfOk result (λ _. IsTrue holds) }
    ensures broken { IfErr result (λ end. (end ≡ Broken cause) × (IsTrue holds → ⊥)) }
{
    if holds {
        Ok(())
    } else {
        Err(RuleEnd::Broken(cause))
    }
}

/// The rules of a side: its lists are as long as the program, its point is that of its corner, and its multipliers
/// certify its direction.
pub fn check_side(
    alloc: Global,
    game: &Game,
    program: &Program,
    points: &[Point],
    side: &SideRow,
) -> Result<(), RuleEnd>
    requires bounded { IsBounded program.now }
    requires ranges { IsSide (length points.now) side.now }
    ensures held { IfOk result (λ _. (corners : List Corner) → points.now ≡ points_of corners → IsTrueSide game.now (whole_of program.now) corners side.now) }
    ensures broken { IfErr result (IsBreak (λ cause. (corners : List Corner) → points.now ≡ points_of corners
        → IsFirstCause (SideRule game.now (whole_of program.now) corners side.now) (side_rules (whole_of program.now)) cause)) }
{
    keep(has_lengths(program, side), Cause::Length)?;
    keep(has_point(game, side, &points[side.corner]), Cause::Point)?;
    check_columns(alloc, program, side)?;
    Ok(())
}

/// Whether both lists have one number per program row.
fn has_lengths(program: &Program, side: &SideRow) -> bool
    ensures first { IsTrue result → length side.now.first ≡ length program.now.base.rows + length program.now.more.rows }
    ensures second { IsTrue result → length side.now.second ≡ length program.now.base.rows + length program.now.more.rows }
    ensures back { length side.now.first ≡ length program.now.base.rows + length program.now.more.rows
        → length side.now.second ≡ length program.now.base.rows + length program.now.more.rows → IsTrue result }
{
    let rows = program.rows();
    side.first.len() == rows && side.second.len() == rows
}

/// Whether a side's point is this one.
fn has_point(game: &Game, side: &SideRow, point: &Point) -> bool
    requires first { 0 < length side.now.first }
    requires second { 0 < length side.now.second }
    requires den { IsPositive side.now.den }
    requires first_narrow { All Narrow side.now.first }
    requires second_narrow { All Narrow side.now.second }
    ensures { IsTrue result ↔ IsPointIn game.now point.now (slice_index_or side.now.first 0 (pos 0)) (slice_index_or side.now.second 0 (pos 0)) side.now.den }
{
    is_share(game, Side::One, (*side.first.at(0), side.den), &point.one)
        && is_share(game, Side::Two, (*side.second.at(0), side.den), &point.two)
}

/// Whether a fraction of scaled payoffs is this payoff of the file.
pub fn is_share(game: &Game, side: Side, share: (i128, i128), payoff: &Frac) -> bool
    requires narrow { Narrow share.0 }
    requires den { IsPositive share.1 }
    ensures { IsTrue result ↔ IsSameNumber payoff.now (record { num = share.0; den = share.1 *ℤ scale_of side game.now }) }
{
    Frac::of(share.0, in_file(game, side, share.1)) == *payoff
}

/// A denominator of scaled payoffs as one of the file's.
fn in_file(game: &Game, side: Side, den: i128) -> i128
    requires positive { IsPositive den }
    ensures product { result ≡ den *ℤ scale_of side game.now }
    ensures positive { pos 1 ≤ℤ result }
    ensures bound { unsigned_abs result < 2 ^ 126 }
{
    product(den, i128::from(scale_of(game, side)))
}

fn scale_of(game: &Game, side: Side) -> i64
    ensures scale { IsScale result }
    ensures value { result ≡ scale_of side game.now }
    ensures rules { IsGame game.now }
{
    game.scale(side)
}

/// The certificate's inequality in each column.
fn check_columns(alloc: Global, program: &Program, side: &SideRow) -> Result<(), RuleEnd>
    requires bounded { IsBounded program.now }
    requires first { length side.now.first ≡ length program.now.base.rows + length program.now.more.rows }
    requires second { length side.now.second ≡ length program.now.base.rows + length program.now.more.rows }
    requires den { IsPositive side.now.den }
    requires first_narrow { All Narrow side.now.first }
    requires second_narrow { All Narrow side.now.second }
    ensures held { IfOk result (λ _. (g : GameView) (corners : List Corner)
        → AllHold (SideRule g (whole_of program.now) corners side.now) (by_column width sign 0 program.now.more.cols)) }
    ensures broken { IfErr result (IsBreak (λ cause. (g : GameView) (corners : List Corner)
        → IsFirstCause (SideRule g (whole_of program.now) corners side.now) (by_column width sign 0 program.now.more.cols) cause)) }
{
    let first = reduced(alloc, program, Side::One, &side.first, side.den)?;
    let second = reduced(alloc, program, Side::Two, &side.second, side.den)?;
    for col in 0..first.len() {
        check_column(&side.dir, first[col], second[col])?;
    }
    Ok(())
}

/// For each column the product of the multipliers less `den` times what the column pays.
fn reduced(
    alloc: Global,
    program: &Program,
    side: Side,
    list: &NumList,
    den: i128,
) -> Result<Vec<i128>, NoMemory>
    requires bounded { IsBounded program.now }
    requires per_row { length list.now ≡ length program.now.base.rows + length program.now.more.rows }
    requires narrow { All Narrow list.now }
    requires den { Narrow den }
    ensures count { IfOk result (λ sums. length sums.items ≡ program.now.more.cols) }
    ensures left { IfOk result (λ sums. (k : ℕ) → slice_index_or sums.items k (pos 0) ≡ left_over (whole_of program.now) side den list.now k) }
{
    let mut sums = column_products(alloc, program, list)?;
    add_row(program.base.payoffs(side), opposite(den), &mut sums);
    Ok(sums)
}

fn opposite(number: i128) -> i128
    requires { Narrow number }
    ensures value { result ≡ neg_ℤ number }
    ensures narrow { Narrow result }
{
    -number
}

pub fn both_narrow(one: i128, two: i128) -> bool
    ensures one_narrow { IsTrue result → Narrow one }
    ensures two_narrow { IsTrue result → Narrow two }
    ensures back { Narrow one → Narrow two → IsTrue result }
{
    narrow(one) && narrow(two)
}

/// What is left of a column for both players, weighed with the direction.
fn weighed(dir: &Dir, one: i128, two: i128) -> i128
    requires one { Narrow one }
    requires two { Narrow two }
    ensures value { result ≡ dir.now.a *ℤ one +ℤ dir.now.b *ℤ two }
    ensures bound { unsigned_abs result < 2 ^ 127 }
{
    sum(product(dir.a, one), product(dir.b, two))
}

fn check_column(dir: &Dir, one: i128, two: i128) -> Result<(), RuleEnd>
    ensures held { IfOk result (λ _. Passes dir.now one two) }
    ensures broken { IfErr result (IsBreak (FailsAt dir.now one two)) }
{
    keep(both_narrow(one, two), Cause::Width)?;
    keep(weighed(dir, one, two) >= 0, Cause::Sign)?;
    Ok(())
}

/// The rules of multipliers that show that a program has no solution: no column's product is over 0, the total row's
/// multiplier is.
pub fn check_multipliers(alloc: Global, program: &Program, list: &NumList) -> Result<(), RuleEnd>
    requires bounded { IsBounded program.now }
    requires narrow { All Narrow list.now }
    ensures held { IfOk result (λ _. AllHold (EmptyRule (whole_of program.now) list.now) (empty_rules (whole_of program.now))) }
    ensures broken { IfErr result (IsBreak (IsFirstCause (EmptyRule (whole_of program.now) list.now) (empty_rules (whole_of program.now)))) }
{
    keep(list.len() == program.rows(), Cause::Length)?;
    let products = column_products(alloc, program, list)?;
    for col in 0..products.len() {
        keep(narrow(products[col]), Cause::Width)?;
        keep(products[col] <= 0, Cause::Sign)?;
    }
    keep(*list.at(0) > 0, Cause::Sign)?;
    Ok(())
}
