// Whether multipliers show something of a linear program, column by column.
ghost use Rattle.std.specs.Prelude.{◌≡◌, ◌↔◌, ℕ, ◌^◌, ◌<◌, ◌≤◌, pos, ◌+ℤ◌, ◌*ℤ◌, ◌≤ℤ◌, ◌<ℤ◌, length, slice_index_or, unsigned_abs, IsTrue};
ghost use Rattle.corr_game.specs.declared.sides.Side.{Side};
ghost use Rattle.lp_form.specs.Certificates.{Certify, ShowEmpty, left_over, times_column};
ghost use Rattle.lp_form.specs.Program.{coefficient, payoff_of};
ghost use Rattle.plain_programs.specs.Moderate.{AreModerate, IsModerate, left_along};

use corr_game::Side;
use corr_num::{difference, product, sum};
use lp_form::{Lp, NumList};
use plane_hull::Dir;

/// Whether a program has at most 256 rows, and coefficients and payoffs up to 2^30.
pub fn is_moderate(lp: &Lp) -> bool
    ensures { IsTrue result ↔ IsModerate lp.now }
{
    lp.rows() <= 256 && has_moderate_rows(lp) && pays_moderately(lp)
}

fn has_moderate_rows(lp: &Lp) -> bool
    ensures { IsTrue result ↔ ((row col : ℕ) → row < length lp.now.rows → col < lp.now.cols → unsigned_abs (coefficient lp.now row col) ≤ 2 ^ 30) }
{
    for row in 0..lp.rows() {
        if !is_moderate_row(lp, row) {
            return false;
        }
    }
    true
}

fn is_moderate_row(lp: &Lp, row: u32) -> bool
    requires { row < length lp.now.rows }
    ensures { IsTrue result ↔ ((col : ℕ) → col < lp.now.cols → unsigned_abs (coefficient lp.now row col) ≤ 2 ^ 30) }
{
    for col in 0..lp.cols() {
        if lp.coef(row, col).unsigned_abs() > 1 << 30 {
            return false;
        }
    }
    true
}

fn pays_moderately(lp: &Lp) -> bool
    ensures { IsTrue result ↔ ((side : Side) (col : ℕ) → col < lp.now.cols → unsigned_abs (payoff_of side lp.now col) ≤ 2 ^ 30) }
{
    has_moderate_payoffs(lp, Side::One) && has_moderate_payoffs(lp, Side::Two)
}

fn has_moderate_payoffs(lp: &Lp, side: Side) -> bool
    ensures { IsTrue result ↔ ((col : ℕ) → col < lp.now.cols → unsigned_abs (payoff_of side lp.now col) ≤ 2 ^ 30) }
{
    for col in 0..lp.cols() {
        if lp.payoff(side, col).unsigned_abs() > 1 << 30 {
            return false;
        }
    }
    true
}

/// Whether multipliers are up to 2^20.
pub fn are_moderate(multipliers: &NumList) -> bool
    ensures { IsTrue result ↔ AreModerate multipliers.now }
{
    for k in 0..multipliers.len() {
        if multipliers.at(k).unsigned_abs() > 1 << 20 {
            return false;
        }
    }
    true
}

/// Whether these multipliers for the players' payoffs, over one denominator, certify a direction.
#[tactic(auto, unfolding(crate::specs::Moderate::left_along))]
pub fn certifies(lp: &Lp, dir: &Dir, den: i128, first: &NumList, second: &NumList) -> bool
    requires moderate { IsModerate lp.now }
    requires moderate_first { AreModerate first.now }
    requires moderate_second { AreModerate second.now }
    requires moderate_den { unsigned_abs den ≤ 2 ^ 20 }
    ensures { IsTrue result ↔ Certify lp.now dir.now.a dir.now.b den first.now second.now }
{
    den > 0
        && has_one_a_row(lp, first)
        && has_one_a_row(lp, second)
        && leaves_none_below_0(lp, dir, den, first, second)
}

/// Whether these multipliers show that a program has no solution whose right sides are 1 in the first row and 0 in the
/// others.
pub fn shows_empty(lp: &Lp, multipliers: &NumList) -> bool
    requires moderate { IsModerate lp.now }
    requires moderate_multipliers { AreModerate multipliers.now }
    ensures { IsTrue result ↔ ShowEmpty lp.now multipliers.now }
{
    has_one_a_row(lp, multipliers)
        && begins_above_0(multipliers)
        && makes_none_above_0(lp, multipliers)
}

fn has_one_a_row(lp: &Lp, multipliers: &NumList) -> bool
    ensures { IsTrue result ↔ (length multipliers.now ≡ length lp.now.rows) }
{
    multipliers.len() == lp.rows() as usize
}

fn begins_above_0(multipliers: &NumList) -> bool
    ensures { IsTrue result ↔ (pos 0 <ℤ slice_index_or multipliers.now 0 (pos 0)) }
{
    multipliers.len() > 0 && *multipliers.at(0) > 0
}

/// Whether what the multipliers leave of each column, weighed with the direction, is 0 or more.
fn leaves_none_below_0(lp: &Lp, dir: &Dir, den: i128, first: &NumList, second: &NumList) -> bool
    requires moderate { IsModerate lp.now }
    requires moderate_first { AreModerate first.now }
    requires moderate_second { AreModerate second.now }
    requires moderate_den { unsigned_abs den ≤ 2 ^ 20 }
    requires one_each { length first.now ≡ length lp.now.rows }
    requires two_each { length second.now ≡ length lp.now.rows }
    ensures { IsTrue result ↔ ((col : ℕ) → col < lp.now.cols → pos 0 ≤ℤ left_along lp.now dir.now den first.now second.now col) }
{
    for col in 0..lp.cols() {
        if weighed_left(lp, dir, den, (first, second), col) < 0 {
            return false;
        }
    }
    true
}

/// Whether what the multipliers make of each column is 0 or less.
fn makes_none_above_0(lp: &Lp, multipliers: &NumList) -> bool
    requires moderate { IsModerate lp.now }
    requires moderate_multipliers { AreModerate multipliers.now }
    requires one_each { length multipliers.now ≡ length lp.now.rows }
    ensures { IsTrue result ↔ ((col : ℕ) → col < lp.now.cols → times_column lp.now multipliers.now col ≤ℤ pos 0) }
{
    for col in 0..lp.cols() {
        if column_product(lp, multipliers, col) > 0 {
            return false;
        }
    }
    true
}

/// What the multipliers leave of a column for both players, weighed with the direction.
#[tactic(auto, unfolding(crate::specs::Moderate::left_along))]
fn weighed_left(lp: &Lp, dir: &Dir, den: i128, lists: (&NumList, &NumList), col: u32) -> i128
    requires moderate { IsModerate lp.now }
    requires moderate_first { AreModerate lists.0.now }
    requires moderate_second { AreModerate lists.1.now }
    requires moderate_den { unsigned_abs den ≤ 2 ^ 20 }
    requires one_each { length lists.0.now ≡ length lp.now.rows }
    requires two_each { length lists.1.now ≡ length lp.now.rows }
    requires in_columns { col < lp.now.cols }
    ensures { result ≡ left_along lp.now dir.now den lists.entry.0.now lists.entry.1.now col }
{
    let one = left_of(lp, Side::One, den, lists.0, col);
    let two = left_of(lp, Side::Two, den, lists.1, col);
    weighed(dir, one, two)
}

/// Two numbers, weighed with the direction.
fn weighed(dir: &Dir, one: i128, two: i128) -> i128
    requires one { unsigned_abs one ≤ 2 ^ 59 }
    requires two { unsigned_abs two ≤ 2 ^ 59 }
    ensures { result ≡ dir.now.a *ℤ one +ℤ dir.now.b *ℤ two }
{
    sum(product(dir.a, one), product(dir.b, two))
}

/// What the multipliers leave of a column when a player's payoff there is taken away.
fn left_of(lp: &Lp, side: Side, den: i128, multipliers: &NumList, col: u32) -> i128
    requires moderate { IsModerate lp.now }
    requires moderate_multipliers { AreModerate multipliers.now }
    requires moderate_den { unsigned_abs den ≤ 2 ^ 20 }
    requires one_each { length multipliers.now ≡ length lp.now.rows }
    requires in_columns { col < lp.now.cols }
    ensures value { result ≡ left_over lp.now side den multipliers.now col }
    ensures bound { unsigned_abs result ≤ 2 ^ 59 }
{
    difference(
        column_product(lp, multipliers, col),
        paid_times(lp, side, den, col),
    )
}

/// The denominator times a player's payoff in a column.
fn paid_times(lp: &Lp, side: Side, den: i128, col: u32) -> i128
    requires moderate { IsModerate lp.now }
    requires moderate_den { unsigned_abs den ≤ 2 ^ 20 }
    requires in_columns { col < lp.now.cols }
    ensures value { result ≡ den *ℤ payoff_of side lp.now col }
    ensures bound { unsigned_abs result ≤ 2 ^ 50 }
{
    product(den, i128::from(lp.payoff(side, col)))
}

/// What the multipliers make of a column.
fn column_product(lp: &Lp, multipliers: &NumList, col: u32) -> i128
    requires moderate { IsModerate lp.now }
    requires moderate_multipliers { AreModerate multipliers.now }
    requires one_each { length multipliers.now ≡ length lp.now.rows }
    requires in_columns { col < lp.now.cols }
    ensures value { result ≡ times_column lp.now multipliers.now col }
    ensures bound { unsigned_abs result ≤ 2 ^ 58 }
{
    let mut total = 0;
    for row in 0..lp.rows() {
        total = sum(total, row_term(lp, multipliers, row, col));
    }
    total
}

/// A row's multiplier times its coefficient in a column.
fn row_term(lp: &Lp, multipliers: &NumList, row: u32, col: u32) -> i128
    requires moderate { IsModerate lp.now }
    requires moderate_multipliers { AreModerate multipliers.now }
    requires in_rows { row < length lp.now.rows }
    requires one_each { length multipliers.now ≡ length lp.now.rows }
    requires in_columns { col < lp.now.cols }
    ensures value { result ≡ slice_index_or multipliers.now row (pos 0) *ℤ coefficient lp.now row col }
    ensures bound { unsigned_abs result ≤ 2 ^ 50 }
{
    product(*multipliers.at(row as usize), i128::from(lp.coef(row, col)))
}
