// Corners with the pairs of plans that reach them.
ghost use Rattle.std.specs.Prelude.{◌≡◌, ℕ, ◌^◌, ◌<◌, ◌≤◌, pos, ◌*ℤ◌, ◌<ℤ◌, unsigned_abs, length, take, All, IfOk};
ghost use Rattle.connected_pairs.specs.Connected.{IsPairsOf};
ghost use Rattle.corr_game.specs.Game.{IsGame, scale_of};
ghost use Rattle.corr_num.specs.Narrow.{Narrow};
ghost use Rattle.polygon_sweep.specs.Swept.{IsCornerOf};
ghost use Rattle.report_form.specs.Ranges.{IsCorner, IsPoint, IsScale};
ghost use Rattle.lp_form.specs.Program.{LpView};
ghost use Rattle.triangle_test.specs.Triangle.{HasNoTriangle};
ghost use Rattle.notion_solve.specs.Programs.{IsOverRows};
ghost use Rattle.notion_solve.specs.Shown.{ArePointsOf, IsReached};
ghost use Rattle.report_form.specs.Certified.{IsPointIn};
ghost use Rattle.notion_solve.specs.Spread.{IsSpread};

use connected_pairs::Pairs;
use corr_game::{Game, Side};
use corr_num::{Frac, product};
use lp_form::NumList;
use plan_decompose::decompose;
use plane_hull::Point;
use polygon_sweep::{CornerList, SweptCorner};
use report_form::{Corner, Corners};
use std::alloc::{AllocError as NoMemory, Global};

/// The first numbers of a list.
fn front(alloc: Global, list: &NumList, count: u32) -> Result<NumList, NoMemory>
    requires long { count ≤ length list.now }
    requires narrow { All Narrow list.now }
    ensures front { IfOk result (λ part. part ≡ take count list.now) }
    ensures narrow { IfOk result (λ part. All Narrow part) }
{
    let mut part = NumList::with_capacity(alloc, count as usize)?;
    for k in 0..count {
        part.push(*list.at(k as usize))?;
    }
    Ok(part)
}

/// A payoff's denominator in the file's units.
fn scaled(den: i128, scale: i64) -> i128
    requires positive { pos 0 <ℤ den }
    requires narrow { Narrow den }
    requires scale { IsScale scale }
    ensures product { result ≡ den *ℤ scale }
    ensures positive { pos 0 <ℤ result }
    ensures bound { unsigned_abs result < 2 ^ 126 }
{
    product(den, i128::from(scale))
}

/// A player's scale, which is in its range by the rules of a game.
fn scale_of(game: &Game, side: Side) -> i64
    ensures scale { IsScale result }
    ensures value { result ≡ scale_of side game.now }
    ensures rules { IsGame game.now }
{
    game.scale(side)
}

/// The file's payoffs at a corner.
fn point_of(game: &Game, corner: &SweptCorner) -> Point
    requires { (lp : LpView) × IsCornerOf lp corner.now }
    ensures point { IsPointIn game.now result corner.now.one corner.now.two corner.now.den }
    ensures ranges { IsPoint result }
    ensures rules { IsGame game.now }
{
    Point {
        one: Frac::of(corner.one, scaled(corner.den, scale_of(game, Side::One))),
        two: Frac::of(corner.two, scaled(corner.den, scale_of(game, Side::Two))),
    }
}

fn corner_of(
    alloc: Global,
    game: &Game,
    pairs: &Pairs,
    corner: &SweptCorner,
) -> Result<Corner, NoMemory>
    requires whose { IsPairsOf game.now pairs.now }
    requires no_triangle { HasNoTriangle pairs.now }
    requires few { length pairs.now.pairs ≤ 8192 }
    requires corner { (lp : LpView) × IsCornerOf lp corner.now × IsOverRows pairs.now lp }
    ensures ranges { IfOk result IsCorner }
    ensures spread { IfOk result (IsSpread pairs.now) }
    ensures point { IfOk result (λ made. IsPointIn game.now made.point corner.now.one corner.now.two corner.now.den) }
    ensures reached { IfOk result (λ made. (lp : LpView) → IsCornerOf lp corner.now → IsReached game.now pairs.now lp made) }
{
    let point = point_of(game, corner);
    let values = front(alloc, &corner.values, pairs.len())?;
    let pairs = decompose(alloc, game, pairs, values)?;
    Ok(Corner {
        point,
        total: corner.den,
        pairs,
    })
}

/// Each corner's payoffs and a distribution on pairs of plans that has the corner's values as column sums.
pub fn corners_of(
    alloc: Global,
    game: &Game,
    pairs: &Pairs,
    swept: &CornerList,
) -> Result<Corners, NoMemory>
    requires whose { IsPairsOf game.now pairs.now }
    requires no_triangle { HasNoTriangle pairs.now }
    requires few { length pairs.now.pairs ≤ 8192 }
    requires swept { (lp : LpView) × All (IsCornerOf lp) swept.now × IsOverRows pairs.now lp }
    ensures count { IfOk result (λ corners. length corners ≡ length swept.now) }
    ensures few { IfOk result (λ corners. length corners < 2 ^ 64) }
    ensures ranges { IfOk result (λ corners. All IsCorner corners) }
    ensures spread { IfOk result (λ corners. All (IsSpread pairs.now) corners) }
    ensures points { IfOk result (ArePointsOf game.now swept.now) }
    ensures reached { IfOk result (λ corners. (lp : LpView) → All (IsCornerOf lp) swept.now → All (IsReached game.now pairs.now lp) corners) }
{
    let mut corners = Corners::new(alloc);
    for k in 0..swept.len() {
        corners.push(corner_of(alloc, game, pairs, swept.at(k))?)?;
    }
    Ok(corners)
}
