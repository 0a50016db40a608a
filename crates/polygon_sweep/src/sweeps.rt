ghost use Rattle.std.specs.Prelude.{◌≡◌, ◌↔◌, ℕ, ◌+◌, ◌<◌, [], ◌∷◌, ◌++◌, OnOk, IfOk, IfErr, IsTrue, Some, length, slice_get};
ghost use Rattle.lp_form.specs.Program.{LpView};
ghost use Rattle.lp_form.specs.Solutions.{HasBoundedPayoffs};
ghost use Rattle.bland_simplex.specs.Improving.{IsOptimal};
ghost use Rattle.bland_simplex.specs.Reachable.{IsLeftWide, MayBeginAt};
ghost use Rattle.bland_simplex.specs.Ready.{IsReady};
ghost use Rattle.bland_simplex.specs.Steps.{IsTurning, StepsEnd, StepsLead};
ghost use Rattle.polygon_sweep.specs.Round.{AreApart, GoneRound};
ghost use Rattle.polygon_sweep.specs.Swept.{IsAt, IsBounding, IsCoprime, IsCornerOf, IsGrown, IsSideAmong, IsSwept};
ghost use Rattle.polygon_sweep.specs.Turning.{IsFullTurn};
ghost use Rattle.polygon_sweep.specs.Turns.{Arrives, Closes, HasBegun, Turns};
ghost use Rattle.plane_hull.specs.Belt.{IsAxis};

use crate::bearings::next_direction;
use crate::corners::{CornerList, Swept, SweptCorner};
use crate::readings::{corner_at, reaches, side_at};
use bland_simplex::{Shape, best};
use int_tableau::{PivotEnd, Tableau};
use lp_form::Lp;
use plane_hull::{Dir, SideList, SideRow};
use std::alloc::{AllocError as NoMemory, Global};

fn is_axis(dir: &Dir) -> bool
    requires { IsCoprime dir.now }
    ensures { IsTrue result ↔ IsAxis dir.now }
{
    dir.a == 0 || dir.b == 0
}

fn is_full_turn(dir: &Dir) -> bool
    ensures { IsTrue result ↔ IsFullTurn dir.now }
{
    dir.a == 1 && dir.b == 0
}

/// The first corner with its first side, in a tableau that bounds the first direction.
fn begin<T: Tableau>(alloc: Global, lp: &Lp, table: &T, dir: Dir) -> Result<Swept, NoMemory>
    requires ready { IsReady lp.now (T.content table.now) }
    requires coprime { IsCoprime dir }
    requires bounding { IsBounding (T.content table.now) (length lp.now.rows) lp.now.cols dir }
    ensures begun { IfOk result (IsSwept lp.now) }
    ensures at { IfOk result (λ swept. IsAt lp.now (T.content table.now) swept.corners 0) }
    ensures alone { IfOk result (HasBegun dir) }
{
    let mut corners = CornerList::new(alloc);
    corners.push(corner_at(alloc, lp, table)?)?;
    let mut sides = SideList::new(alloc);
    sides.push(side_at(alloc, lp, table, dir, 0)?)?;
    Ok(Swept { corners, sides })
}

fn add_corner(swept: &mut Swept, corner: SweptCorner) -> Result<usize, NoMemory>
    ensures last { IfOk result (λ k. slice_get swept.new.corners k ≡ Some corner) }
    ensures number { IfOk result (λ k. k ≡ length swept.old.corners) }
    ensures count { OnOk result (length swept.new.corners ≡ length swept.old.corners + 1) }
    ensures sides { OnOk result (swept.new.sides ≡ swept.old.sides) }
    ensures grown { OnOk result (IsGrown swept.old.corners swept.new.corners) }
    ensures kept { OnOk result ((lp : LpView) → IsSwept lp swept.old → IsCornerOf lp corner → IsSwept lp swept.new) }
{
    let last = swept.corners.len();
    swept.corners.push(corner)?;
    Ok(last)
}

fn add_side(swept: &mut Swept, side: SideRow) -> Result<(), NoMemory>
    ensures corners { OnOk result (swept.new.corners ≡ swept.old.corners) }
    ensures added { OnOk result (swept.new.sides ≡ swept.old.sides ++ side ∷ []) }
    ensures kept { OnOk result ((lp : LpView) → IsSwept lp swept.old → IsSideAmong lp swept.old.corners side → IsSwept lp swept.new) }
{
    swept.sides.push(side)?;
    Ok(())
}

/// The number of the corner that the tableau reaches, which is added unless it is the present one or the first.
fn arrive<T: Tableau>(
    alloc: Global,
    lp: &Lp,
    table: &T,
    present: usize,
    swept: &mut Swept,
) -> Result<usize, NoMemory>
    requires ready { IsReady lp.now (T.content table.now) }
    requires present { present < length swept.old.corners }
    requires before { IsSwept lp.now swept.old }
    ensures grown { OnOk result (IsGrown swept.old.corners swept.new.corners) }
    ensures reached { IfOk result (IsAt lp.now (T.content table.now) swept.new.corners) }
    ensures after { OnOk result (IsSwept lp.now swept.new) }
    ensures arrives { IfOk result (Arrives swept.old swept.new present) }
{
    let shape = Shape::of(lp);
    if reaches(table, shape, swept.corners.at(present)) {
        return Ok(present);
    }
    if reaches(table, shape, swept.corners.at(0)) {
        return Ok(0);
    }
    let last = add_corner(swept, corner_at(alloc, lp, table)?)?;
    Ok(last)
}

/// Turns on to the next direction, which the tableau still bounds: adds the side at the present corner,
/// where the direction is an axis or an edge leads on, and the next corner with the same side where one does. The number of
/// the corner that was reached.
fn turn<T: Tableau>(
    alloc: Global,
    lp: &Lp,
    table: &mut T,
    dir: Dir,
    present: usize,
    swept: &mut Swept,
) -> Result<usize, PivotEnd>
    requires ready { IsReady lp.now (T.content table.old) }
    requires bounded { HasBoundedPayoffs lp.now }
    requires coprime { IsCoprime dir }
    requires bounding { IsBounding (T.content table.old) (length lp.now.rows) lp.now.cols dir }
    requires present { IsAt lp.now (T.content table.old) swept.old.corners present }
    requires before { IsSwept lp.now swept.old }
    ensures ready { OnOk result (IsReady lp.now (T.content table.new)) }
    ensures optimal { OnOk result (IsOptimal (T.content table.new) (length lp.now.rows) lp.now.cols dir) }
    ensures steps { OnOk result (StepsLead (IsTurning lp.now dir) (T.content table.old) (T.content table.new)) }
    ensures end { IfErr result (StepsEnd (IsTurning lp.now dir) (T.content table.old) (T.content table.new)) }
    ensures reached { IfOk result (IsAt lp.now (T.content table.new) swept.new.corners) }
    ensures after { OnOk result (IsSwept lp.now swept.new) }
    ensures grown { OnOk result (IsGrown swept.old.corners swept.new.corners) }
    ensures turns { IfOk result (Turns dir swept.old swept.new present) }
{
    let side = side_at(alloc, lp, table, dir, present)?;
    best(lp, table, &dir)?;
    let reached = arrive(alloc, lp, table, present, swept)?;
    if reached == present && !is_axis(&dir) {
        return Ok(present);
    }
    add_side(swept, side)?;
    if reached == present {
        return Ok(present);
    }
    add_side(swept, side_at(alloc, lp, table, dir, reached)?)?;
    Ok(reached)
}

/// Adds the last side, where an edge leads from the present corner to the first one.
fn close<T: Tableau>(
    alloc: Global,
    lp: &Lp,
    table: &T,
    dir: Dir,
    present: usize,
    swept: Swept,
) -> Result<Swept, NoMemory>
    requires ready { IsReady lp.now (T.content table.now) }
    requires coprime { IsCoprime dir }
    requires bounding { IsBounding (T.content table.now) (length lp.now.rows) lp.now.cols dir }
    requires present { IsAt lp.now (T.content table.now) swept.corners present }
    requires before { IsSwept lp.now swept }
    ensures after { IfOk result (IsSwept lp.now) }
    ensures closes { IfOk result (λ closed. Closes dir swept closed present) }
{
    if present == 0 {
        return Ok(swept);
    }
    let mut swept = swept;
    add_side(&mut swept, side_at(alloc, lp, table, dir, present)?)?;
    Ok(swept)
}

/// The corners and sides of the polygon of payoffs, from a table that `feasible` left with `Start`.
///
/// Corners are in scaled payoffs; the sides stand in the order of the belt: all axes, and each edge's direction at both of
/// its ends.
pub fn sweep<T: Tableau>(alloc: Global, lp: &Lp, table: &mut T) -> Result<Swept, PivotEnd>
    requires ready { IsReady lp.now (T.content table.old) }
    requires bounded { HasBoundedPayoffs lp.now }
    ensures swept { IfOk result (IsSwept lp.now) }
    ensures round { IfOk result (λ swept. GoneRound (AreApart swept.corners) (length swept.corners) swept.sides) }
    ensures wide { IfErr result (λ end. MayBeginAt lp.now (T.content table.old) → IsLeftWide lp.now (T.content table.new) end) }
{
    let shape = Shape::of(lp);
    let mut dir = Dir { a: 1, b: 0 };
    best(lp, table, &dir)?;
    let mut swept = begin(alloc, lp, table, dir)?;
    let mut present = 0;
    loop {
        let next = next_direction(table, shape, &dir);
        if is_full_turn(&next) {
            return Ok(close(alloc, lp, table, next, present, swept)?);
        }
        present = turn(alloc, lp, table, next, present, &mut swept)?;
        dir = next;
    }
}
