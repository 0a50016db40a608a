// What a tableau shows: a corner with its solution, and the multipliers of a side.
ghost use Rattle.std.specs.Prelude.{◌≡◌, ◌↔◌, IsTrue, ◌*ℤ◌, ℕ, ◌+◌, ◌<◌, ◌≤◌, IfOk, length, All, cond, nat_eq, pos, slice_index_or};
ghost use Rattle.exact_linear.specs.Simplex.{basic_value};
ghost use Rattle.bland_simplex.specs.Ready.{IsReady};
ghost use Rattle.bland_simplex.specs.Open.{IsOpen};
ghost use Rattle.corr_num.specs.Narrow.{Narrow};
ghost use Rattle.lp_form.specs.Program.{IsProgram};
ghost use Rattle.polygon_sweep.specs.Swept.{AreEntries, IsBounding, IsCoprime, IsCornerOf, IsPointOf, IsSideOf, Reaches};
ghost use Rattle.polygon_sweep.specs.declared.corners.SweptCorner.{SweptCorner};

use crate::corners::SweptCorner;
use bland_simplex::Shape;
use corr_num::cmp_products;
use int_tableau::Tableau;
use lp_form::{Lp, NumList};
use plane_hull::{Dir, SideRow};
use std::alloc::{AllocError as NoMemory, Global};
use std::cmp::Ordering;

/// The right sides at the program's columns: of a basic column that of its row, of another 0.
fn basic_values<T: Tableau>(alloc: Global, table: &T, shape: Shape) -> Result<Vec<i128>, NoMemory>
    requires open { IsOpen shape.rows shape.cols (T.content table.now) }
    requires once { (k l : ℕ) → k < shape.rows → l < shape.rows → (T.content table.now).basic k ≡ (T.content table.now).basic l → k ≡ l }
    ensures count { IfOk result (λ values. length values.items ≡ shape.cols) }
    ensures narrow { IfOk result (λ values. All Narrow values.items) }
    ensures basic { IfOk result (λ values. (col : ℕ) → col < shape.cols → slice_index_or values.items col (pos 0) ≡ basic_value shape.rows (T.content table.now).basic (λ k. (T.content table.now).entry k (shape.cols + shape.rows)) col) }
{
    let mut values: Vec<i128> = vec![in alloc; 0; shape.cols as usize]?;
    for row in 0..shape.rows {
        put_value(table, shape, row, &mut values);
    }
    Ok(values)
}

/// Puts the right side of a row at its basic column, where that is one of the program's.
fn put_value<T: Tableau>(table: &T, shape: Shape, row: u32, values: &mut Vec<i128>)
    requires open { IsOpen shape.rows shape.cols (T.content table.now) }
    requires in_rows { row < shape.rows }
    requires count { length values.old.items ≡ shape.cols }
    requires narrow { All Narrow values.old.items }
    ensures count { length values.new.items ≡ length values.old.items }
    ensures narrow { All Narrow values.new.items }
    ensures put { (col : ℕ) → col < shape.cols → slice_index_or values.new.items col (pos 0) ≡ cond (nat_eq ((T.content table.now).basic row) col) ((T.content table.now).entry row (shape.cols + shape.rows)) (slice_index_or values.old.items col (pos 0)) }
{
    let col = table.basic(row);
    if col >= shape.cols {
        return;
    }
    values[col as usize] = table.entry(row, shape.cols + shape.rows);
}

fn listed(alloc: Global, values: &[i128]) -> Result<NumList, NoMemory>
    ensures { IfOk result (λ list. list ≡ values.now) }
{
    let mut list = NumList::with_capacity(alloc, values.len())?;
    for value in values {
        list.push(*value)?;
    }
    Ok(list)
}

/// The corner that the tableau's basic solution reaches.
pub fn corner_at<T: Tableau>(alloc: Global, lp: &Lp, table: &T) -> Result<SweptCorner, NoMemory>
    requires { IsReady lp.now (T.content table.now) }
    ensures corner { IfOk result (IsCornerOf lp.now) }
    ensures reached { IfOk result (Reaches (T.content table.now) (length lp.now.rows) (lp.now.cols + length lp.now.rows)) }
{
    let shape = Shape::of(lp);
    let right = shape.cols + shape.rows;
    let values = basic_values(alloc, table, shape)?;
    Ok(SweptCorner {
        one: table.entry(shape.rows, right),
        two: table.entry(shape.rows + 1, right),
        den: table.denom(),
        values: listed(alloc, values.as_slice())?,
    })
}

/// Whether two products are equal.
fn are_equal(a: i128, b: i128, c: i128, d: i128) -> bool
    requires a_narrow { Narrow a }
    requires b_narrow { Narrow b }
    requires c_narrow { Narrow c }
    requires d_narrow { Narrow d }
    ensures { IsTrue result ↔ (a *ℤ b ≡ c *ℤ d) }
{
    cmp_products(a, b, c, d) == Ordering::Equal
}

/// Whether the tableau's basic solution reaches the same payoffs as this corner.
pub fn reaches<T: Tableau>(table: &T, shape: Shape, corner: &SweptCorner) -> bool
    requires open { IsOpen shape.rows shape.cols (T.content table.now) }
    requires one { Narrow corner.now.one }
    requires two { Narrow corner.now.two }
    requires den { Narrow corner.now.den }
    ensures { IsTrue result ↔ Reaches (T.content table.now) shape.rows (shape.cols + shape.rows) corner.now }
{
    let right = shape.cols + shape.rows;
    let den = table.denom();
    let one = table.entry(shape.rows, right);
    let two = table.entry(shape.rows + 1, right);
    are_equal(one, corner.den, corner.one, den) && are_equal(two, corner.den, corner.two, den)
}

/// The entries of one row in the artificial columns.
fn multipliers<T: Tableau>(
    alloc: Global,
    table: &T,
    shape: Shape,
    row: u32,
) -> Result<NumList, NoMemory>
    requires open { IsOpen shape.rows shape.cols (T.content table.now) }
    requires in_rows { row < shape.rows + 3 }
    ensures { IfOk result (AreEntries (T.content table.now) row shape.cols shape.rows) }
{
    let mut list = NumList::with_capacity(alloc, shape.rows as usize)?;
    for col in 0..shape.rows {
        list.push(table.entry(row, shape.cols + col))?;
    }
    Ok(list)
}

/// The side in this direction at a corner that the tableau reaches, whose number is given too.
pub fn side_at<T: Tableau>(
    alloc: Global,
    lp: &Lp,
    table: &T,
    dir: Dir,
    corner: usize,
) -> Result<SideRow, NoMemory>
    requires ready { IsReady lp.now (T.content table.now) }
    requires coprime { IsCoprime dir }
    requires bounding { IsBounding (T.content table.now) (length lp.now.rows) lp.now.cols dir }
    ensures side { IfOk result (IsSideOf lp.now) }
    ensures direction { IfOk result (λ side. side.dir ≡ dir) }
    ensures number { IfOk result (λ side. side.corner ≡ corner) }
    ensures point { IfOk result (λ side. (found : SweptCorner) → IsProgram lp.now → Reaches (T.content table.now) (length lp.now.rows) (lp.now.cols + length lp.now.rows) found → IsPointOf side found) }
{
    let shape = Shape::of(lp);
    Ok(SideRow {
        dir,
        corner,
        den: table.denom(),
        first: multipliers(alloc, table, shape, shape.rows)?,
        second: multipliers(alloc, table, shape, shape.rows + 1)?,
    })
}
