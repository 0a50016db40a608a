ghost use Rattle.std.specs.Prelude.{◌≢◌, ◌↔◌, IsTrue, ◌<◌, IfErr, OnOk, length};
ghost use Rattle.lp_form.specs.Solutions.{HasBoundedPayoffs};
ghost use Rattle.bland_simplex.specs.Open.{IsOpen};
ghost use Rattle.bland_simplex.specs.Greatest.{IsGreatest};
ghost use Rattle.bland_simplex.specs.Improving.{Improves, IsOptimal};
ghost use Rattle.bland_simplex.specs.Order.{FindsFirst};
ghost use Rattle.bland_simplex.specs.Ready.{IsReady};
ghost use Rattle.bland_simplex.specs.Steps.{IsTurning, StepsLead, StepsEnd};

use crate::leaving::leaving;
use crate::shapes::Shape;
use corr_num::cmp_products;
use int_tableau::{PivotEnd, Tableau};
use lp_form::Lp;
use plane_hull::Dir;
use std::cmp::Ordering;

/// Whether a column improves the tableau for the direction or, where the direction is indifferent, for its left turn.
fn improves<T: Tableau>(table: &T, shape: Shape, dir: &Dir, col: u32) -> bool
    requires open { IsOpen shape.rows shape.cols (T.content table.now) }
    requires column { col < shape.cols }
    ensures { IsTrue result ↔ Improves (T.content table.now) shape.rows dir.now col }
{
    let first = table.entry(shape.rows, col);
    let second = table.entry(shape.rows + 1, col);
    match cmp_products(dir.a, first, -dir.b, second) {
        Ordering::Less => true,
        Ordering::Equal => cmp_products(dir.a, second, dir.b, first) == Ordering::Less,
        Ordering::Greater => false,
    }
}

/// The first improving column of the program in the fixed order.
fn improving<T: Tableau>(table: &T, shape: Shape, dir: &Dir) -> Option<u32>
    requires { IsOpen shape.rows shape.cols (T.content table.now) }
    ensures { FindsFirst shape.cols shape.cols (Improves (T.content table.now) shape.rows dir.now) result }
{
    for behind in 0..shape.cols {
        let col = shape.cols - 1 - behind;
        if improves(table, shape, dir, col) {
            return Some(col);
        }
    }
    None
}

/// Pivots on to a tableau that is optimal for the direction and, among the optima, for its left turn.
///
/// The table is one that `feasible` or this call left. It takes no memory of its own, and ends by Bland's rule.
pub fn best<T: Tableau>(lp: &Lp, table: &mut T, dir: &Dir) -> Result<(), PivotEnd>
    requires ready { IsReady lp.now (T.content table.old) }
    requires bounded { HasBoundedPayoffs lp.now }
    ensures ready { OnOk result (IsReady lp.now (T.content table.new)) }
    ensures greatest { OnOk result (IsGreatest lp.now (T.content table.new) dir.now) }
    ensures optimal { OnOk result (IsOptimal (T.content table.new) (length lp.now.rows) lp.now.cols dir.now) }
    ensures steps { OnOk result (StepsLead (IsTurning lp.now dir.now) (T.content table.old) (T.content table.new)) }
    ensures end { IfErr result (StepsEnd (IsTurning lp.now dir.now) (T.content table.old) (T.content table.new)) }
{
    let shape = Shape::of(lp);
    while let Some(col) = improving(table, shape, dir) {
        let row = leaving(table, shape, col);
        table.pivot(row, col)?;
    }
    Ok(())
}
