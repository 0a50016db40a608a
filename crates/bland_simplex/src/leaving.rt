// The row whose basic column leaves.
ghost use Rattle.std.specs.Prelude.{◌≡◌, ◌↔◌, ℕ, ◌+◌, ◌<◌, ◌<ℤ◌, pos, IsTrue};
ghost use Rattle.bland_simplex.specs.Open.{IsOpen};
ghost use Rattle.bland_simplex.specs.Order.{rank, LeavesBefore, IsLeaving};

use crate::shapes::Shape;
use corr_num::cmp_products;
use int_tableau::Tableau;
use std::cmp::Ordering;

/// A column's place in the fixed order: the program's columns from the last to the first, then the artificial ones.
fn rank(shape: Shape, col: u32) -> u32
    ensures { result ≡ rank shape.cols col }
{
    if col < shape.cols {
        shape.cols - 1 - col
    } else {
        col
    }
}

/// Whether a row has the smaller ratio of right side and entry in the entering column, or the same and the basic column that
/// comes first.
fn leaves_before<T: Tableau>(table: &T, shape: Shape, col: u32, row: u32, other: u32) -> bool
    requires open { IsOpen shape.rows shape.cols (T.content table.now) }
    requires column { col < shape.cols + shape.rows }
    requires row { row < shape.rows }
    requires other { other < shape.rows }
    ensures { IsTrue result ↔ LeavesBefore shape.cols (shape.cols + shape.rows) (T.content table.now) col row other }
{
    let right = table.cols() - 1;
    let ratios = cmp_products(
        table.entry(row, right),
        table.entry(other, col),
        table.entry(other, right),
        table.entry(row, col),
    );
    let ranks = rank(shape, table.basic(row)).cmp(&rank(shape, table.basic(other)));
    ratios.then(ranks) == Ordering::Less
}

/// The row that leaves where this column enters: of those with an entry above 0 one of least ratio, ties by the order of
/// the basic columns.
pub(crate) fn leaving<T: Tableau>(table: &T, shape: Shape, col: u32) -> u32
    requires open { IsOpen shape.rows shape.cols (T.content table.now) }
    requires column { col < shape.cols + shape.rows }
    requires some_row { (row : ℕ) × (row < shape.rows) × (pos 0 <ℤ (T.content table.now).entry row col) }
    ensures { IsLeaving shape.rows shape.cols (shape.cols + shape.rows) (T.content table.now) col result }
{
    let mut first = None;
    for row in 0..shape.rows {
        if table.entry(row, col) > 0 {
            let is_first = match first {
                None => true,
                Some(other) => leaves_before(table, shape, col, row, other),
            };
            if is_first {
                first = Some(row);
            }
        }
    }
    first.unwrap()
}
