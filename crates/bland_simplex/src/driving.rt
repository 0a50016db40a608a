// Artificial columns are driven out of the basis.
ghost use Rattle.std.specs.Prelude.{◌≡◌, ◌<◌, ◌≤◌, true, IfErr, IfSome, IsSome, OnOk, None};
ghost use Rattle.bland_simplex.specs.Open.{IsOpen};
ghost use Rattle.bland_simplex.specs.Driven.{IsDriven, IsZeroRow, DrivesOut, FindsOut};
ghost use Rattle.bland_simplex.specs.Ready.{IsLowered, IsReady};
ghost use Rattle.bland_simplex.specs.Steps.{IsFirstStep, StepsLead, StepsEnd};

use crate::shapes::Shape;
use int_tableau::{PivotEnd, Tableau};
use lp_form::Lp;

/// An entry that isn't 0, and its magnitude.
#[derive(Clone, Copy)]
struct Candidate {
    row: u32,
    col: u32,
    magnitude: u128,
}

/// Whether nothing is smaller: the search may stop.
fn is_least(found: Option<Candidate>) -> bool
    ensures { result ≡ true → IsSome found }
{
    matches!(found, Some(Candidate { magnitude: 1, .. }))
}

/// The candidate, or an entry of this row that is smaller: the first of the least magnitude in the program's columns. It stops at
/// a magnitude of 1.
fn smaller_in_row<T: Tableau>(
    table: &T,
    shape: Shape,
    row: u32,
    best: Option<Candidate>,
) -> Option<Candidate>
    requires open { IsOpen shape.rows shape.cols (T.content table.now) }
    requires row { row < shape.rows }
    requires artificial { shape.cols ≤ (T.content table.now).basic row }
    requires best { IfSome best (λ c. DrivesOut (T.content table.now) shape.rows shape.cols c.row c.col) }
    ensures { FindsOut (T.content table.now) shape.rows shape.cols ((best ≡ None) × IsZeroRow (T.content table.now) shape.cols row) result }
{
    let mut least = best;
    for col in 0..shape.cols {
        let magnitude = table.entry(row, col).unsigned_abs();
        let is_smaller = match least {
            None => true,
            Some(other) => magnitude < other.magnitude,
        };
        if magnitude != 0 && is_smaller {
            least = Some(Candidate {
                row,
                col,
                magnitude,
            });
            if magnitude == 1 {
                return least;
            }
        }
    }
    least
}

/// The first entry of least magnitude, by row and column, in the rows with basic artificial columns and the program's columns.
fn smallest<T: Tableau>(table: &T, shape: Shape) -> Option<Candidate>
    requires { IsOpen shape.rows shape.cols (T.content table.now) }
    ensures { FindsOut (T.content table.now) shape.rows shape.cols (IsDriven (T.content table.now) shape.rows shape.cols) result }
{
    let mut least: Option<Candidate> = None;
    for row in 0..shape.rows {
        if table.basic(row) >= shape.cols {
            least = smaller_in_row(table, shape, row, least);
            if is_least(least) {
                return least;
            }
        }
    }
    least
}

/// Drives artificial columns out of the basis until their rows are 0 in the program's columns. Each turn leaves one less.
pub(crate) fn drive_out<T: Tableau>(lp: &Lp, table: &mut T) -> Result<(), PivotEnd>
    requires { IsLowered lp.now (T.content table.old) }
    ensures ready { OnOk result (IsReady lp.now (T.content table.new)) }
    ensures steps { OnOk result (StepsLead (IsFirstStep lp.now) (T.content table.old) (T.content table.new)) }
    ensures end { IfErr result (StepsEnd (IsFirstStep lp.now) (T.content table.old) (T.content table.new)) }
{
    let shape = Shape::of(lp);
    while let Some(least) = smallest(table, shape) {
        table.pivot(least.row, least.col)?;
    }
    Ok(())
}
