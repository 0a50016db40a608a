ghost use Rattle.std.specs.Prelude.{◌≡◌, ◌+◌, IfOk, IfErr, OnOk, length, true, false};
ghost use Rattle.lp_form.specs.Program.{IsProgram};
ghost use Rattle.int_tableau.specs.declared.ends.PivotEnd.TheVariants.{NoMemory};
ghost use Rattle.int_tableau.specs.Start.{IsStart};
ghost use Rattle.int_tableau.specs.Content.{IsTableau};
ghost use Rattle.bland_simplex.specs.Open.{IsOpen};
ghost use Rattle.bland_simplex.specs.Order.{AreNone, FindsFirst};
ghost use Rattle.bland_simplex.specs.Ready.{IsUnderWay, IsLowered};
ghost use Rattle.bland_simplex.specs.Multipliers.{IsStuck, AreMultipliers};
ghost use Rattle.bland_simplex.specs.Lowering.{Lowers};
ghost use Rattle.bland_simplex.specs.Steps.{IsFirstStep, StepsLead, StepsEnd};
ghost use Rattle.bland_simplex.specs.Answer.{FoundFor, IsTrueOf};

use crate::driving::drive_out;
use crate::leaving::leaving;
use crate::shapes::Shape;
use corr_num::difference;
use int_tableau::{PivotEnd, Tableau};
use lp_form::{Lp, NumList};
use std::alloc::Global;

/// What the first phase found.
#[derive(Debug, Drop)]
pub enum Found {
    /// The table is feasible.
    Start,
    /// The program has no solution, as these multipliers of its rows show.
    Empty { multipliers: NumList },
}

/// The first column of the program, in the fixed order, that is negative in Phase.
fn entering_program<T: Tableau>(table: &T, shape: Shape) -> Option<u32>
    requires { IsOpen shape.rows shape.cols (T.content table.now) }
    ensures { FindsFirst shape.cols shape.cols (Lowers (T.content table.now) shape.rows) result }
{
    for behind in 0..shape.cols {
        let col = shape.cols - 1 - behind;
        if table.entry(shape.rows + 2, col) < 0 {
            return Some(col);
        }
    }
    None
}

/// The first artificial column that is negative in Phase, where none of the program's is.
fn entering_artificial<T: Tableau>(table: &T, shape: Shape) -> Option<u32>
    requires open { IsOpen shape.rows shape.cols (T.content table.now) }
    requires program { AreNone shape.cols (Lowers (T.content table.now) shape.rows) }
    ensures { FindsFirst shape.cols (shape.cols + shape.rows) (Lowers (T.content table.now) shape.rows) result }
{
    for row in 0..shape.rows {
        let col = shape.cols + row;
        if table.entry(shape.rows + 2, col) < 0 {
            return Some(col);
        }
    }
    None
}

/// The column that enters in the first phase: artificial ones are offered only where none of the program's may enter.
fn entering<T: Tableau>(table: &T, shape: Shape) -> Option<u32>
    requires { IsOpen shape.rows shape.cols (T.content table.now) }
    ensures { FindsFirst shape.cols (shape.cols + shape.rows) (Lowers (T.content table.now) shape.rows) result }
{
    match entering_program(table, shape) {
        Some(col) => Some(col),
        None => entering_artificial(table, shape),
    }
}

/// Pivots until Phase's right side is 0, or no column may enter. Whether it is 0. It ends by Bland's rule.
fn lower_phase<T: Tableau>(lp: &Lp, table: &mut T) -> Result<bool, PivotEnd>
    requires { IsUnderWay lp.now (T.content table.old) }
    ensures way { OnOk result (IsUnderWay lp.now (T.content table.new)) }
    ensures lowered { IfOk result (λ lowered. lowered ≡ true → IsLowered lp.now (T.content table.new)) }
    ensures stuck { IfOk result (λ lowered. lowered ≡ false → IsStuck (length lp.now.rows) lp.now.cols (T.content table.new)) }
    ensures steps { OnOk result (StepsLead (IsFirstStep lp.now) (T.content table.old) (T.content table.new)) }
    ensures end { IfErr result (StepsEnd (IsFirstStep lp.now) (T.content table.old) (T.content table.new)) }
{
    let shape = Shape::of(lp);
    while table.entry(shape.rows + 2, shape.cols + shape.rows) != 0 {
        let Some(col) = entering(table, shape) else {
            return Ok(false);
        };
        let row = leaving(table, shape, col);
        table.pivot(row, col)?;
    }
    Ok(true)
}

/// The multipliers that show that there is no solution, put into a list with room for them.
fn multipliers<T: Tableau>(table: &T, shape: Shape, list: NumList) -> Result<NumList, PivotEnd>
    requires open { IsOpen shape.rows shape.cols (T.content table.now) }
    requires stuck { IsStuck shape.rows shape.cols (T.content table.now) }
    requires empty { length list ≡ 0 }
    ensures read { IfOk result (AreMultipliers shape.rows shape.cols (T.content table.now)) }
    ensures short { IfErr result (λ end. end ≡ NoMemory) }
{
    let mut list = list;
    let denom = table.denom();
    for row in 0..shape.rows {
        let phase = table.entry(shape.rows + 2, shape.cols + row);
        list.push(difference(denom, phase))?;
    }
    Ok(list)
}

/// Leads from the starting tableau to a ready one, or to multipliers that show that the program has no solution.
///
/// Its list is reserved before the first pivot. Both phases end by themselves.
pub fn feasible<T: Tableau>(alloc: Global, lp: &Lp, table: &mut T) -> Result<Found, PivotEnd>
    requires program { IsProgram lp.now }
    requires start { IsStart lp.now (T.content table.old) }
    requires rules { IsTableau (T.content table.old) }
    ensures way { OnOk result (IsUnderWay lp.now (T.content table.new)) }
    ensures found { IfOk result (FoundFor lp.now (T.content table.new)) }
    ensures exactly { IfOk result (IsTrueOf lp.now) }
    ensures steps { OnOk result (StepsLead (IsFirstStep lp.now) (T.content table.old) (T.content table.new)) }
    ensures end { IfErr result (StepsEnd (IsFirstStep lp.now) (T.content table.old) (T.content table.new)) }
{
    let shape = Shape::of(lp);
    let list = NumList::with_capacity(alloc, shape.rows as usize)?;
    if lower_phase(lp, table)? {
        drive_out(lp, table)?;
        Ok(Found::Start)
    } else {
        Ok(Found::Empty {
            multipliers: multipliers(table, shape, list)?,
        })
    }
}
