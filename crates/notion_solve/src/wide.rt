// The block of a tableau that is too wide.
ghost use Rattle.std.specs.Prelude.{◌≡◌, ◌^◌, ◌<◌, ℕ, Some, true, length, slice_get, IfOk};
ghost use Rattle.int_tableau.specs.Content.{IsProgramRow};
ghost use Rattle.report_form.specs.Ranges.{AscendFrom, IsBlock};
ghost use Rattle.notion_solve.specs.WideBlock.{NamesBasis};

use int_tableau::Tableau;
use lp_form::Place;
use report_form::{Block, ColumnList};
use std::alloc::{AllocError as NoMemory, Global};

/// Whether each column is basic.
fn basic_columns<T: Tableau>(alloc: Global, table: &T) -> Result<Vec<bool>, NoMemory>
    ensures count { IfOk result (λ basic. length basic.items ≡ (T.content table.now).cols) }
    ensures few { IfOk result (λ basic. length basic.items < 2 ^ 32) }
    ensures all { IfOk result (λ basic. (row : ℕ) → IsProgramRow (T.content table.now) row
        → slice_get basic.items ((T.content table.now).basic row) ≡ Some true) }
    ensures only { IfOk result (λ basic. (col : ℕ) → slice_get basic.items col ≡ Some true
        → (row : ℕ) × IsProgramRow (T.content table.now) row × ((T.content table.now).basic row ≡ col)) }
{
    let mut basic: Vec<bool> = vec![in alloc; false; table.cols() as usize]?;
    for row in 0..table.rows() - 3 {
        basic[table.basic(row) as usize] = true;
    }
    Ok(basic)
}

/// The columns that are marked, in ascending order.
fn marked(alloc: Global, marks: &[bool]) -> Result<ColumnList, NoMemory>
    requires { length marks.now < 2 ^ 32 }
    ensures ascend { IfOk result (λ columns. AscendFrom 0 columns) }
    ensures all { IfOk result (λ columns. (col : ℕ) → slice_get marks.now col ≡ Some true
        → (k : ℕ) × (slice_get columns k ≡ Some col)) }
    ensures only { IfOk result (λ columns. (k col : ℕ) → slice_get columns k ≡ Some col → slice_get marks.now col ≡ Some true) }
{
    let mut columns = ColumnList::new(alloc);
    for (col, mark) in marks.iter().enumerate() {
        if *mark {
            columns.push(col as u32)?;
        }
    }
    Ok(columns)
}

/// The block that names the tableau's basis, in ascending order, and a place at which it is wide.
pub fn too_wide<T: Tableau>(alloc: Global, table: &T, place: Place) -> Result<Block, NoMemory>
    ensures ranges { IfOk result IsBlock }
    ensures names { IfOk result (NamesBasis (T.content table.now) place) }
{
    let basic = basic_columns(alloc, table)?;
    Ok(Block::TooWide {
        basis: marked(alloc, basic.as_slice())?,
        place,
    })
}
