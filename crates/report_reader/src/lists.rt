// Lists to the end of a line, each item behind a space.
ghost use Rattle.std.specs.Prelude.{◌≡◌, ◌++◌, All, IfOk, codes};
ghost use Rattle.corr_num.specs.Narrow.{Narrow};
ghost use Rattle.report_form.specs.Ranges.{IsAction, AscendFrom};
ghost use Rattle.report_text.specs.Joined.{each_text};
ghost use Rattle.report_text.specs.PartText.{action_text, count_text, int_text};
ghost use Rattle.report_reader.specs.Reading.{Reads};

use crate::items::{read_action, read_column, read_int};
use crate::pieces::Pieces;
use crate::refusals::Stop;
use corr_game::Plan;
use lp_form::NumList;
use report_form::ColumnList;
use std::alloc::Global;

pub(crate) fn read_numbers(alloc: Global, pieces: &mut Pieces) -> Result<NumList, Stop>
    ensures narrow { IfOk result (λ numbers. All Narrow numbers) }
    ensures text { IfOk result (λ numbers. Reads pieces.old pieces.new (each_text int_text numbers ++ codes "\n")) }
    ensures same_input { pieces.new.bytes ≡ pieces.old.bytes }
{
    let mut numbers = NumList::new(alloc);
    while pieces.take(b" ") {
        numbers.push(read_int(pieces)?)?;
    }
    pieces.expect(b"\n")?;
    Ok(numbers)
}

pub(crate) fn read_plan(alloc: Global, pieces: &mut Pieces) -> Result<Plan, Stop>
    ensures actions { IfOk result (λ plan. All IsAction plan) }
    ensures text { IfOk result (λ plan. Reads pieces.old pieces.new (each_text action_text plan ++ codes "\n")) }
    ensures same_input { pieces.new.bytes ≡ pieces.old.bytes }
{
    let mut entries = Vec::new(alloc);
    while pieces.take(b" ") {
        entries.push(read_action(pieces)?)?;
    }
    pieces.expect(b"\n")?;
    Ok(Plan::from_list(entries))
}

/// Columns that ascend. Behind the greatest column no space is read, since no column can follow it.
pub(crate) fn read_basis(alloc: Global, pieces: &mut Pieces) -> Result<ColumnList, Stop>
    ensures ascends { IfOk result (λ basis. AscendFrom 0 basis) }
    ensures text { IfOk result (λ basis. Reads pieces.old pieces.new (each_text count_text basis ++ codes "\n")) }
    ensures same_input { pieces.new.bytes ≡ pieces.old.bytes }
{
    let mut basis = ColumnList::new(alloc);
    let mut least = 0u64;
    while least < 1 << 32 && pieces.take(b" ") {
        let column = read_column(pieces, least)?;
        basis.push(column)?;
        least = u64::from(column) + 1;
    }
    pieces.expect(b"\n")?;
    Ok(basis)
}
