// Lists of numbers behind spaces.
ghost use Rattle.std.specs.Prelude.{OnOk, OnErr};
ghost use Rattle.text_pieces.specs.Piece.{Adds, AddsFront};
ghost use Rattle.report_text.specs.Joined.{each_text};
ghost use Rattle.report_text.specs.PartText.{behind_space, int_text, count_text, action_text};

use corr_game::Plan;
use itoa::Integer;
use lp_form::NumList;
use report_form::ColumnList;
use std::alloc::AllocError as NoMemory;
use text_pieces::{add_bytes, add_number};

/// Adds a number behind a space.
pub(crate) fn add_spaced<I: Integer>(out: &mut Vec<u8>, number: &I) -> Result<(), NoMemory>
    ensures ok { OnOk result (Adds out.old.items out.new.items (behind_space (I.text number.now))) }
    ensures err { OnErr result (AddsFront out.old.items out.new.items (behind_space (I.text number.now))) }
{
    add_bytes(out, b" ")?;
    add_number(out, number)?;
    Ok(())
}

pub(crate) fn add_action(out: &mut Vec<u8>, action: Option<u32>) -> Result<(), NoMemory>
    ensures ok { OnOk result (Adds out.old.items out.new.items (action_text action)) }
    ensures err { OnErr result (AddsFront out.old.items out.new.items (action_text action)) }
{
    match action {
        None => add_bytes(out, b" -"),
        Some(action) => add_spaced(out, &(u64::from(action) + 1)),
    }
}

pub(crate) fn add_numbers(out: &mut Vec<u8>, numbers: &NumList) -> Result<(), NoMemory>
    ensures ok { OnOk result (Adds out.old.items out.new.items (each_text int_text numbers.now)) }
    ensures err { OnErr result (AddsFront out.old.items out.new.items (each_text int_text numbers.now)) }
{
    for k in 0..numbers.len() {
        add_spaced(out, numbers.at(k))?;
    }
    Ok(())
}

pub(crate) fn add_columns(out: &mut Vec<u8>, columns: &ColumnList) -> Result<(), NoMemory>
    ensures ok { OnOk result (Adds out.old.items out.new.items (each_text count_text columns.now)) }
    ensures err { OnErr result (AddsFront out.old.items out.new.items (each_text count_text columns.now)) }
{
    for k in 0..columns.len() {
        add_spaced(out, columns.at(k))?;
    }
    Ok(())
}

pub(crate) fn add_plan(out: &mut Vec<u8>, plan: &Plan) -> Result<(), NoMemory>
    ensures ok { OnOk result (Adds out.old.items out.new.items (each_text action_text plan.now)) }
    ensures err { OnErr result (AddsFront out.old.items out.new.items (each_text action_text plan.now)) }
{
    for entry in plan.entries() {
        add_action(out, *entry)?;
    }
    Ok(())
}
