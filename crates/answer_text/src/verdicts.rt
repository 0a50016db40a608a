// The line of a verdict.
ghost use Rattle.std.specs.Prelude.{◌≡◌, ◌++◌, [], codes, OnOk, IfOk};
ghost use Rattle.text_pieces.specs.Piece.{Adds};
ghost use Rattle.report_text.specs.Joined.{each_text};
ghost use Rattle.report_text.specs.NameText.{notion_name};
ghost use Rattle.answer_text.specs.VerdictText.{cause_text, item_text, verdict_text, wide_name};

use crate::names::{name_of, player};
use corr_game::{Notion, Side};
use report_form::{Block, BlockList, Cause, Item, NamedBlock, Verdict};
use std::alloc::{AllocError as NoMemory, Global};
use text_pieces::{add_bytes, add_number};

fn add_gain(out: &mut Vec<u8>, side: Side) -> Result<(), NoMemory>
    ensures { OnOk result (Adds out.old.items out.new.items (cause_text (Cause.Gain side))) }
{
    add_bytes(out, b"Gain player ")?;
    add_bytes(out, player(side))?;
    Ok(())
}

#[tactic(auto, unfolding(crate::specs::VerdictText::cause_text))]
fn add_cause(out: &mut Vec<u8>, cause: Cause) -> Result<(), NoMemory>
    ensures { OnOk result (Adds out.old.items out.new.items (cause_text cause)) }
{
    match cause {
        Cause::Plan => add_bytes(out, b"Plan"),
        Cause::Total => add_bytes(out, b"Total"),
        Cause::Width => add_bytes(out, b"Width"),
        Cause::Point => add_bytes(out, b"Point"),
        Cause::Gain(side) => add_gain(out, side),
        Cause::Belt => add_bytes(out, b"Belt"),
        Cause::Length => add_bytes(out, b"Length"),
        Cause::Sign => add_bytes(out, b"Sign"),
    }
}

fn add_corner_fault(out: &mut Vec<u8>, number: usize, cause: Cause) -> Result<(), NoMemory>
    ensures { OnOk result (Adds out.old.items out.new.items (item_text (Item.Corner number) cause)) }
{
    add_bytes(out, b"corner ")?;
    add_number(out, &number)?;
    add_bytes(out, b" ")?;
    add_cause(out, cause)?;
    Ok(())
}

fn add_belt_fault(out: &mut Vec<u8>, side: usize, cause: Cause) -> Result<(), NoMemory>
    ensures { OnOk result (Adds out.old.items out.new.items (item_text (Item.Belt side) cause)) }
{
    add_bytes(out, b"belt ")?;
    add_number(out, &side)?;
    Ok(())
}

fn add_side_fault(out: &mut Vec<u8>, number: usize, cause: Cause) -> Result<(), NoMemory>
    ensures { OnOk result (Adds out.old.items out.new.items (item_text (Item.Side number) cause)) }
{
    add_bytes(out, b"side ")?;
    add_number(out, &number)?;
    add_bytes(out, b" ")?;
    add_cause(out, cause)?;
    Ok(())
}

fn add_multipliers_fault(out: &mut Vec<u8>, cause: Cause) -> Result<(), NoMemory>
    ensures { OnOk result (Adds out.old.items out.new.items (item_text Item.Multipliers cause)) }
{
    add_bytes(out, b"multipliers ")?;
    add_cause(out, cause)?;
    Ok(())
}

/// Where the rule fails, and which one.
fn add_item(out: &mut Vec<u8>, item: Item, cause: Cause) -> Result<(), NoMemory>
    ensures { OnOk result (Adds out.old.items out.new.items (item_text item cause)) }
{
    match item {
        Item::Corner(number) => add_corner_fault(out, number, cause),
        Item::Belt(side) => add_belt_fault(out, side, cause),
        Item::Side(number) => add_side_fault(out, number, cause),
        Item::Multipliers => add_multipliers_fault(out, cause),
    }
}

fn add_no(out: &mut Vec<u8>, notion: Notion, item: Item, cause: Cause) -> Result<(), NoMemory>
    ensures { OnOk result (Adds out.old.items out.new.items (verdict_text (Verdict.No notion item cause) [])) }
{
    add_bytes(out, b"no ")?;
    add_bytes(out, name_of(notion))?;
    add_bytes(out, b" ")?;
    add_item(out, item, cause)?;
    add_bytes(out, b"\n")?;
    Ok(())
}

fn add_wide(out: &mut Vec<u8>, notion: Notion) -> Result<(), NoMemory>
    ensures { OnOk result (Adds out.old.items out.new.items (codes " " ++ notion_name notion)) }
{
    add_bytes(out, b" ")?;
    add_bytes(out, name_of(notion))?;
    Ok(())
}

#[tactic(auto, unfolding(crate::specs::VerdictText::name_if_wide))]
fn add_wide_name(out: &mut Vec<u8>, named: &NamedBlock) -> Result<(), NoMemory>
    ensures { OnOk result (Adds out.old.items out.new.items (wide_name named.now)) }
{
    match &named.block {
        Block::TooWide { .. } => add_wide(out, named.notion),
        Block::Found { .. } => Ok(()),
        Block::Empty { .. } => Ok(()),
    }
}

fn add_wide_names(out: &mut Vec<u8>, blocks: &BlockList) -> Result<(), NoMemory>
    ensures { OnOk result (Adds out.old.items out.new.items (each_text wide_name blocks.now)) }
{
    for k in 0..blocks.len() {
        add_wide_name(out, blocks.at(k))?;
    }
    Ok(())
}

fn add_partial(out: &mut Vec<u8>, blocks: &BlockList) -> Result<(), NoMemory>
    ensures { OnOk result (Adds out.old.items out.new.items (verdict_text Verdict.Partial blocks.now)) }
{
    add_bytes(out, b"partial")?;
    add_wide_names(out, blocks)?;
    add_bytes(out, b"\n")?;
    Ok(())
}

#[tactic(auto, unfolding(crate::specs::VerdictText::verdict_text))]
fn add_verdict(out: &mut Vec<u8>, verdict: Verdict, blocks: &BlockList) -> Result<(), NoMemory>
    ensures { OnOk result (Adds out.old.items out.new.items (verdict_text verdict blocks.now)) }
{
    match verdict {
        Verdict::Yes => add_bytes(out, b"yes\n"),
        Verdict::Partial => add_partial(out, blocks),
        Verdict::NoScale => add_bytes(out, b"no scale\n"),
        Verdict::No {
            notion,
            item,
            cause,
        } => add_no(out, notion, item, cause),
    }
}

/// The line of a verdict on a report with these blocks.
pub fn write_verdict(
    alloc: Global,
    verdict: Verdict,
    blocks: &BlockList,
) -> Result<Vec<u8>, NoMemory>
    ensures { IfOk result (λ text. text.items ≡ verdict_text verdict blocks.now) }
{
    let mut out = Vec::new(alloc);
    add_verdict(&mut out, verdict, blocks)?;
    Ok(out)
}
