// A block of a report: what was found for one notion.
ghost use Rattle.std.specs.Prelude.{OnOk};
ghost use Rattle.text_pieces.specs.Piece.{Adds};
ghost use Rattle.report_text.specs.Joined.{each_text, texts_from};
ghost use Rattle.report_text.specs.PartText.{pair_text, side_text};
ghost use Rattle.report_form.specs.declared.reports.Block.TheVariants.{Found};
ghost use Rattle.report_text.specs.ReportText.{corner_line, corner_text, block_text, named_block_text};

use crate::lists::add_spaced;
use crate::names::name_of;
use crate::parts::{add_frac, add_multipliers, add_pair, add_place, add_side};
use corr_game::PairList;
use plane_hull::SideList;
use report_form::{Block, Corner, Corners, NamedBlock};
use std::alloc::AllocError as NoMemory;
use text_pieces::add_bytes;

fn add_pairs(out: &mut Vec<u8>, pairs: &PairList) -> Result<(), NoMemory>
    ensures { OnOk result (Adds out.old.items out.new.items (each_text pair_text pairs.now)) }
{
    for k in 0..pairs.len() {
        add_pair(out, pairs.at(k))?;
    }
    Ok(())
}

fn add_corner_line(out: &mut Vec<u8>, number: usize, corner: &Corner) -> Result<(), NoMemory>
    ensures { OnOk result (Adds out.old.items out.new.items (corner_line number corner.now)) }
{
    add_bytes(out, b"corner")?;
    add_spaced(out, &number)?;
    add_bytes(out, b" ")?;
    add_frac(out, &corner.point.one)?;
    add_bytes(out, b" ")?;
    add_frac(out, &corner.point.two)?;
    add_bytes(out, b" total")?;
    add_spaced(out, &corner.total)?;
    Ok(())
}

fn add_corner(out: &mut Vec<u8>, number: usize, corner: &Corner) -> Result<(), NoMemory>
    ensures { OnOk result (Adds out.old.items out.new.items (corner_text number corner.now)) }
{
    add_corner_line(out, number, corner)?;
    add_bytes(out, b" pairs")?;
    add_spaced(out, &corner.pairs.len())?;
    add_bytes(out, b"\n")?;
    add_pairs(out, &corner.pairs)?;
    Ok(())
}

fn add_corners(out: &mut Vec<u8>, corners: &Corners) -> Result<(), NoMemory>
    ensures { OnOk result (Adds out.old.items out.new.items (texts_from corner_text 0 corners.now)) }
{
    for k in 0..corners.len() {
        add_corner(out, k, corners.at(k))?;
    }
    Ok(())
}

fn add_sides(out: &mut Vec<u8>, sides: &SideList) -> Result<(), NoMemory>
    ensures { OnOk result (Adds out.old.items out.new.items (each_text side_text sides.now)) }
{
    for k in 0..sides.len() {
        add_side(out, sides.at(k))?;
    }
    Ok(())
}

fn add_polygon(out: &mut Vec<u8>, corners: &Corners, sides: &SideList) -> Result<(), NoMemory>
    ensures { OnOk result (Adds out.old.items out.new.items (block_text (Found corners.now sides.now))) }
{
    add_bytes(out, b" found\ncorners")?;
    add_spaced(out, &corners.len())?;
    add_bytes(out, b"\n")?;
    add_corners(out, corners)?;
    add_bytes(out, b"sides")?;
    add_spaced(out, &sides.len())?;
    add_bytes(out, b"\n")?;
    add_sides(out, sides)?;
    Ok(())
}

fn add_block(out: &mut Vec<u8>, block: &Block) -> Result<(), NoMemory>
    ensures { OnOk result (Adds out.old.items out.new.items (block_text block.now)) }
{
    match block {
        Block::Found { corners, sides } => add_polygon(out, corners, sides),
        Block::Empty { multipliers } => {
            add_bytes(out, b" empty\n")?;
            add_multipliers(out, multipliers)
        }
        Block::TooWide { basis, place } => {
            add_bytes(out, b" toowide\n")?;
            add_place(out, basis, place)
        }
    }
}

pub(crate) fn add_named_block(out: &mut Vec<u8>, named: &NamedBlock) -> Result<(), NoMemory>
    ensures { OnOk result (Adds out.old.items out.new.items (named_block_text named.now)) }
{
    add_bytes(out, b"notion ")?;
    add_bytes(out, name_of(named.notion))?;
    add_block(out, &named.block)?;
    Ok(())
}
