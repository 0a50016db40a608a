// The summary of what was found for a generated game.
ghost use Rattle.std.specs.Prelude.{◌≡◌, OnOk, IfOk};
ghost use Rattle.text_pieces.specs.Piece.{Adds};
ghost use Rattle.report_text.specs.Joined.{each_text};
ghost use Rattle.answer_text.specs.SummaryText.{block_summary, corner_summary, found_summary, head_text, node_count, nodes_text, polygon_summary, summary_text};

use crate::names::name_of;
use game_gen::{Kind, kind_text};
use report_form::{Block, BlockList, Corner, Corners, NamedBlock};
use report_text::add_frac;
use std::alloc::{AllocError as NoMemory, Global};
use text_pieces::{add_bytes, add_number};

/// How many nodes the generated game has.
#[tactic(auto, unfolding(crate::specs::SummaryText::node_count))]
fn nodes_of(kind: Kind, n: u32) -> u64
    ensures { result ≡ node_count kind n }
{
    match kind {
        Kind::Public | Kind::Dilemma => u64::from(n) * 7 + 1,
        Kind::Chain => u64::from(n) * 2 + 1,
    }
}

fn add_head(out: &mut Vec<u8>, kind: Kind, n: u32, seed: u64) -> Result<(), NoMemory>
    ensures { OnOk result (Adds out.old.items out.new.items (head_text kind n seed)) }
{
    add_bytes(out, b"work ")?;
    add_bytes(out, kind_text(kind))?;
    add_bytes(out, b" ")?;
    add_number(out, &n)?;
    add_bytes(out, b" ")?;
    add_number(out, &seed)?;
    add_bytes(out, b"\n")?;
    Ok(())
}

fn add_nodes(out: &mut Vec<u8>, kind: Kind, n: u32) -> Result<(), NoMemory>
    ensures { OnOk result (Adds out.old.items out.new.items (nodes_text kind n)) }
{
    add_bytes(out, b"nodes ")?;
    add_number(out, &nodes_of(kind, n))?;
    add_bytes(out, b"\n")?;
    Ok(())
}

fn add_corner(out: &mut Vec<u8>, corner: &Corner) -> Result<(), NoMemory>
    ensures { OnOk result (Adds out.old.items out.new.items (corner_summary corner.now)) }
{
    add_bytes(out, b"corner ")?;
    add_frac(out, &corner.point.one)?;
    add_bytes(out, b" ")?;
    add_frac(out, &corner.point.two)?;
    add_bytes(out, b"\n")?;
    Ok(())
}

fn add_corners(out: &mut Vec<u8>, corners: &Corners) -> Result<(), NoMemory>
    ensures { OnOk result (Adds out.old.items out.new.items (each_text corner_summary corners.now)) }
{
    for k in 0..corners.len() {
        add_corner(out, corners.at(k))?;
    }
    Ok(())
}

fn add_polygon(out: &mut Vec<u8>, corners: &Corners) -> Result<(), NoMemory>
    ensures { OnOk result (Adds out.old.items out.new.items (polygon_summary corners.now)) }
{
    add_bytes(out, b" found ")?;
    add_number(out, &corners.len())?;
    add_bytes(out, b"\n")?;
    add_corners(out, corners)?;
    Ok(())
}

#[tactic(auto, unfolding(crate::specs::SummaryText::found_summary))]
fn add_found(out: &mut Vec<u8>, block: &Block) -> Result<(), NoMemory>
    ensures { OnOk result (Adds out.old.items out.new.items (found_summary block.now)) }
{
    match block {
        Block::Found { corners, .. } => add_polygon(out, corners),
        Block::Empty { .. } => add_bytes(out, b" empty\n"),
        Block::TooWide { .. } => add_bytes(out, b" toowide\n"),
    }
}

fn add_block(out: &mut Vec<u8>, named: &NamedBlock) -> Result<(), NoMemory>
    ensures { OnOk result (Adds out.old.items out.new.items (block_summary named.now)) }
{
    add_bytes(out, name_of(named.notion))?;
    add_found(out, &named.block)?;
    Ok(())
}

fn add_blocks(out: &mut Vec<u8>, blocks: &BlockList) -> Result<(), NoMemory>
    ensures { OnOk result (Adds out.old.items out.new.items (each_text block_summary blocks.now)) }
{
    for k in 0..blocks.len() {
        add_block(out, blocks.at(k))?;
    }
    Ok(())
}

/// The summary of the blocks of the game of this kind, size and seed.
pub fn write_summary(
    alloc: Global,
    kind: Kind,
    n: u32,
    seed: u64,
    blocks: &BlockList,
) -> Result<Vec<u8>, NoMemory>
    ensures { IfOk result (λ text. text.items ≡ summary_text kind n seed blocks.now) }
{
    let mut out = Vec::new(alloc);
    add_head(&mut out, kind, n, seed)?;
    add_nodes(&mut out, kind, n)?;
    add_blocks(&mut out, blocks)?;
    Ok(out)
}
