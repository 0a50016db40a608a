ghost use Rattle.std.specs.Prelude.{◌≡◌, ◌≤◌, IfOk, codes};
ghost use Rattle.report_form.specs.Ranges.{IsBlock, notion_number};
ghost use Rattle.report_text.specs.ReportText.{block_text, named_block_text};
ghost use Rattle.report_reader.specs.Reading.{Reads, ReadsBehind};

use crate::items::{read_column, read_notion, read_row};
use crate::lines::{read_corners, read_count_line, read_sides};
use crate::lists::{read_basis, read_numbers};
use crate::pieces::Pieces;
use crate::refusals::Stop;
use lp_form::Place;
use report_form::{Block, NamedBlock};
use std::alloc::Global;

fn read_polygon(alloc: Global, pieces: &mut Pieces) -> Result<Block, Stop>
    ensures block { IfOk result (λ block. IsBlock block) }
    ensures text { IfOk result (λ block. ReadsBehind (codes " found") pieces.old pieces.new (block_text block)) }
    ensures same_input { pieces.new.bytes ≡ pieces.old.bytes }
{
    pieces.expect(b"\n")?;
    let corner_count = read_count_line(pieces, b"corners")?;
    let corners = read_corners(alloc, pieces, corner_count)?;
    let side_count = read_count_line(pieces, b"sides")?;
    let sides = read_sides(alloc, pieces, side_count, corner_count)?;
    Ok(Block::Found { corners, sides })
}

fn read_empty(alloc: Global, pieces: &mut Pieces) -> Result<Block, Stop>
    ensures block { IfOk result (λ block. IsBlock block) }
    ensures text { IfOk result (λ block. ReadsBehind (codes " empty") pieces.old pieces.new (block_text block)) }
    ensures same_input { pieces.new.bytes ≡ pieces.old.bytes }
{
    pieces.expect(b"\n")?;
    pieces.expect(b"multipliers")?;
    let multipliers = read_numbers(alloc, pieces)?;
    Ok(Block::Empty { multipliers })
}

fn read_too_wide(alloc: Global, pieces: &mut Pieces) -> Result<Block, Stop>
    ensures block { IfOk result (λ block. IsBlock block) }
    ensures text { IfOk result (λ block. ReadsBehind (codes " toowide") pieces.old pieces.new (block_text block)) }
    ensures same_input { pieces.new.bytes ≡ pieces.old.bytes }
{
    pieces.expect(b"\n")?;
    pieces.expect(b"basis")?;
    let basis = read_basis(alloc, pieces)?;
    pieces.expect(b"at")?;
    pieces.expect(b" ")?;
    let row = read_row(pieces)?;
    pieces.expect(b" ")?;
    let col = read_column(pieces, 0)?;
    pieces.expect(b"\n")?;
    Ok(Block::TooWide {
        basis,
        place: Place { row, col },
    })
}

fn read_block(alloc: Global, pieces: &mut Pieces) -> Result<Block, Stop>
    ensures block { IfOk result (λ block. IsBlock block) }
    ensures text { IfOk result (λ block. ReadsBehind (codes " ") pieces.old pieces.new (block_text block)) }
    ensures same_input { pieces.new.bytes ≡ pieces.old.bytes }
{
    if pieces.take(b"found") {
        return read_polygon(alloc, pieces);
    }
    if pieces.take(b"empty") {
        return read_empty(alloc, pieces);
    }
    pieces.expect(b"toowide")?;
    read_too_wide(alloc, pieces)
}

/// What stands behind the word `notion`, for a notion whose number isn't below `least`.
pub(crate) fn read_named_block(
    alloc: Global,
    pieces: &mut Pieces,
    least: u32,
) -> Result<NamedBlock, Stop>
    ensures least { IfOk result (λ named. least ≤ notion_number named.notion) }
    ensures block { IfOk result (λ named. IsBlock named.block) }
    ensures text { IfOk result (λ named. ReadsBehind (codes "notion") pieces.old pieces.new (named_block_text named)) }
    ensures same_input { pieces.new.bytes ≡ pieces.old.bytes }
{
    pieces.expect(b" ")?;
    let notion = read_notion(pieces, least)?;
    pieces.expect(b" ")?;
    let block = read_block(alloc, pieces)?;
    Ok(NamedBlock { notion, block })
}
