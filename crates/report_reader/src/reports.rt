ghost use Rattle.std.specs.Prelude.{◌≡◌, ◌≤◌, length, IfOk, IfErr};
ghost use Rattle.report_form.specs.Ranges.{InOrderFrom, IsReport};
ghost use Rattle.report_text.specs.Joined.{each_text};
ghost use Rattle.report_text.specs.ReportText.{named_block_text, report_text};
ghost use Rattle.report_reader.specs.Place.{IsPlace};
ghost use Rattle.report_reader.specs.Reading.{Reads};
ghost use Rattle.report_reader.specs.Syntax.{IsReadFrom};

use crate::blocks::read_named_block;
use crate::items::{number_of, read_scale};
use crate::lines::expect_first;
use crate::pieces::Pieces;
use crate::refusals::{ReportRefusal, Stop};
use report_form::{BlockList, Report};
use std::alloc::Global;

/// Blocks in the order of their notions, at least one.
fn read_blocks(alloc: Global, pieces: &mut Pieces) -> Result<BlockList, Stop>
    ensures in_order { IfOk result (λ blocks. InOrderFrom 0 blocks) }
    ensures some { IfOk result (λ blocks. 1 ≤ length blocks) }
    ensures text { IfOk result (λ blocks. Reads pieces.old pieces.new (each_text named_block_text blocks)) }
    ensures same_input { pieces.new.bytes ≡ pieces.old.bytes }
{
    let mut blocks = BlockList::new(alloc);
    let mut least = 0u32;
    while least < 3 && pieces.take(b"notion") {
        let named = read_named_block(alloc, pieces, least)?;
        least = number_of(named.notion) + 1;
        blocks.push(named)?;
    }
    if blocks.len() == 0 {
        return Err(Stop::Syntax);
    }
    Ok(blocks)
}

fn read_whole(alloc: Global, pieces: &mut Pieces) -> Result<Report, Stop>
    ensures report { IfOk result (λ report. IsReport report) }
    ensures text { IfOk result (λ report. Reads pieces.old pieces.new (report_text report)) }
    ensures same_input { pieces.new.bytes ≡ pieces.old.bytes }
{
    expect_first(pieces, b"corr-report")?;
    pieces.expect(b"1")?;
    pieces.expect(b"\n")?;
    expect_first(pieces, b"scale")?;
    let scale_one = read_scale(pieces)?;
    pieces.expect(b" ")?;
    let scale_two = read_scale(pieces)?;
    pieces.expect(b"\n")?;
    let blocks = read_blocks(alloc, pieces)?;
    pieces.expect(b"end")?;
    pieces.expect(b"\n")?;
    Ok(Report::of(scale_one, scale_two, blocks))
}

/// The report whose text is a front of the bytes, and the length of that text.
///
/// Nothing is reserved from a count that the text claims: a list grows only with what is read.
pub fn read_report(alloc: Global, bytes: &[u8]) -> Result<(Report, usize), ReportRefusal>
    ensures read { IfOk result (λ it. IsReadFrom bytes.now it.0 it.1) }
    ensures within { IfOk result (λ it. it.1 ≤ length bytes.now) }
    ensures place { IfErr result (λ refusal. IsPlace (length bytes.now) refusal) }
{
    let mut pieces = Pieces::new(bytes);
    match read_whole(alloc, &mut pieces) {
        Ok(report) => Ok((report, pieces.at())),
        Err(Stop::Syntax) => Err(ReportRefusal::Syntax { at: pieces.at() }),
        Err(Stop::NoMemory) => Err(ReportRefusal::NoMemory),
    }
}
