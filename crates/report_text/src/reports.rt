ghost use Rattle.std.specs.Prelude.{◌≡◌, OnOk, IfOk};
ghost use Rattle.text_pieces.specs.Piece.{Adds};
ghost use Rattle.report_text.specs.Joined.{each_text};
ghost use Rattle.report_text.specs.ReportText.{named_block_text, report_text};

use crate::blocks::add_named_block;
use crate::lists::add_spaced;
use corr_game::Side;
use report_form::{BlockList, Report};
use std::alloc::{AllocError as NoMemory, Global};
use text_pieces::add_bytes;

fn add_blocks(out: &mut Vec<u8>, blocks: &BlockList) -> Result<(), NoMemory>
    ensures { OnOk result (Adds out.old.items out.new.items (each_text named_block_text blocks.now)) }
{
    for k in 0..blocks.len() {
        add_named_block(out, blocks.at(k))?;
    }
    Ok(())
}

/// The text of a report.
pub fn write_report(alloc: Global, report: &Report) -> Result<Vec<u8>, NoMemory>
    ensures { IfOk result (λ text. text.items ≡ report_text report.now) }
{
    let mut out = Vec::new(alloc);
    add_bytes(&mut out, b"corr-report 1\nscale")?;
    add_spaced(&mut out, report.scale(Side::One))?;
    add_spaced(&mut out, report.scale(Side::Two))?;
    add_bytes(&mut out, b"\n")?;
    add_blocks(&mut out, report.blocks())?;
    add_bytes(&mut out, b"end\n")?;
    Ok(out)
}
