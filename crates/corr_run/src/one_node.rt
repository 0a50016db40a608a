// The report of a game whose only node is terminal.
ghost use Rattle.std.specs.Prelude.{◌≡◌, OnOk, IfOk};
ghost use Rattle.text_pieces.specs.Piece.{Adds};
ghost use Rattle.corr_run.specs.OneNode.{notion_name, further_multipliers, corner, multipliers, side, sides, block, block_if, one_node_report};

use command_words::Notions;
use corr_game::{Notion, Pay};
use std::alloc::{AllocError, Global};
use text_pieces::{add_bytes, add_number};

#[tactic(auto, unfolding(crate::specs::OneNode::notion_name))]
fn name_of(notion: Notion) -> &'static [u8]
    ensures { result.now ≡ notion_name notion }
{
    match notion {
        Notion::Efce => b"efce",
        Notion::Efcce => b"efcce",
        Notion::Nfcce => b"nfcce",
    }
}

#[tactic(auto, unfolding(crate::specs::OneNode::further_multipliers))]
fn further_rows(notion: Notion) -> &'static [u8]
    ensures { result.now ≡ further_multipliers notion }
{
    match notion {
        Notion::Efce | Notion::Efcce => b"",
        Notion::Nfcce => b" 0 0",
    }
}

fn add_corner(out: &mut Vec<u8>, pay: &Pay) -> Result<(), AllocError>
    ensures { OnOk result (Adds out.old.items out.new.items (corner pay.now)) }
{
    add_bytes(out, b"corner 0 ")?;
    add_number(out, &pay.one)?;
    add_bytes(out, b" ")?;
    add_number(out, &pay.two)?;
    add_bytes(out, b" total 1 pairs 1\nweight 1\none\ntwo\n")?;
    Ok(())
}

fn add_multipliers(
    out: &mut Vec<u8>,
    name: &[u8],
    payoff: &i64,
    further: &[u8],
) -> Result<(), AllocError>
    ensures { OnOk result (Adds out.old.items out.new.items (multipliers name.now payoff.now further.now)) }
{
    add_bytes(out, name)?;
    add_number(out, payoff)?;
    add_bytes(out, further)?;
    add_bytes(out, b"\n")?;
    Ok(())
}

fn add_side(
    out: &mut Vec<u8>,
    direction: &[u8],
    notion: Notion,
    pay: &Pay,
) -> Result<(), AllocError>
    ensures { OnOk result (Adds out.old.items out.new.items (side direction.now notion pay.now)) }
{
    add_bytes(out, b"side ")?;
    add_bytes(out, direction)?;
    add_bytes(out, b" corner 0 den 1\n")?;
    add_multipliers(out, b"first ", &pay.one, further_rows(notion))?;
    add_multipliers(out, b"second ", &pay.two, further_rows(notion))?;
    Ok(())
}

fn add_sides(out: &mut Vec<u8>, notion: Notion, pay: &Pay) -> Result<(), AllocError>
    ensures { OnOk result (Adds out.old.items out.new.items (sides notion pay.now)) }
{
    add_side(out, b"1 0", notion, pay)?;
    add_side(out, b"0 1", notion, pay)?;
    add_side(out, b"-1 0", notion, pay)?;
    add_side(out, b"0 -1", notion, pay)?;
    Ok(())
}

fn add_block(out: &mut Vec<u8>, notion: Notion, pay: &Pay) -> Result<(), AllocError>
    ensures { OnOk result (Adds out.old.items out.new.items (block notion pay.now)) }
{
    add_bytes(out, b"notion ")?;
    add_bytes(out, name_of(notion))?;
    add_bytes(out, b" found\ncorners 1\n")?;
    add_corner(out, pay)?;
    add_bytes(out, b"sides 4\n")?;
    add_sides(out, notion, pay)?;
    Ok(())
}

/// Adds the block of a notion where it is selected.
fn add_selected(
    out: &mut Vec<u8>,
    is_selected: bool,
    notion: Notion,
    pay: &Pay,
) -> Result<(), AllocError>
    ensures { OnOk result (Adds out.old.items out.new.items (block_if is_selected notion pay.now)) }
{
    if !is_selected {
        return Ok(());
    }
    add_block(out, notion, pay)?;
    Ok(())
}

/// The whole report of the game whose only leaf pays so, with the blocks of the selected notions.
pub fn report_of(alloc: Global, pay: &Pay, notions: Notions) -> Result<Vec<u8>, AllocError>
    ensures { IfOk result (λ text. text.items ≡ one_node_report notions pay.now) }
{
    let mut out = Vec::new(alloc);
    add_bytes(&mut out, b"corr-report 1\nscale 1 1\n")?;
    add_selected(&mut out, notions.efce, Notion::Efce, pay)?;
    add_selected(&mut out, notions.efcce, Notion::Efcce, pay)?;
    add_selected(&mut out, notions.nfcce, Notion::Nfcce, pay)?;
    add_bytes(&mut out, b"end\n")?;
    Ok(out)
}
