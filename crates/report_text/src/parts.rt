// The parts of a report's text that other texts share.
ghost use Rattle.std.specs.Prelude.{◌≡◌, ◌↔◌, pos, IsTrue, OnOk, OnErr};
ghost use Rattle.text_pieces.specs.Piece.{Adds, AddsFront};
ghost use Rattle.report_text.specs.PartText.{quotient_text, frac_text, pair_text, side_line, side_text, multipliers_text, row_text, place_text};

use crate::lists::{add_columns, add_numbers, add_plan, add_spaced};
use corr_game::Pair;
use corr_num::Frac;
use lp_form::{NumList, Place, RowName};
use plane_hull::SideRow;
use report_form::ColumnList;
use std::alloc::AllocError as NoMemory;
use text_pieces::{add_bytes, add_number};

fn add_quotient(out: &mut Vec<u8>, num: &i128, den: &i128) -> Result<(), NoMemory>
    ensures ok { OnOk result (Adds out.old.items out.new.items (quotient_text num.now den.now)) }
    ensures err { OnErr result (AddsFront out.old.items out.new.items (quotient_text num.now den.now)) }
{
    add_number(out, num)?;
    add_bytes(out, b"/")?;
    add_number(out, den)?;
    Ok(())
}

fn is_whole(value: &Frac) -> bool
    ensures { IsTrue result ↔ (value.now.den ≡ pos 1) }
{
    value.den() == 1
}

/// Adds a fraction as a whole number, or as its numerator, a slash and its denominator.
pub fn add_frac(out: &mut Vec<u8>, value: &Frac) -> Result<(), NoMemory>
    ensures ok { OnOk result (Adds out.old.items out.new.items (frac_text value.now)) }
    ensures err { OnErr result (AddsFront out.old.items out.new.items (frac_text value.now)) }
{
    if is_whole(value) {
        add_number(out, &value.num())
    } else {
        add_quotient(out, &value.num(), &value.den())
    }
}

/// Adds the three lines of a weighted pair of plans.
pub fn add_pair(out: &mut Vec<u8>, pair: &Pair) -> Result<(), NoMemory>
    ensures ok { OnOk result (Adds out.old.items out.new.items (pair_text pair.now)) }
    ensures err { OnErr result (AddsFront out.old.items out.new.items (pair_text pair.now)) }
{
    add_bytes(out, b"weight ")?;
    add_number(out, &pair.weight)?;
    add_bytes(out, b"\none")?;
    add_plan(out, &pair.one)?;
    add_bytes(out, b"\ntwo")?;
    add_plan(out, &pair.two)?;
    add_bytes(out, b"\n")?;
    Ok(())
}

fn add_side_line(out: &mut Vec<u8>, side: &SideRow) -> Result<(), NoMemory>
    ensures ok { OnOk result (Adds out.old.items out.new.items (side_line side.now)) }
    ensures err { OnErr result (AddsFront out.old.items out.new.items (side_line side.now)) }
{
    add_bytes(out, b"side")?;
    add_spaced(out, &side.dir.a)?;
    add_spaced(out, &side.dir.b)?;
    add_bytes(out, b" corner")?;
    add_spaced(out, &side.corner)?;
    add_bytes(out, b" den")?;
    add_spaced(out, &side.den)?;
    add_bytes(out, b"\n")?;
    Ok(())
}

/// Adds the three lines of a side.
pub fn add_side(out: &mut Vec<u8>, side: &SideRow) -> Result<(), NoMemory>
    ensures ok { OnOk result (Adds out.old.items out.new.items (side_text side.now)) }
    ensures err { OnErr result (AddsFront out.old.items out.new.items (side_text side.now)) }
{
    add_side_line(out, side)?;
    add_bytes(out, b"first")?;
    add_numbers(out, &side.first)?;
    add_bytes(out, b"\nsecond")?;
    add_numbers(out, &side.second)?;
    add_bytes(out, b"\n")?;
    Ok(())
}

/// Adds the line of multipliers which show that a program has no solution.
pub fn add_multipliers(out: &mut Vec<u8>, multipliers: &NumList) -> Result<(), NoMemory>
    ensures ok { OnOk result (Adds out.old.items out.new.items (multipliers_text multipliers.now)) }
    ensures err { OnErr result (AddsFront out.old.items out.new.items (multipliers_text multipliers.now)) }
{
    add_bytes(out, b"multipliers")?;
    add_numbers(out, multipliers)?;
    add_bytes(out, b"\n")?;
    Ok(())
}

#[tactic(auto, unfolding(crate::specs::PartText::row_text))]
fn add_row(out: &mut Vec<u8>, row: &RowName) -> Result<(), NoMemory>
    ensures ok { OnOk result (Adds out.old.items out.new.items (row_text row.now)) }
    ensures err { OnErr result (AddsFront out.old.items out.new.items (row_text row.now)) }
{
    match row {
        RowName::Basic(column) => add_number(out, column),
        RowName::First => add_bytes(out, b"first"),
        RowName::Second => add_bytes(out, b"second"),
        RowName::Phase => add_bytes(out, b"phase"),
    }
}

/// Adds the line of a basis and the line of the place at which its tableau is wide.
pub fn add_place(out: &mut Vec<u8>, basis: &ColumnList, place: &Place) -> Result<(), NoMemory>
    ensures ok { OnOk result (Adds out.old.items out.new.items (place_text basis.now place.now)) }
    ensures err { OnErr result (AddsFront out.old.items out.new.items (place_text basis.now place.now)) }
{
    add_bytes(out, b"basis")?;
    add_columns(out, basis)?;
    add_bytes(out, b"\nat ")?;
    add_row(out, &place.row)?;
    add_spaced(out, &place.col)?;
    add_bytes(out, b"\n")?;
    Ok(())
}
