// The lines of a game file.
ghost use Rattle.std.specs.Prelude.{◌≡◌, ◌+◌, ◌*◌, ◌≤◌, OnOk};
ghost use Rattle.text_pieces.specs.Piece.{Adds};
ghost use Rattle.game_gen.specs.GameText.{below_text, kind_name, title, chance_action, chance_line, leaf_line, drawn_leaf};

use crate::draws::Draws;
use crate::kinds::{Kind, kind_text};
use std::alloc::AllocError as NoMemory;
use text_pieces::{add_bytes, add_number};

pub(crate) fn add_title(out: &mut Vec<u8>, kind: Kind) -> Result<(), NoMemory>
    ensures { OnOk result (Adds out.old.items out.new.items (title kind)) }
{
    add_bytes(out, b"EFG 2 R \"")?;
    add_bytes(out, kind_text(kind))?;
    add_bytes(out, b"\" { \"1\" \"2\" }\n")?;
    Ok(())
}

fn add_chance_action(out: &mut Vec<u8>, n: u32, outcome: u32) -> Result<(), NoMemory>
    ensures { OnOk result (Adds out.old.items out.new.items (chance_action n outcome)) }
{
    add_bytes(out, b"\"")?;
    add_number(out, &outcome)?;
    add_bytes(out, b"\" 1/")?;
    add_number(out, &n)?;
    add_bytes(out, b" ")?;
    Ok(())
}

fn add_chance_actions(out: &mut Vec<u8>, n: u32) -> Result<(), NoMemory>
    ensures { OnOk result (Adds out.old.items out.new.items (below_text n (chance_action n))) }
{
    for outcome in 0..n {
        add_chance_action(out, n, outcome)?;
    }
    Ok(())
}

/// Adds the line of a chance move with so many outcomes of equal chance.
pub(crate) fn add_chance_line(out: &mut Vec<u8>, n: u32) -> Result<(), NoMemory>
    ensures { OnOk result (Adds out.old.items out.new.items (chance_line n)) }
{
    add_bytes(out, b"c \"\" 1 { ")?;
    add_chance_actions(out, n)?;
    add_bytes(out, b"} 0\n")?;
    Ok(())
}

fn add_leaf_line(out: &mut Vec<u8>, number: u32, one: u64, two: u64) -> Result<(), NoMemory>
    ensures { OnOk result (Adds out.old.items out.new.items (leaf_line number one two)) }
{
    add_bytes(out, b"t \"\" ")?;
    add_number(out, &number)?;
    add_bytes(out, b" { ")?;
    add_number(out, &one)?;
    add_bytes(out, b" ")?;
    add_number(out, &two)?;
    add_bytes(out, b" }\n")?;
    Ok(())
}

/// Adds the leaf whose outcome is the next one, with the next two draws as payoffs.
pub(crate) fn add_drawn_leaf(
    out: &mut Vec<u8>,
    leaf: u32,
    draws: &mut Draws,
) -> Result<(), NoMemory>
    requires few { leaf ≤ 255 }
    requires in_step { draws.old.drawn ≡ leaf * 2 }
    ensures text { OnOk result (Adds out.old.items out.new.items (drawn_leaf draws.old.seed leaf)) }
    ensures same_seed { draws.new.seed ≡ draws.old.seed }
    ensures two_more { draws.new.drawn ≡ draws.old.drawn + 2 }
{
    let one = draws.next();
    let two = draws.next();
    add_leaf_line(out, leaf + 1, one, two)?;
    Ok(())
}
