// The moves of the players.
ghost use Rattle.std.specs.Prelude.{◌≡◌, ◌+◌, ◌*◌, ◌/◌, ◌≤◌, ◌<◌, OnOk};
ghost use Rattle.text_pieces.specs.Piece.{Adds};
ghost use Rattle.game_gen.specs.GameText.{below_text, bargain_lines, second_line, dilemma_outcome, drawn_leaves, public_outcome, move_line, chain_move, chain_moves};

use crate::draws::Draws;
use crate::lines::add_drawn_leaf;
use std::alloc::AllocError as NoMemory;
use text_pieces::{add_bytes, add_number};

/// Adds the first player's line and the second's behind the first choice.
fn add_bargain_lines(out: &mut Vec<u8>, set: u32) -> Result<(), NoMemory>
    ensures { OnOk result (Adds out.old.items out.new.items (bargain_lines set)) }
{
    add_bytes(out, b"p \"\" 1 ")?;
    add_number(out, &set)?;
    add_bytes(out, b" { \"C\" \"D\" } 0\np \"\" 2 ")?;
    add_number(out, &set)?;
    add_bytes(out, b" { \"C\" \"D\" } 0\n")?;
    Ok(())
}

/// Adds the second player's line behind the first player's second choice.
fn add_second_line(out: &mut Vec<u8>, set: u32) -> Result<(), NoMemory>
    ensures { OnOk result (Adds out.old.items out.new.items (second_line set)) }
{
    add_bytes(out, b"p \"\" 2 ")?;
    add_number(out, &set)?;
    add_bytes(out, b" 0\n")?;
    Ok(())
}

fn add_dilemma_outcome(out: &mut Vec<u8>, outcome: u32) -> Result<(), NoMemory>
    requires few { outcome < 64 }
    ensures { OnOk result (Adds out.old.items out.new.items (dilemma_outcome outcome)) }
{
    add_bargain_lines(out, outcome + 1)?;
    add_bytes(out, b"t \"\" 1 { 1 1 }\nt \"\" 2 { -1 2 }\n")?;
    add_second_line(out, outcome + 1)?;
    add_bytes(out, b"t \"\" 3 { 2 -1 }\nt \"\" 4 { 0 0 }\n")?;
    Ok(())
}

pub(crate) fn add_dilemmas(out: &mut Vec<u8>, n: u32) -> Result<(), NoMemory>
    requires few { n ≤ 64 }
    ensures { OnOk result (Adds out.old.items out.new.items (below_text n dilemma_outcome)) }
{
    for outcome in 0..n {
        add_dilemma_outcome(out, outcome)?;
    }
    Ok(())
}

/// Adds two leaves that stand one behind the other.
fn add_drawn_leaves(out: &mut Vec<u8>, leaf: u32, draws: &mut Draws) -> Result<(), NoMemory>
    requires few { leaf < 255 }
    requires in_step { draws.old.drawn ≡ leaf * 2 }
    ensures text { OnOk result (Adds out.old.items out.new.items (drawn_leaves draws.old.seed leaf)) }
    ensures same_seed { OnOk result (draws.new.seed ≡ draws.old.seed) }
    ensures four_more { OnOk result (draws.new.drawn ≡ draws.old.drawn + 4) }
{
    add_drawn_leaf(out, leaf, draws)?;
    add_drawn_leaf(out, leaf + 1, draws)?;
    Ok(())
}

fn add_public_outcome(out: &mut Vec<u8>, outcome: u32, draws: &mut Draws) -> Result<(), NoMemory>
    requires few { outcome < 64 }
    requires in_step { draws.old.drawn ≡ outcome * 8 }
    ensures text { OnOk result (Adds out.old.items out.new.items (public_outcome draws.old.seed outcome)) }
    ensures same_seed { OnOk result (draws.new.seed ≡ draws.old.seed) }
    ensures eight_more { OnOk result (draws.new.drawn ≡ draws.old.drawn + 8) }
{
    add_bargain_lines(out, outcome + 1)?;
    add_drawn_leaves(out, outcome * 4, draws)?;
    add_second_line(out, outcome + 1)?;
    add_drawn_leaves(out, outcome * 4 + 2, draws)?;
    Ok(())
}

pub(crate) fn add_publics(out: &mut Vec<u8>, n: u32, seed: u64) -> Result<(), NoMemory>
    requires few { n ≤ 64 }
    ensures { OnOk result (Adds out.old.items out.new.items (below_text n (public_outcome seed))) }
{
    let mut draws = Draws::new(seed);
    for outcome in 0..n {
        add_public_outcome(out, outcome, &mut draws)?;
    }
    Ok(())
}

fn add_move_line(out: &mut Vec<u8>, index: u32) -> Result<(), NoMemory>
    requires few { index < 30 }
    ensures { OnOk result (Adds out.old.items out.new.items (move_line index)) }
{
    add_bytes(out, b"p \"\" ")?;
    add_number(out, &(index % 2 + 1))?;
    add_bytes(out, b" ")?;
    add_number(out, &(index / 2 + 1))?;
    add_bytes(out, b" { \"s\" \"g\" } 0\n")?;
    Ok(())
}

fn add_chain_move(out: &mut Vec<u8>, index: u32, draws: &mut Draws) -> Result<(), NoMemory>
    requires few { index < 30 }
    requires in_step { draws.old.drawn ≡ index * 2 }
    ensures text { OnOk result (Adds out.old.items out.new.items (chain_move draws.old.seed index)) }
    ensures same_seed { OnOk result (draws.new.seed ≡ draws.old.seed) }
    ensures two_more { OnOk result (draws.new.drawn ≡ draws.old.drawn + 2) }
{
    add_move_line(out, index)?;
    add_drawn_leaf(out, index, draws)?;
    Ok(())
}

fn add_chain_moves(out: &mut Vec<u8>, n: u32, draws: &mut Draws) -> Result<(), NoMemory>
    requires few { n ≤ 30 }
    requires none_drawn { draws.old.drawn ≡ 0 }
    ensures text { OnOk result (Adds out.old.items out.new.items (below_text n (chain_move draws.old.seed))) }
    ensures same_seed { OnOk result (draws.new.seed ≡ draws.old.seed) }
    ensures all_drawn { OnOk result (draws.new.drawn ≡ n * 2) }
{
    for index in 0..n {
        add_chain_move(out, index, draws)?;
    }
    Ok(())
}

pub(crate) fn add_chain(out: &mut Vec<u8>, n: u32, seed: u64) -> Result<(), NoMemory>
    requires few { n ≤ 30 }
    ensures { OnOk result (Adds out.old.items out.new.items (chain_moves n seed)) }
{
    let mut draws = Draws::new(seed);
    add_chain_moves(out, n, &mut draws)?;
    add_drawn_leaf(out, n, &mut draws)?;
    Ok(())
}
