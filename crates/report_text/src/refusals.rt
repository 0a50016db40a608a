ghost use Rattle.std.specs.Prelude.{◌≡◌, ◌++◌, codes, OnOk, IfOk};
ghost use Rattle.text_pieces.specs.Piece.{Adds};
ghost use Rattle.report_form.specs.declared.refusals.Refusal.TheVariants.{AtNode, ScaleTooLarge, Forgets, Triangle, Size};
ghost use Rattle.report_text.specs.PartText.{count_text};
ghost use Rattle.report_text.specs.RefusalText.{cause_text, refusal_text};

use crate::lists::add_spaced;
use crate::names::{name_of, player, rule};
use corr_game::{Notion, Side};
use report_form::{NodeRule, Refusal};
use std::alloc::{AllocError as NoMemory, Global};
use text_pieces::add_bytes;

/// Adds words and the number behind them.
fn add_counted(out: &mut Vec<u8>, words: &[u8], count: u64) -> Result<(), NoMemory>
    ensures { OnOk result (Adds out.old.items out.new.items (words.now ++ count_text count)) }
{
    add_bytes(out, words)?;
    add_spaced(out, &count)?;
    Ok(())
}

fn add_node_rule(out: &mut Vec<u8>, name: NodeRule, node: u32) -> Result<(), NoMemory>
    ensures { OnOk result (Adds out.old.items out.new.items (cause_text (AtNode name node))) }
{
    add_bytes(out, rule(name))?;
    add_bytes(out, b" node")?;
    add_spaced(out, &node)?;
    Ok(())
}

fn add_scale(out: &mut Vec<u8>, side: Side) -> Result<(), NoMemory>
    ensures { OnOk result (Adds out.old.items out.new.items (cause_text (ScaleTooLarge side))) }
{
    add_bytes(out, b"ScaleTooLarge player ")?;
    add_bytes(out, player(side))?;
    Ok(())
}

fn add_forgets(
    out: &mut Vec<u8>,
    side: Side,
    set: u32,
    first: u32,
    second: u32,
) -> Result<(), NoMemory>
    ensures { OnOk result (Adds out.old.items out.new.items (cause_text (Forgets side set first second))) }
{
    add_bytes(out, b"Forgets player ")?;
    add_bytes(out, player(side))?;
    add_bytes(out, b" set")?;
    add_spaced(out, &set)?;
    add_bytes(out, b" nodes")?;
    add_spaced(out, &first)?;
    add_spaced(out, &second)?;
    Ok(())
}

fn add_triangle(
    out: &mut Vec<u8>,
    one_a: u32,
    one_b: u32,
    two_a: u32,
    two_b: u32,
) -> Result<(), NoMemory>
    ensures { OnOk result (Adds out.old.items out.new.items (cause_text (Triangle one_a one_b two_a two_b))) }
{
    add_bytes(out, b"Triangle sets")?;
    add_spaced(out, &one_a)?;
    add_spaced(out, &one_b)?;
    add_spaced(out, &two_a)?;
    add_spaced(out, &two_b)?;
    Ok(())
}

fn add_size(out: &mut Vec<u8>, notion: Notion, rows: u64, columns: u64) -> Result<(), NoMemory>
    ensures { OnOk result (Adds out.old.items out.new.items (cause_text (Size notion rows columns))) }
{
    add_bytes(out, b"Size ")?;
    add_bytes(out, name_of(notion))?;
    add_bytes(out, b" rows")?;
    add_spaced(out, &rows)?;
    add_bytes(out, b" columns")?;
    add_spaced(out, &columns)?;
    Ok(())
}

#[tactic(auto, unfolding(crate::specs::RefusalText::cause_text))]
fn add_cause(out: &mut Vec<u8>, refusal: &Refusal) -> Result<(), NoMemory>
    ensures { OnOk result (Adds out.old.items out.new.items (cause_text refusal.now)) }
{
    match *refusal {
        Refusal::InputTooLong { limit } => add_counted(out, b"InputTooLong", u64::from(limit)),
        Refusal::Report { at } => add_counted(out, b"Report byte", at as u64),
        Refusal::Syntax { at } => add_counted(out, b"Syntax byte", at as u64),
        Refusal::Players { count } => add_counted(out, b"Players", u64::from(count)),
        Refusal::AtNode { name, node } => add_node_rule(out, name, node),
        Refusal::ScaleTooLarge { side } => add_scale(out, side),
        Refusal::Forgets {
            side,
            set,
            first,
            second,
        } => add_forgets(out, side, set, first, second),
        Refusal::Triangle {
            one_a,
            one_b,
            two_a,
            two_b,
        } => add_triangle(out, one_a, one_b, two_a, two_b),
        Refusal::Size {
            notion,
            rows,
            columns,
        } => add_size(out, notion, rows, columns),
        Refusal::TooLarge { greatest } => add_counted(out, b"TooLarge n", u64::from(greatest)),
    }
}

/// The line of a refusal.
pub fn write_refusal(alloc: Global, refusal: &Refusal) -> Result<Vec<u8>, NoMemory>
    ensures { IfOk result (λ text. text.items ≡ refusal_text refusal.now) }
{
    let mut out = Vec::new(alloc);
    add_bytes(&mut out, b"refused ")?;
    add_cause(&mut out, refusal)?;
    add_bytes(&mut out, b"\n")?;
    Ok(out)
}
