ghost use Rattle.std.specs.Prelude.{◌≡◌, ◌≤◌, OnOk, IfOk, IfErr};
ghost use Rattle.text_pieces.specs.Piece.{Adds};
ghost use Rattle.game_gen.specs.GameText.{game_lines, game_text, greatest};
ghost use Rattle.game_gen.specs.declared.kinds.Kind.TheVariants.{Public, Dilemma};
ghost use Rattle.game_gen.specs.Refused.{IsRefused};

use crate::kinds::{GenRefusal, Kind, greatest_of};
use crate::lines::{add_chance_line, add_title};
use crate::outcomes::{add_chain, add_dilemmas, add_publics};
use std::alloc::{AllocError as NoMemory, Global};

fn add_public_lines(out: &mut Vec<u8>, n: u32, seed: u64) -> Result<(), NoMemory>
    requires few { n ≤ 64 }
    ensures { OnOk result (Adds out.old.items out.new.items (game_lines Public n seed)) }
{
    add_chance_line(out, n)?;
    add_publics(out, n, seed)?;
    Ok(())
}

fn add_dilemma_lines(out: &mut Vec<u8>, n: u32, seed: u64) -> Result<(), NoMemory>
    requires few { n ≤ 64 }
    ensures { OnOk result (Adds out.old.items out.new.items (game_lines Dilemma n seed)) }
{
    add_chance_line(out, n)?;
    add_dilemmas(out, n)?;
    Ok(())
}

#[tactic(auto, unfolding(crate::specs::GameText::greatest, crate::specs::GameText::game_lines))]
fn add_lines(out: &mut Vec<u8>, kind: Kind, n: u32, seed: u64) -> Result<(), NoMemory>
    requires within { n ≤ greatest kind }
    ensures { OnOk result (Adds out.old.items out.new.items (game_lines kind n seed)) }
{
    match kind {
        Kind::Public => add_public_lines(out, n, seed),
        Kind::Dilemma => add_dilemma_lines(out, n, seed),
        Kind::Chain => add_chain(out, n, seed),
    }
}

/// Makes the file of a game of a kind and size. The seed decides the drawn payoffs; the dilemma draws none.
pub fn generate(alloc: Global, kind: Kind, n: u32, seed: u64) -> Result<Vec<u8>, GenRefusal>
    requires { 1 ≤ n }
    ensures ok { IfOk result (λ text. text.items ≡ game_text kind n seed) }
    ensures within { OnOk result (n ≤ greatest kind) }
    ensures err { IfErr result (λ refusal. IsRefused kind n refusal) }
{
    let greatest = greatest_of(kind);
    if n > greatest {
        return Err(GenRefusal::TooLarge { greatest });
    }
    let mut out = Vec::new(alloc);
    add_title(&mut out, kind)?;
    add_lines(&mut out, kind, n, seed)?;
    Ok(out)
}
