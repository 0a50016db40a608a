ghost use Rattle.std.specs.Prelude.{◌≤◌, ℕ, length, IfOk};
ghost use Rattle.lp_form.specs.Solutions.{HasBoundedPayoffs};
ghost use Rattle.connected_pairs.specs.Connected.{IsPairsOf};
ghost use Rattle.incentive_rows.specs.Size.{HasSize};
ghost use Rattle.lp_form.specs.Program.{IsProgram};
ghost use Rattle.lp_form.specs.Small.{IsSmall};
ghost use Rattle.int_tableau.specs.Start.{StartsNarrow};
ghost use Rattle.notion_solve.specs.Programs.{IsOverRows};
ghost use Rattle.plan_polytope.specs.NotionProgram.{IsProgramOf};

use connected_pairs::Pairs;
use corr_game::{Game, Notion};
use incentive_rows::incentives;
use lp_form::Lp;
use plan_polytope::polytope;
use std::alloc::{AllocError as NoMemory, Global};

/// The program of a notion: the correlation rows, then the incentive rows.
pub fn program(alloc: Global, game: &Game, pairs: &Pairs, notion: Notion) -> Result<Lp, NoMemory>
    requires whose { IsPairsOf game.now pairs.now }
    requires size { (rows columns : ℕ) × HasSize game.now pairs.now notion rows columns × (rows ≤ 2048) × (columns ≤ 8192) }
    ensures program { IfOk result (λ lp. IsProgram lp) }
    ensures small { IfOk result (λ lp. IsSmall lp) }
    ensures narrow { IfOk result (λ lp. StartsNarrow lp) }
    ensures few_rows { IfOk result (λ lp. length lp.rows ≤ 2048) }
    ensures few_columns { IfOk result (λ lp. lp.cols ≤ 8192) }
    ensures bounded { IfOk result (λ lp. HasBoundedPayoffs lp) }
    ensures whose { IfOk result (IsProgramOf game.now pairs.now notion) }
    ensures over_rows { IfOk result (λ lp. IsOverRows pairs.now lp) }
{
    let base = polytope(alloc, game, pairs)?;
    let more = incentives(alloc, game, pairs, notion)?;
    let lp = Lp::join(base, more)?;
    Ok(lp)
}
