ghost use Rattle.std.specs.Prelude.{◌≡◌, ◌≤◌, ℕ, length, IfErr, IfOk};
ghost use Rattle.connected_pairs.specs.Connected.{IsPairsOf};
ghost use Rattle.incentive_rows.specs.Size.{HasSize};
ghost use Rattle.bland_simplex.specs.Open.{IsProgram};
ghost use Rattle.bland_simplex.specs.Reachable.{IsLeftWide};
ghost use Rattle.int_tableau.specs.Content.{IsTableau};
ghost use Rattle.int_tableau.specs.Start.{IsStart, StartsNarrow};
ghost use Rattle.lp_form.specs.Solutions.{HasBoundedPayoffs};
ghost use Rattle.triangle_test.specs.Triangle.{HasNoTriangle};
ghost use Rattle.notion_solve.specs.Outcome.{IsOutcome};
ghost use Rattle.notion_solve.specs.Programs.{IsOverRows};
ghost use Rattle.notion_solve.specs.Right.{HasBelt, IsRightFor};
ghost use Rattle.notion_solve.specs.Shown.{IsShown, IsShownFor};
ghost use Rattle.report_form.specs.Ranges.{IsBlock};

use crate::polygons::found;
use crate::programs::program;
use crate::searches::searched;
use crate::wide::too_wide;
use bland_simplex::{Found, feasible};
use connected_pairs::Pairs;
use corr_game::{Game, Notion};
use int_tableau::{Dense, PivotEnd, Tableau};
use lp_form::{Lp, NumList};
use polygon_sweep::{Swept, sweep};
use report_form::Block;
use std::alloc::{AllocError as NoMemory, Global};

/// What a run of pivots came to: a polygon, or multipliers that show that there is none.
#[derive(Drop)]
pub enum Outcome {
    Polygon(Swept),
    Empty(NumList),
}

/// Both phases and the turn round the polygon.
fn explore<T: Tableau>(alloc: Global, lp: &Lp, table: &mut T) -> Result<Outcome, PivotEnd>
    requires program { IsProgram lp.now }
    requires start { IsStart lp.now (T.content table.old) }
    requires rules { IsTableau (T.content table.old) }
    requires bounded { HasBoundedPayoffs lp.now }
    ensures outcome { IfOk result (IsOutcome lp.now) }
    ensures wide { IfErr result (IsLeftWide lp.now (T.content table.new)) }
{
    match feasible(alloc, lp, table)? {
        Found::Start => Ok(Outcome::Polygon(sweep(alloc, lp, table)?)),
        Found::Empty { multipliers } => Ok(Outcome::Empty(multipliers)),
    }
}

/// The block of a notion for a game without a triangle: the polygon of its equilibria's payoffs, or that it has none, or
/// the basis whose tableau is too wide.
pub fn solve(alloc: Global, game: &Game, pairs: &Pairs, notion: Notion) -> Result<Block, NoMemory>
    requires whose { IsPairsOf game.now pairs.now }
    requires no_triangle { HasNoTriangle pairs.now }
    requires size { (rows columns : ℕ) × HasSize game.now pairs.now notion rows columns × (rows ≤ 2048) × (columns ≤ 8192) }
    ensures ranges { IfOk result IsBlock }
    ensures right { IfOk result (IsRightFor game.now pairs.now notion) }
{
    let _ = (game.len(), pairs.len());
    let block = shown(alloc, game, pairs, notion)?;
    Ok(block)
}

/// A block with the solutions and multipliers that show it: that of a polygon which a search proposed and which was
/// checked, or else that of the tableau.
fn shown(alloc: Global, game: &Game, pairs: &Pairs, notion: Notion) -> Result<Block, NoMemory>
    requires whose { IsPairsOf game.now pairs.now }
    requires no_triangle { HasNoTriangle pairs.now }
    requires size { (rows columns : ℕ) × HasSize game.now pairs.now notion rows columns × (rows ≤ 2048) × (columns ≤ 8192) }
    ensures ranges { IfOk result IsBlock }
    ensures shown { IfOk result (IsShownFor game.now pairs.now notion) }
    ensures belt { IfOk result HasBelt }
{
    let lp = program(alloc, game, pairs, notion)?;
    let block = match searched(alloc, game, pairs, &lp)? {
        Some(block) => block,
        None => by_tableau(alloc, game, pairs, &lp)?,
    };
    Ok(block)
}

/// The block of a program by the proved method alone.
fn by_tableau(alloc: Global, game: &Game, pairs: &Pairs, lp: &Lp) -> Result<Block, NoMemory>
    requires whose { IsPairsOf game.now pairs.now }
    requires no_triangle { HasNoTriangle pairs.now }
    requires program { IsProgram lp.now }
    requires narrow { StartsNarrow lp.now }
    requires few_columns { lp.now.cols ≤ 8192 }
    requires bounded { HasBoundedPayoffs lp.now }
    requires over_rows { IsOverRows pairs.now lp.now }
    ensures ranges { IfOk result IsBlock }
    ensures shown { IfOk result (IsShown game.now pairs.now lp.now) }
    ensures belt { IfOk result HasBelt }
{
    let mut table = Dense::start(alloc, lp)?;
    match explore(alloc, lp, &mut table) {
        Ok(Outcome::Polygon(swept)) => {
            let block = found(alloc, game, pairs, swept)?;
            Ok(block)
        }
        Ok(Outcome::Empty(multipliers)) => Ok(Block::Empty { multipliers }),
        Err(PivotEnd::Wide(place)) => too_wide(alloc, &table, place),
        Err(PivotEnd::NoMemory) => Err(NoMemory),
    }
}
