// The block of a polygon that was searched for, and checked.
ghost use Rattle.std.specs.Prelude.{◌≤◌, length, IfOk, IfSome};
ghost use Rattle.connected_pairs.specs.Connected.{IsPairsOf};
ghost use Rattle.lp_form.specs.Program.{IsProgram};
ghost use Rattle.lp_form.specs.Small.{IsSmall};
ghost use Rattle.report_form.specs.Ranges.{IsBlock};
ghost use Rattle.triangle_test.specs.Triangle.{HasNoTriangle};
ghost use Rattle.notion_solve.specs.Programs.{IsOverRows};
ghost use Rattle.notion_solve.specs.Right.{HasBelt};
ghost use Rattle.notion_solve.specs.Shown.{IsShown};

use crate::polygons::{found, has_belt};
use connected_pairs::Pairs;
use corr_game::Game;
use lp_form::Lp;
use polygon_check::is_polygon;
use polygon_search::{Attempt, propose};
use report_form::Block;
use std::alloc::{AllocError as NoMemory, Global};

/// The first attempt compares all columns before one enters.
const FIRST: Attempt = Attempt {
    compared: 8192,
    seed: 1,
};

/// The second one compares a few, and draws other random numbers.
const SECOND: Attempt = Attempt {
    compared: 8,
    seed: 1,
};

/// What an attempt proposed, where the check accepts it.
fn attempted(
    alloc: Global,
    game: &Game,
    pairs: &Pairs,
    lp: &Lp,
    attempt: Attempt,
) -> Result<Option<Block>, NoMemory>
    requires whose { IsPairsOf game.now pairs.now }
    requires no_triangle { HasNoTriangle pairs.now }
    requires program { IsProgram lp.now }
    requires small { IsSmall lp.now }
    requires few_rows { length lp.now.rows ≤ 2048 }
    requires few_columns { lp.now.cols ≤ 8192 }
    requires over_rows { IsOverRows pairs.now lp.now }
    ensures ranges { IfOk result (λ made. IfSome made IsBlock) }
    ensures shown { IfOk result (λ made. IfSome made (IsShown game.now pairs.now lp.now)) }
    ensures belt { IfOk result (λ made. IfSome made HasBelt) }
{
    let Some(swept) = propose(alloc, lp, attempt)? else {
        return Ok(None);
    };
    if !is_polygon(alloc, lp, &swept)? {
        return Ok(None);
    }
    let block = found(alloc, game, pairs, swept)?;
    if has_belt(alloc, &block)? {
        Ok(Some(block))
    } else {
        Ok(None)
    }
}

/// The block of a polygon that one of two attempts proposed and the check accepted. None where there is none, which says
/// nothing of the program.
pub fn searched(
    alloc: Global,
    game: &Game,
    pairs: &Pairs,
    lp: &Lp,
) -> Result<Option<Block>, NoMemory>
    requires whose { IsPairsOf game.now pairs.now }
    requires no_triangle { HasNoTriangle pairs.now }
    requires program { IsProgram lp.now }
    requires small { IsSmall lp.now }
    requires few_rows { length lp.now.rows ≤ 2048 }
    requires few_columns { lp.now.cols ≤ 8192 }
    requires over_rows { IsOverRows pairs.now lp.now }
    ensures ranges { IfOk result (λ made. IfSome made IsBlock) }
    ensures shown { IfOk result (λ made. IfSome made (IsShown game.now pairs.now lp.now)) }
    ensures belt { IfOk result (λ made. IfSome made HasBelt) }
{
    if let Some(block) = attempted(alloc, game, pairs, lp, FIRST)? {
        return Ok(Some(block));
    }
    let block = attempted(alloc, game, pairs, lp, SECOND)?;
    Ok(block)
}
