// From a file to a report or a refusal.
ghost use Rattle.std.specs.Prelude.{◌≡◌, ◌≤◌, ◌^◌, ◌++◌, ◌∷◌, [], ℕ, true, cond, length, map, MatchOption, IfErr, IfOk, OnOk, All};
ghost use Rattle.either.specs.Either.{MatchEither};
ghost use Rattle.corr_game.specs.declared.notions.Notion.TheVariants.{Efce, Efcce, Nfcce};
ghost use Rattle.connected_pairs.specs.Connected.{IsPairsOf};
ghost use Rattle.triangle_test.specs.Triangle.{HasNoTriangle};
ghost use Rattle.report_form.specs.Ranges.{IsBlock, IsReport};
ghost use Rattle.cert_check.specs.Scales.{HasScales};
ghost use Rattle.corr_run.specs.FirstRefusal.{IsFirstRefusal, IsGameFor, IsOfSizes};
ghost use Rattle.corr_run.specs.Refusals.{IfRefused};
ghost use Rattle.corr_run.specs.Reports.{FitPrograms, AreBlocksOf, AreRight, AreWhole, notions_of};
ghost use Rattle.corr_run.specs.SolvedReport.{IsReportOn};
ghost use Rattle.command_words.specs.Selection.{SelectsSome, selected};

use crate::prepare::{Ready, ReadyEnd, prepare};
use command_words::Notions;
use connected_pairs::Pairs;
use corr_game::{Game, Notion, Side};
use either::{Either, Left, Right};
use incentive_rows::program_size;
use notion_solve::solve;
use report_form::{BlockList, NamedBlock, Refusal, Report};
use std::alloc::{AllocError as NoMemory, Global};

/// The most rows of a program that is solved.
const ROW_LIMIT: u64 = 2048;
/// The most columns of a program that is solved.
const COLUMN_LIMIT: u64 = 8192;

/// The refusal of a selected notion whose program is too large.
pub fn size_refusal(
    game: &Game,
    pairs: &Pairs,
    is_selected: bool,
    notion: Notion,
) -> Option<Refusal>
    requires { IsPairsOf game.now pairs.now }
    ensures { MatchOption result (FitPrograms game.now pairs.now (cond is_selected (notion ∷ []) [])) (IsOfSizes game.now pairs.now (cond is_selected (notion ∷ []) [])) }
{
    if !is_selected {
        return None;
    }
    let (rows, columns) = program_size(game, pairs, notion);
    if rows <= ROW_LIMIT && columns <= COLUMN_LIMIT {
        return None;
    }
    Some(Refusal::Size {
        notion,
        rows,
        columns,
    })
}

/// The refusal of the first selected notion whose program is too large.
fn first_size_refusal(game: &Game, pairs: &Pairs, notions: Notions) -> Option<Refusal>
    requires { IsPairsOf game.now pairs.now }
    ensures { MatchOption result (FitPrograms game.now pairs.now (selected notions)) (IsOfSizes game.now pairs.now (selected notions)) }
{
    let efce = size_refusal(game, pairs, notions.efce, Notion::Efce);
    if efce.is_some() {
        return efce;
    }
    let efcce = size_refusal(game, pairs, notions.efcce, Notion::Efcce);
    if efcce.is_some() {
        return efcce;
    }
    size_refusal(game, pairs, notions.nfcce, Notion::Nfcce)
}

/// Adds the block of a notion where it is selected.
fn add_block(
    alloc: Global,
    ready: &Ready,
    is_selected: bool,
    notion: Notion,
    blocks: &mut BlockList,
) -> Result<(), NoMemory>
    requires whose { IsPairsOf ready.now.game ready.now.pairs }
    requires no_triangle { HasNoTriangle ready.now.pairs }
    requires size { FitPrograms ready.now.game ready.now.pairs (cond is_selected (notion ∷ []) []) }
    requires before { AreWhole blocks.old }
    requires right_before { AreRight ready.now.game ready.now.pairs blocks.old }
    ensures whole { OnOk result (AreWhole blocks.new) }
    ensures right { OnOk result (AreRight ready.now.game ready.now.pairs blocks.new) }
    ensures notions { OnOk result (notions_of blocks.new ≡ notions_of blocks.old ++ cond is_selected (notion ∷ []) []) }
{
    if !is_selected {
        return Ok(());
    }
    let block = solve(alloc, &ready.game, &ready.pairs, notion)?;
    blocks.push(NamedBlock { notion, block })?;
    Ok(())
}

/// The blocks of the selected notions, in order.
fn blocks_of(alloc: Global, ready: &Ready, notions: Notions) -> Result<BlockList, NoMemory>
    requires whose { IsPairsOf ready.now.game ready.now.pairs }
    requires no_triangle { HasNoTriangle ready.now.pairs }
    requires sizes { FitPrograms ready.now.game ready.now.pairs (selected notions) }
    ensures whole { IfOk result AreWhole }
    ensures right { IfOk result (AreRight ready.now.game ready.now.pairs) }
    ensures notions { IfOk result (λ blocks. notions_of blocks ≡ selected notions) }
{
    let mut blocks = BlockList::new(alloc);
    add_block(alloc, ready, notions.efce, Notion::Efce, &mut blocks)?;
    add_block(alloc, ready, notions.efcce, Notion::Efcce, &mut blocks)?;
    add_block(alloc, ready, notions.nfcce, Notion::Nfcce, &mut blocks)?;
    Ok(blocks)
}

/// The report on a game with these blocks.
fn report_of(game: &Game, blocks: BlockList) -> Report
    requires whole { AreWhole blocks }
    requires selected { (notions : Notions) × SelectsSome notions × (notions_of blocks ≡ selected notions) }
    ensures same { result.blocks ≡ blocks }
    ensures scales { HasScales game.now result }
    ensures ranges { IsReport result }
{
    Report::of(game.scale(Side::One), game.scale(Side::Two), blocks)
}

/// What the file's game comes to: its first refusal, or the report with the blocks of the selected notions.
pub fn solve_file(
    alloc: Global,
    bytes: &[u8],
    notions: Notions,
) -> Result<Either<Refusal, Report>, NoMemory>
    requires short { length bytes.now ≤ 2 ^ 30 }
    requires some { SelectsSome notions }
    ensures { IfOk result (λ it. MatchEither it (IsFirstRefusal (selected notions) bytes.now) (IsReportOn notions bytes.now)) }
{
    match fitting_game(alloc, bytes, notions) {
        Ok(ready) => {
            let blocks = blocks_of(alloc, &ready, notions)?;
            Ok(Right(report_of(&ready.game, blocks)))
        }
        Err(ReadyEnd::Refused(refusal)) => Ok(Left(refusal)),
        Err(ReadyEnd::NoMemory) => Err(NoMemory),
    }
}

/// The game of a file, whose selected notions' programs fit.
fn fitting_game(alloc: Global, bytes: &[u8], notions: Notions) -> Result<Ready, ReadyEnd>
    requires { length bytes.now ≤ 2 ^ 30 }
    ensures game { IfOk result (λ ready. IsGameFor (selected notions) bytes.now ready.game ready.pairs) }
    ensures refused { IfErr result (IfRefused (IsFirstRefusal (selected notions) bytes.now)) }
{
    let ready = prepare(alloc, bytes)?;
    match first_size_refusal(&ready.game, &ready.pairs, notions) {
        Some(refusal) => Err(ReadyEnd::Refused(refusal)),
        None => Ok(ready),
    }
}
