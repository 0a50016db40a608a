ghost use Rattle.std.specs.Prelude.{◌≡◌, ◌↔◌, IsTrue, ℕ, ◌<◌, ◌≤◌, All, IfErr, IfOk, List, Ok, false, length, true};
ghost use Rattle.report_form.specs.declared.verdicts.Verdict.TheVariants.{NoScale, Partial, Yes};
ghost use Rattle.report_form.specs.declared.verdicts.Cause.TheVariants as causes;
ghost use Rattle.report_form.specs.declared.verdicts.Item.TheVariants.{Belt};
ghost use Rattle.cert_check.specs.Bounds.{IsBounded};
ghost use Rattle.cert_check.specs.Certified.{AreCertifiedBlocks, IsAccepted, NoneTooWide, whole_of};
ghost use Rattle.cert_check.specs.Ends.{IsFaultWith};
ghost use Rattle.cert_check.specs.Rules.{AllHold};
ghost use Rattle.cert_check.specs.Scales.{HasScales};
ghost use Rattle.cert_check.specs.SideRules.{EmptyRule, empty_rules};
ghost use Rattle.cert_check.specs.Truth.{IsBlockFault, IsFaultIn, IsTrueCorner, IsTrueOf, IsTrueSide, IsVerdictOn};
ghost use Rattle.lp_form.specs.Program.{LpView};
ghost use Rattle.plane_hull.specs.Belt.{IsBelt};
ghost use Rattle.plane_hull.specs.BeltFault.{IsFaultOf};
ghost use Rattle.plane_hull.specs.declared.sides.SideRow.{SideRow};
ghost use Rattle.corr_game.specs.Game.{GameView, IsGame};
ghost use Rattle.corr_game.specs.declared.notions.Notion.{Notion};
ghost use Rattle.corr_num.specs.Narrow.{Narrow};
ghost use Rattle.connected_pairs.specs.Connected.{IsPairsOf};
ghost use Rattle.report_form.specs.Points.{points_of};
ghost use Rattle.report_form.specs.declared.reports.Block.TheVariants.{Empty, Found};
ghost use Rattle.report_form.specs.Ranges.{InOrderFrom, IsBlock, IsCorner, IsReport, IsSide};
ghost use Rattle.report_form.specs.View.{ReportView};
ghost use Rattle.cert_check.specs.Fits.{AllFit, Fits};

use crate::corners::check_corner;
use crate::faults::{BlockEnd, Fault, at_item};
use crate::programs::{Program, program_of};
use crate::sides::{check_multipliers, check_side};
use connected_pairs::Pairs;
use corr_game::{Game, Notion, Side};
use lp_form::NumList;
use plane_hull::{Point, SideList, belt};
use report_form::{Block, BlockList, Cause, Corners, Item, NamedBlock, Report, Verdict};
use std::alloc::{AllocError as NoMemory, Global};

/// What a report on a game without a triangle is worth: the first rule that it breaks, in the order of its parts.
pub fn check(
    alloc: Global,
    game: &Game,
    pairs: &Pairs,
    report: &Report,
) -> Result<Verdict, NoMemory>
    requires whose { IsPairsOf game.now pairs.now }
    requires sizes { AllFit game.now pairs.now report.now.blocks }
    ensures verdict { IfOk result (IsVerdictOn game.now pairs.now report.now) }
    ensures no_scale { IfOk result (λ verdict. verdict ≡ NoScale → HasScales game.now report.now → ⊥) }
    ensures scales { IfOk result (λ verdict. (HasScales game.now report.now → ⊥) → verdict ≡ NoScale) }
    ensures certified { IfOk result (λ verdict. IsAccepted verdict → AreCertifiedBlocks game.now pairs.now report.now.blocks) }
    ensures whole { IfOk result (λ verdict. verdict ≡ Yes → NoneTooWide report.now.blocks) }
    ensures partly { IfOk result (λ verdict. verdict ≡ Partial → NoneTooWide report.now.blocks → ⊥) }
{
    if !has_scales(game, report) {
        return Ok(Verdict::NoScale);
    }
    let verdict = check_blocks(alloc, game, pairs, report.blocks())?;
    Ok(verdict)
}

fn has_scales(game: &Game, report: &Report) -> bool
    ensures rules { IsGame game.now }
    ensures scales { IsTrue result ↔ HasScales game.now report.now }
{
    *report.scale(Side::One) == game.scale(Side::One)
        && *report.scale(Side::Two) == game.scale(Side::Two)
}

fn check_blocks(
    alloc: Global,
    game: &Game,
    pairs: &Pairs,
    blocks: &BlockList,
) -> Result<Verdict, NoMemory>
    requires rules { IsGame game.now }
    requires whose { IsPairsOf game.now pairs.now }
    requires ranges { InOrderFrom 0 blocks.now }
    requires sizes { AllFit game.now pairs.now blocks.now }
    ensures verdict { IfOk result (λ verdict. (report : ReportView) → report.blocks ≡ blocks.now → IsReport report
        → HasScales game.now report → IsVerdictOn game.now pairs.now report verdict) }
    ensures not_scales { IfOk result (λ verdict. verdict ≡ NoScale → ⊥) }
    ensures certified { IfOk result (λ verdict. IsAccepted verdict → AreCertifiedBlocks game.now pairs.now blocks.now) }
    ensures whole { IfOk result (λ verdict. verdict ≡ Yes → NoneTooWide blocks.now) }
    ensures partly { IfOk result (λ verdict. verdict ≡ Partial → NoneTooWide blocks.now → ⊥) }
{
    for k in 0..blocks.len() {
        let named = blocks.at(k);
        match check_block(alloc, game, pairs, named) {
            Ok(()) => {}
            Err(BlockEnd::NoMemory) => return Err(NoMemory),
            Err(BlockEnd::Fault(Fault { item, cause })) => {
                return Ok(Verdict::No {
                    notion: named.notion,
                    item,
                    cause,
                });
            }
        }
    }
    Ok(if some_too_wide(blocks) {
        Verdict::Partial
    } else {
        Verdict::Yes
    })
}

/// Whether a block says that a tableau is too wide.
pub fn some_too_wide(blocks: &BlockList) -> bool
    ensures none { result ≡ false → NoneTooWide blocks.now }
    ensures some { result ≡ true → NoneTooWide blocks.now → ⊥ }
{
    for k in 0..blocks.len() {
        if let Block::TooWide { .. } = blocks.at(k).block {
            return true;
        }
    }
    false
}

fn check_block(
    alloc: Global,
    game: &Game,
    pairs: &Pairs,
    named: &NamedBlock,
) -> Result<(), BlockEnd>
    requires rules { IsGame game.now }
    requires whose { IsPairsOf game.now pairs.now }
    requires ranges { IsBlock named.now.block }
    requires size { Fits game.now pairs.now named.now.notion }
    ensures held { IfOk result (λ _. IsTrueOf game.now pairs.now named.now) }
    ensures broken { IfErr result (IsFaultWith (IsFaultIn game.now pairs.now named.now.notion named.now.block)) }
{
    let program = program_of(alloc, game, pairs, named.notion)?;
    match &named.block {
        Block::Found { corners, sides } => {
            check_corners(alloc, game, pairs, named.notion, corners)?;
            check_sides(alloc, game, &program, corners, sides)?;
            Ok(())
        }
        Block::Empty { multipliers } => {
            check_empty(alloc, &program, multipliers)?;
            Ok(())
        }
        Block::TooWide { .. } => Ok(()),
    }
}

fn check_corners(
    alloc: Global,
    game: &Game,
    pairs: &Pairs,
    notion: Notion,
    corners: &Corners,
) -> Result<(), BlockEnd>
    requires rules { IsGame game.now }
    requires whose { IsPairsOf game.now pairs.now }
    requires ranges { All IsCorner corners.now }
    ensures held { IfOk result (λ _. All (IsTrueCorner game.now notion) corners.now) }
    ensures broken { IfErr result (IsFaultWith (λ item cause. (lp : LpView) (sides : List SideRow)
        → IsBlockFault game.now lp notion (Found corners.now sides) item cause)) }
{
    for k in 0..corners.len() {
        if let Err(end) = check_corner(alloc, game, pairs, notion, corners.at(k)) {
            return Err(at_item(end, Item::Corner(k)));
        }
    }
    Ok(())
}

/// The belt, then each side.
fn check_sides(
    alloc: Global,
    game: &Game,
    program: &Program,
    corners: &Corners,
    sides: &SideList,
) -> Result<(), BlockEnd>
    requires bounded { IsBounded program.now }
    requires a_corner { 1 ≤ length corners.now }
    requires ranges { All (IsSide (length corners.now)) sides.now }
    ensures held { IfOk result (λ _. IsBelt (points_of corners.now) sides.now × All (IsTrueSide game.now (whole_of program.now) corners.now) sides.now) }
    ensures broken { IfErr result (IsFaultWith (λ item cause. (notion : Notion) → All (IsTrueCorner game.now notion) corners.now
        → IsBlockFault game.now (whole_of program.now) notion (Found corners.now sides.now) item cause)) }
{
    let points = points_of(alloc, corners)?;
    check_belt(points.as_slice(), sides)?;
    for k in 0..sides.len() {
        match check_side(alloc, game, program, points.as_slice(), sides.at(k)) {
            Ok(()) => {}
            Err(end) => return Err(at_item(end, Item::Side(k))),
        }
    }
    Ok(())
}

fn points_of(alloc: Global, corners: &Corners) -> Result<Vec<Point>, NoMemory>
    ensures { IfOk result (λ points. points.items ≡ points_of corners.now) }
{
    let mut points = Vec::new(alloc);
    for k in 0..corners.len() {
        points.push(corners.at(k).point)?;
    }
    Ok(points)
}

fn check_belt(points: &[Point], sides: &SideList) -> Result<(), BlockEnd>
    requires a_corner { 1 ≤ length points.now }
    requires ranges { All (IsSide (length points.now)) sides.now }
    ensures held { IfOk result (λ _. IsBelt points.now sides.now) }
    ensures broken { IfErr result (IsFaultWith (λ item cause. (side : ℕ) × (item ≡ Belt side) × (cause ≡ causes.Belt)
        × IsFaultOf points.now sides.now side)) }
{
    match belt(points, sides) {
        Ok(()) => Ok(()),
        Err(broken) => Err(BlockEnd::Fault(Fault {
            item: Item::Belt(broken.side),
            cause: Cause::Belt,
        })),
    }
}

fn check_empty(alloc: Global, program: &Program, multipliers: &NumList) -> Result<(), BlockEnd>
    requires bounded { IsBounded program.now }
    requires narrow { All Narrow multipliers.now }
    ensures held { IfOk result (λ _. AllHold (EmptyRule (whole_of program.now) multipliers.now) (empty_rules (whole_of program.now))) }
    ensures broken { IfErr result (IsFaultWith (λ item cause. (g : GameView) (notion : Notion)
        → IsBlockFault g (whole_of program.now) notion (Empty multipliers.now) item cause)) }
{
    match check_multipliers(alloc, program, multipliers) {
        Ok(()) => Ok(()),
        Err(end) => Err(at_item(end, Item::Multipliers)),
    }
}
