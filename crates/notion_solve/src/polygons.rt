// The block of a polygon, and whether its sides are a belt.
ghost use Rattle.std.specs.Prelude.{◌≡◌, ◌↔◌, ◌≤◌, ℕ, length, IfOk, IsTrue};
ghost use Rattle.bland_simplex.specs.Open.{IsProgram};
ghost use Rattle.connected_pairs.specs.Connected.{IsPairsOf};
ghost use Rattle.lp_form.specs.Program.{LpView};
ghost use Rattle.polygon_sweep.specs.Swept.{IsSwept};
ghost use Rattle.report_form.specs.Points.{points_of};
ghost use Rattle.report_form.specs.Ranges.{IsBlock};
ghost use Rattle.triangle_test.specs.Triangle.{HasNoTriangle};
ghost use Rattle.notion_solve.specs.Belts.{IsBeltRoundPoints};
ghost use Rattle.notion_solve.specs.Programs.{IsOverRows};
ghost use Rattle.notion_solve.specs.Right.{HasBelt};
ghost use Rattle.notion_solve.specs.Shown.{IsShown};

use crate::corners::corners_of;
use connected_pairs::Pairs;
use corr_game::Game;
use plane_hull::{Point, belt};
use polygon_sweep::Swept;
use report_form::{Block, Corners};
use std::alloc::{AllocError as NoMemory, Global};

/// The block of a polygon.
pub fn found(alloc: Global, game: &Game, pairs: &Pairs, swept: Swept) -> Result<Block, NoMemory>
    requires whose { IsPairsOf game.now pairs.now }
    requires no_triangle { HasNoTriangle pairs.now }
    requires few { length pairs.now.pairs ≤ 8192 }
    requires swept { (lp : LpView) × IsSwept lp swept × IsOverRows pairs.now lp }
    ensures ranges { IfOk result IsBlock }
    ensures shown { IfOk result (λ block. (lp : LpView) → IsProgram lp → IsSwept lp swept → IsShown game.now pairs.now lp block) }
    ensures belt { IfOk result (λ block. IsBeltRoundPoints swept → HasBelt block) }
{
    let Swept { corners, sides } = swept;
    let _ = (game.len(), sides.len());
    Ok(Block::Found {
        corners: corners_of(alloc, game, pairs, &corners)?,
        sides,
    })
}

fn points_of(alloc: Global, corners: &Corners) -> Result<Vec<Point>, NoMemory>
    ensures { IfOk result (λ points. points.items ≡ points_of corners.now) }
{
    let mut points = Vec::new(alloc);
    for k in 0..corners.len() {
        points.push(corners.at(k).point)?;
    }
    Ok(points)
}

/// Whether the sides of a block with a polygon go once round its corners.
pub fn has_belt(alloc: Global, block: &Block) -> Result<bool, NoMemory>
    requires ranges { IsBlock block.now }
    ensures belt { IfOk result (λ yes. IsTrue yes ↔ HasBelt block.now) }
{
    let Block::Found { corners, sides } = block else {
        return Ok(true);
    };
    let points = points_of(alloc, corners)?;
    Ok(belt(points.as_slice(), sides).is_ok())
}
