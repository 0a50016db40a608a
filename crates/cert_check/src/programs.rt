ghost use Rattle.std.specs.Prelude.{◌≡◌, ◌+◌, length, IfOk};
ghost use Rattle.connected_pairs.specs.Connected.{IsPairsOf};
ghost use Rattle.plan_polytope.specs.NotionProgram.{IsProgramOf};
ghost use Rattle.cert_check.specs.Bounds.{IsBounded};
ghost use Rattle.cert_check.specs.Certified.{whole_of};
ghost use Rattle.cert_check.specs.Fits.{Fits};

use connected_pairs::Pairs;
use corr_game::{Game, Notion};
use incentive_rows::incentives;
use lp_form::Lp;
use plan_polytope::polytope;
use std::alloc::{AllocError as NoMemory, Global};

/// The program of a notion: the rows of `base`, the correlation rows, and behind them the incentive rows of `more`, over
/// whose columns it stands.
#[derive(Drop)]
pub struct Program {
    pub base: Lp,
    pub more: Lp,
}

/// A notion's program.
pub fn program_of(
    alloc: Global,
    game: &Game,
    pairs: &Pairs,
    notion: Notion,
) -> Result<Program, NoMemory>
    requires whose { IsPairsOf game.now pairs.now }
    requires size { Fits game.now pairs.now notion }
    ensures bounded { IfOk result IsBounded }
    ensures whose { IfOk result (λ program. IsProgramOf game.now pairs.now notion (whole_of program)) }
{
    let base = polytope(alloc, game, pairs)?;
    let more = incentives(alloc, game, pairs, notion)?;
    Ok(Program { base, more })
}

impl Program {
    /// The number of rows.
    pub fn rows(&self) -> usize
        ensures count { result ≡ length self.now.base.rows + length self.now.more.rows }
    {
        self.base.rows() as usize + self.more.rows() as usize
    }
}
