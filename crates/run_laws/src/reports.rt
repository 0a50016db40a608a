// Laws of what a report says and of the checker's rules, as functions that do nothing but call laws.
ghost use Rattle.std.specs.Prelude.{All};
ghost use Rattle.cert_check.specs.Scales.{HasScales};
ghost use Rattle.cert_check.specs.Truth.{IsTooWide, IsTrueBlock, IsTrueReport, IsVerdictOn};
ghost use Rattle.connected_pairs.specs.Connected.{IsPairs, IsPairsOf, PairsView};
ghost use Rattle.corr_game.specs.Game.{GameView, IsGame};
ghost use Rattle.corr_game.specs.declared.notions.Notion.{Notion};
ghost use Rattle.lp_form.specs.Program.{LpView};
ghost use Rattle.notion_solve.specs.Exact.{IsExact};
ghost use Rattle.notion_solve.specs.Right.{IsRight, IsRightFor};
ghost use Rattle.plan_polytope.specs.NotionProgram.{IsProgramOf};
ghost use Rattle.report_form.specs.Ranges.{IsBlock, IsReport};
ghost use Rattle.report_form.specs.View.{ReportView};
ghost use Rattle.report_form.specs.declared.reports.Block.{Block};
ghost use Rattle.report_form.specs.declared.verdicts.Verdict.TheVariants.{Yes};

use cert_check::{true_multipliers_show_empty, true_sides_are_certified};

/// A right block is true by all rules of the checker.
pub fn right_blocks_are_true()
    ensures { (notion : Notion) (g : GameView) (p : PairsView) (lp : LpView) (block : Block)
        → IsRight notion g p lp block → IsTrueBlock g lp notion block }
{}

/// So is a report in its ranges with the game's scales, all of whose blocks are right.
pub fn right_reports_are_true()
    ensures { (g : GameView) (p : PairsView) (report : ReportView) → IsReport report → HasScales g report
        → All (λ named. IsRightFor g p named.notion named.block) report.blocks → IsTrueReport g p report }
{}

/// A true block in its ranges is exact, whoever wrote it and however many pairs of plans its corners have.
pub fn true_blocks_are_exact()
    ensures { (notion : Notion) (g : GameView) (p : PairsView) (lp : LpView) (block : Block) → IsGame g → IsPairs p → IsPairsOf g p
        → IsProgramOf g p notion lp → IsBlock block → IsTrueBlock g lp notion block → IsExact notion g block }
{
    true_sides_are_certified();
    true_multipliers_show_empty();
}

/// Of a report that gets the verdict `yes` each block is exact, and none is too wide.
pub fn yes_means_exact()
    ensures { (g : GameView) (p : PairsView) (report : ReportView) → IsGame g → IsPairs p → IsPairsOf g p → IsVerdictOn g p report Yes
        → All (λ named. IsExact named.notion g named.block × (IsTooWide named → ⊥)) report.blocks }
{
    true_sides_are_certified();
    true_multipliers_show_empty();
}
