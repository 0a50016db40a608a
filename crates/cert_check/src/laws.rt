// Laws of the rules of a report, as functions that do nothing.
ghost use Rattle.std.specs.Prelude.{◌≡◌, ◌⊎◌, List, ℤ, pos, ◌<ℤ◌};
ghost use Rattle.corr_game.specs.declared.notions.Notion.{Notion};
ghost use Rattle.corr_game.specs.Game.{GameView};
ghost use Rattle.connected_pairs.specs.Connected.{PairsView};
ghost use Rattle.lp_form.specs.Certificates.{ShowEmpty};
ghost use Rattle.lp_form.specs.Program.{LpView};
ghost use Rattle.plane_hull.specs.declared.sides.SideRow.{SideRow};
ghost use Rattle.report_form.specs.Certified.{IsCertified};
ghost use Rattle.report_form.specs.declared.reports.Block.{Block};
ghost use Rattle.report_form.specs.declared.reports.Corner.{Corner};
ghost use Rattle.report_form.specs.declared.verdicts.Cause.{Cause};
ghost use Rattle.report_form.specs.View.{ReportView};
ghost use Rattle.report_form.specs.declared.verdicts.Item.{Item};
ghost use Rattle.report_form.specs.declared.verdicts.Verdict.{Verdict};
ghost use Rattle.report_form.specs.declared.verdicts.Verdict.TheVariants.{Partial, Yes};
ghost use Rattle.cert_check.specs.CornerRules.{CornerRule, corner_rules};
ghost use Rattle.cert_check.specs.Rules.{AllHold, IsFirstBroken};
ghost use Rattle.cert_check.specs.SideRules.{EmptyRule, empty_rules};
ghost use Rattle.cert_check.specs.Truth.{IsBlockFault, IsTrueBlock, IsTrueReport, IsTrueSide, IsVerdictOn};

/// Of a corner's rules at most one is the first that doesn't hold.
pub fn corners_break_one_rule_first()
    ensures { (g : GameView) (notion : Notion) (corner : Corner) (one two : Cause) → IsFirstBroken (CornerRule g notion corner) corner_rules one
        → IsFirstBroken (CornerRule g notion corner) corner_rules two → one ≡ two }
{}

/// A block that is true has no fault.
pub fn true_blocks_have_no_fault()
    ensures { (g : GameView) (lp : LpView) (notion : Notion) (block : Block) (at : Item) (cause : Cause) → IsTrueBlock g lp notion block
        → IsBlockFault g lp notion block at cause → ⊥ }
{}

/// A side over a positive denominator whose rules hold is certified.
pub fn true_sides_are_certified()
    ensures { (g : GameView) (lp : LpView) (corners : List Corner) (side : SideRow) → pos 0 <ℤ side.den → IsTrueSide g lp corners side
        → IsCertified g lp corners side }
{}

/// Multipliers whose rules hold show that their program has no solution.
pub fn true_multipliers_show_empty()
    ensures { (lp : LpView) (multipliers : List ℤ) → AllHold (EmptyRule lp multipliers) (empty_rules lp) → ShowEmpty lp multipliers }
{}

/// Of one program a block has one fault at most.
pub fn blocks_have_one_fault()
    ensures item { (g : GameView) (lp : LpView) (notion : Notion) (block : Block) (at other : Item) (one two : Cause)
        → IsBlockFault g lp notion block at one → IsBlockFault g lp notion block other two → at ≡ other }
    ensures cause { (g : GameView) (lp : LpView) (notion : Notion) (block : Block) (at other : Item) (one two : Cause)
        → IsBlockFault g lp notion block at one → IsBlockFault g lp notion block other two → one ≡ two }
{}

/// A true report has the verdict Yes or Partial, not both, and a report with one of these is true.
pub fn true_reports_are_accepted()
    ensures some { (g : GameView) (p : PairsView) (report : ReportView) → IsTrueReport g p report
        → IsVerdictOn g p report Yes ⊎ IsVerdictOn g p report Partial }
    ensures one { (g : GameView) (p : PairsView) (report : ReportView) → IsVerdictOn g p report Yes → IsVerdictOn g p report Partial → ⊥ }
    ensures back { (g : GameView) (p : PairsView) (report : ReportView)
        → IsVerdictOn g p report Yes ⊎ IsVerdictOn g p report Partial → IsTrueReport g p report }
{}

/// A report has one verdict at most.
pub fn each_report_has_one_verdict()
    ensures { (g : GameView) (p : PairsView) (report : ReportView) (one two : Verdict) → IsVerdictOn g p report one
        → IsVerdictOn g p report two → one ≡ two }
{}
