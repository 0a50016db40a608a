// Laws of the texts of reports, refusals, verdicts and summaries, as functions that do nothing.
ghost use Rattle.std.specs.Prelude.{◌≡◌, ◌↔◌, ℕ, ◌+◌, ◌<◌, ◌≤◌, ◌==◌, List, [], ◌++◌, length};
ghost use Rattle.std.specs.List.{filter};
ghost use Rattle.answer_text.specs.SummaryText.{node_count, polygon_summary, summary_text};
ghost use Rattle.answer_text.specs.VerdictText.{cause_text, verdict_text, wide_name};
ghost use Rattle.report_form.specs.declared.verdicts.Cause.{Cause};
ghost use Rattle.report_form.specs.declared.verdicts.Verdict.{Verdict};
ghost use Rattle.cert_check.specs.Certified.{NoneTooWide, is_too_wide};
ghost use Rattle.corr_run.specs.CheckAnswer.{verdict_status};
ghost use Rattle.game_gen.specs.declared.kinds.Kind.{Kind};
ghost use Rattle.game_gen.specs.GameText.{game_text, greatest};
ghost use Rattle.report_form.specs.declared.refusals.Refusal.{Refusal};
ghost use Rattle.report_form.specs.declared.reports.Block.{Block};
ghost use Rattle.report_form.specs.declared.reports.Corner.{Corner};
ghost use Rattle.report_form.specs.declared.reports.NamedBlock.{NamedBlock};
ghost use Rattle.report_form.specs.Points.{points_of};
ghost use Rattle.report_form.specs.Ranges.{IsReport};
ghost use Rattle.report_form.specs.View.{ReportView};
ghost use Rattle.report_reader.specs.Syntax.{IsReadFrom};
ghost use Rattle.report_text.specs.Joined.{each_text};
ghost use Rattle.report_text.specs.RefusalText.{refusal_text};
ghost use Rattle.report_text.specs.ReportText.{block_text, named_block_text, report_text};
ghost use Rattle.text_laws.specs.Fields.{HasRefusalFields, HasVerdictFields};

/// A block's text tells its notion and whether it is too wide; and the texts of blocks stand one behind the other.
pub fn blocks_are_told_by_their_texts()
    ensures notion { (a b : NamedBlock) → named_block_text a ≡ named_block_text b → a.notion ≡ b.notion }
    ensures wide { (a b : Block) → block_text a ≡ block_text b → is_too_wide a ≡ is_too_wide b }
    ensures joined { (xs ys : List NamedBlock)
        → each_text named_block_text (xs ++ ys) ≡ each_text named_block_text xs ++ each_text named_block_text ys }
{}

/// One text is of one report, no report's text is a front of another's, and from the front of some bytes one report is read.
pub fn one_text_is_of_one_report()
    ensures text { (x y : ReportView) → IsReport x → IsReport y → report_text x ≡ report_text y → x ≡ y }
    ensures front { (x y : ReportView) (a b : List ℕ) → IsReport x → IsReport y → report_text x ++ a ≡ report_text y ++ b
        → (x ≡ y) × (a ≡ b) }
    ensures read { (bytes : List ℕ) (x y : ReportView) (m n : ℕ) → IsReadFrom bytes x m → IsReadFrom bytes y n
        → (x ≡ y) × (m ≡ n) }
{}

/// No two refusals have one line, as far as their fields hold their numbers.
pub fn refusals_are_told_by_their_lines()
    ensures { (a b : Refusal) → HasRefusalFields a → HasRefusalFields b → refusal_text a ≡ refusal_text b → a ≡ b }
{}

/// The line of a refusal is no report, no verdict and no summary.
pub fn refusals_are_no_answers()
    ensures report { (refusal : Refusal) (report : ReportView) → refusal_text refusal ≡ report_text report → ⊥ }
    ensures verdict { (refusal : Refusal) (given : Verdict) (blocks : List NamedBlock)
        → refusal_text refusal ≡ verdict_text given blocks → ⊥ }
    ensures summary { (refusal : Refusal) (kind : Kind) (n seed : ℕ) (blocks : List NamedBlock)
        → refusal_text refusal ≡ summary_text kind n seed blocks → ⊥ }
{}

/// No two verdicts have one line, as far as their fields hold their numbers and the belt fails by its one cause; in any case the line
/// tells the status that goes with the verdict, and each rule has a text of its own. A partial verdict names no notion exactly where
/// no block is too wide.
pub fn verdicts_are_told_by_their_lines()
    ensures one { (a b : Verdict) (blocks others : List NamedBlock) → HasVerdictFields a → HasVerdictFields b
        → verdict_text a blocks ≡ verdict_text b others → a ≡ b }
    ensures status { (a b : Verdict) (blocks others : List NamedBlock) → verdict_text a blocks ≡ verdict_text b others
        → verdict_status a ≡ verdict_status b }
    ensures cause { (a b : Cause) → cause_text a ≡ cause_text b → a ≡ b }
    ensures named { (blocks : List NamedBlock) → each_text wide_name blocks ≡ [] ↔ NoneTooWide blocks }
{}

/// A larger game has more nodes, one of size 0 has its root alone, and a generated game's file has a line for each behind that of its
/// title. The summary of a polygon depends on its corners' points alone.
pub fn summaries_count_nodes_and_tell_points()
    ensures more { (kind : Kind) (m n : ℕ) → m < n → node_count kind m < node_count kind n }
    ensures root { (kind : Kind) → node_count kind 0 ≡ 1 }
    ensures lines { (kind : Kind) (n seed : ℕ) → n ≤ greatest kind
        → length (filter (λ (byte : ℕ). byte == 10) (game_text kind n seed)) ≡ node_count kind n + 1 }
    ensures points { (a b : List Corner) → points_of a ≡ points_of b → polygon_summary a ≡ polygon_summary b }
{}
