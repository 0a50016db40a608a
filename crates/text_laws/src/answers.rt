// Laws of what the commands answer, as functions that do nothing.
ghost use Rattle.std.specs.Prelude.{◌≡◌, ℕ, ◌^◌, ◌<◌, ◌≤◌, List, length};
ghost use Rattle.command_words.specs.declared.commands.Notions.{Notions};
ghost use Rattle.command_words.specs.Selection.{selected};
ghost use Rattle.corr_game.specs.declared.payoffs.Pay.{Pay};
ghost use Rattle.corr_run.specs.declared.status.Status.{Status};
ghost use Rattle.corr_run.specs.declared.status.Status.TheVariants.{Refused, Solved, Written};
ghost use Rattle.corr_run.specs.FirstRefusal.{IsFirstRefusal};
ghost use Rattle.corr_run.specs.GenAnswer.{GenAnswer};
ghost use Rattle.corr_run.specs.Lines.{report_too_long_line, too_long_line, usage_line};
ghost use Rattle.corr_run.specs.OneNode.{one_node_report};
ghost use Rattle.corr_run.specs.SolveAnswer.{SolveAnswer};
ghost use Rattle.corr_run.specs.SolvedReport.{IsReportOn};
ghost use Rattle.corr_run.specs.WorkAnswer.{WorkAnswer};
ghost use Rattle.game_gen.specs.declared.kinds.Kind.{Kind};
ghost use Rattle.game_gen.specs.GameText.{game_text, greatest};
ghost use Rattle.one_node_file.specs.FirstForm.{HasFirstForm};
ghost use Rattle.report_form.specs.declared.refusals.Refusal.{Refusal};
ghost use Rattle.report_form.specs.declared.refusals.Refusal.TheVariants.{InputTooLong};
ghost use Rattle.report_form.specs.View.{ReportView};
ghost use Rattle.report_text.specs.RefusalText.{refusal_text};

/// `gen` has exactly one answer to a kind, a size and a seed; it writes a game only within the greatest size.
pub fn games_are_generated_once()
    ensures some { (kind : Kind) (n seed : ℕ) → (text : List ℕ) × (status : Status) × GenAnswer kind n seed text status }
    ensures one { (kind : Kind) (n seed : ℕ) (t u : List ℕ) (a b : Status) → GenAnswer kind n seed t a → GenAnswer kind n seed u b
        → (t ≡ u) × (a ≡ b) }
    ensures within { (kind : Kind) (n seed : ℕ) (text : List ℕ) → GenAnswer kind n seed text Written → n ≤ greatest kind }
{}

/// `solve` has one answer to an input that is too long, to one of a single terminal node, and to one that it refuses: no input is
/// refused by two lines, and none that is refused is solved too.
pub fn inputs_are_refused_by_one_line()
    ensures long { (notions : Notions) (input text : List ℕ) (status : Status) → 2 ^ 22 < length input
        → SolveAnswer notions input text status → (text ≡ too_long_line) × (status ≡ Refused) }
    ensures node { (notions : Notions) (input text : List ℕ) (status : Status) (pay : Pay) → length input ≤ 2 ^ 22
        → HasFirstForm input pay → SolveAnswer notions input text status → (text ≡ one_node_report notions pay) × (status ≡ Solved) }
    ensures refused { (notions : Notions) (input t u : List ℕ) (status : Status) → SolveAnswer notions input t Refused
        → SolveAnswer notions input u status → (u ≡ t) × (status ≡ Refused) }
{}

/// `work` has one answer where it refuses; and of a size within the greatest it refuses what `solve` refuses of the game's file, by
/// the same line, and where the file isn't one of a single terminal node nothing else.
pub fn work_refuses_what_solve_refuses()
    ensures one { (kind : Kind) (n seed : ℕ) (notions : Notions) (t u : List ℕ) (status : Status)
        → WorkAnswer kind n seed notions t Refused → WorkAnswer kind n seed notions u status → (u ≡ t) × (status ≡ Refused) }
    ensures by_solve { (kind : Kind) (n seed : ℕ) (notions : Notions) (text : List ℕ) → n ≤ greatest kind
        → SolveAnswer notions (game_text kind n seed) text Refused → WorkAnswer kind n seed notions text Refused }
    ensures nothing_else { (kind : Kind) (n seed : ℕ) (notions : Notions) (text : List ℕ) → n ≤ greatest kind
        → ((pay : Pay) → HasFirstForm (game_text kind n seed) pay → ⊥) → WorkAnswer kind n seed notions text Refused
        → SolveAnswer notions (game_text kind n seed) text Refused }
{}

/// Reports on the same bytes have the same scales, whatever the notions; a report has as many blocks as notions are selected; and
/// bytes that have one are refused for no reason.
pub fn reports_are_on_one_game()
    ensures scales { (notions others : Notions) (bytes : List ℕ) (a b : ReportView) → IsReportOn notions bytes a
        → IsReportOn others bytes b → (a.scale_one ≡ b.scale_one) × (a.scale_two ≡ b.scale_two) }
    ensures blocks { (notions : Notions) (bytes : List ℕ) (report : ReportView) → IsReportOn notions bytes report
        → length report.blocks ≡ length (selected notions) }
    ensures unrefused { (notions : Notions) (bytes : List ℕ) (report : ReportView) (refusal : Refusal)
        → IsReportOn notions bytes report → IsFirstRefusal (selected notions) bytes refusal → ⊥ }
{}

/// The lines of input that is too long are refusals that name its limit, and two; the usage line is none.
pub fn standing_lines_are_told_apart()
    ensures game { too_long_line ≡ refusal_text (InputTooLong (2 ^ 22)) }
    ensures report { report_too_long_line ≡ refusal_text (InputTooLong (2 ^ 30)) }
    ensures differ { too_long_line ≡ report_too_long_line → ⊥ }
    ensures usage { (refusal : Refusal) → refusal_text refusal ≡ usage_line → ⊥ }
{}
