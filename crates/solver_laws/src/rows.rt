// Laws of the correlation rows, and of what solutions make of them.
ghost use Rattle.std.specs.Prelude.{◌≡◌, ℕ, ◌<◌, ◌≤◌, length, pos};
ghost use Rattle.corr_game.specs.Game.{GameView};
ghost use Rattle.connected_pairs.specs.Connected.{IsPairs, IsPairsOf, PairsView};
ghost use Rattle.lp_form.specs.Program.{IsLp, IsProgram, LpView, coefficient, joined};
ghost use Rattle.plan_polytope.specs.CorrelationRow.{IsCorrelationRow, IsRowOf};
ghost use Rattle.plan_polytope.specs.Rows.{AreCorrelationRows};
ghost use Rattle.plan_polytope.specs.Solutions.{SolutionsMeetRows};

/// A game has one number of correlation rows.
pub fn correlation_rows_are_one_number()
    ensures { (g : GameView) (p : PairsView) (a b : LpView) → AreCorrelationRows g p a → AreCorrelationRows g p b
        → length a.rows ≡ length b.rows }
{}

/// The first row has 1 at the pair of empty sequences, which is the first column, and 0 in all others.
pub fn the_total_row_is_of_the_first_column()
    ensures one { (g : GameView) (p : PairsView) (lp : LpView) → IsPairs p → IsPairsOf g p → AreCorrelationRows g p lp
        → coefficient lp 0 0 ≡ pos 1 }
    ensures zeros { (g : GameView) (p : PairsView) (lp : LpView) → IsPairs p → IsPairsOf g p → AreCorrelationRows g p lp
        → (col : ℕ) → 0 < col → coefficient lp 0 col ≡ pos 0 }
{}

/// Each set beside each sequence that counts there has a row behind the first.
pub fn each_correlation_row_stands_there()
    ensures { (g : GameView) (p : PairsView) (lp : LpView) (row : _) → AreCorrelationRows g p lp → IsRowOf g p row
        → (r : ℕ) × (0 < r) × (r < length lp.rows) × IsCorrelationRow p row lp r }
{}

/// Solutions of a program of the correlation rows alone meet them.
pub fn solutions_of_correlation_rows_meet_them()
    ensures { (g : GameView) (p : PairsView) (lp : LpView) → IsPairs p → IsPairsOf g p → lp.cols ≡ length p.pairs
        → IsProgram lp → AreCorrelationRows g p lp → SolutionsMeetRows p lp }
{}

/// Where solutions of a program meet the correlation rows, so do those of the program with more rows behind.
pub fn more_rows_leave_the_correlation_rows_met()
    ensures { (p : PairsView) (base more : LpView) → IsLp base → base.cols ≤ more.cols → SolutionsMeetRows p base
        → SolutionsMeetRows p (joined base more) }
{}
