// Laws of tableaus, as functions that do nothing.
ghost use Rattle.std.specs.Prelude.{◌≡◌, ◌≢◌, ◌+◌, ◌<◌, ◌≤◌, ℕ, ℤ, length, pos};
ghost use Rattle.lp_form.specs.Program.{LpView};
ghost use Rattle.lp_form.specs.Small.{IsSmall};
ghost use Rattle.int_tableau.specs.Content.{Content, IsTableau, IsProgramRow, IsColumn};
ghost use Rattle.int_tableau.specs.Pivot.{IsPivoted};
ghost use Rattle.int_tableau.specs.Reached.{IsReachedFrom, HaveOneBasis, IsSameButForOrder};
ghost use Rattle.int_tableau.specs.Start.{IsStart, StartsNarrow, start_entry};

/// A small program of few rows may start.
pub fn small_programs_start_narrow()
    ensures { (lp : LpView) → IsSmall lp → length lp.rows ≤ 2048 → StartsNarrow lp }
{}

/// A program's starting tableau is reached from itself.
pub fn starts_are_reached()
    ensures { (lp : LpView) (t : Content) → IsStart lp t → IsReachedFrom (start_entry lp) t }
{}

/// A pivot leads to a tableau of the same start.
pub fn pivots_keep_the_start()
    ensures { (start : ℕ → ℕ → ℤ) (old new : Content) (row col : ℕ) → IsTableau old → IsProgramRow old row → IsColumn old col → old.entry row col ≢ pos 0 → IsPivoted old new row col → IsReachedFrom start old → IsReachedFrom start new }
{}

/// One basis has one tableau, up to the order of its program rows.
pub fn one_basis_has_one_tableau()
    ensures { (start : ℕ → ℕ → ℤ) (t u : Content) → HaveOneBasis start t u → IsSameButForOrder t u }
{}

/// At a program's start a row's own artificial column has a 1 in that row, and a pivot there leaves all as it is.
pub fn pivoting_at_an_artificial_one_changes_nothing()
    ensures start { (lp : LpView) (t next : Content) → IsStart lp t → (row : ℕ) → row < length lp.rows
        → IsPivoted t next row (lp.cols + row) → IsStart lp next }
    ensures denom { (lp : LpView) (t next : Content) → IsStart lp t → (row : ℕ) → row < length lp.rows
        → IsPivoted t next row (lp.cols + row) → next.denom ≡ t.denom }
    ensures basis { (lp : LpView) (t next : Content) → IsStart lp t → (row : ℕ) → row < length lp.rows
        → IsPivoted t next row (lp.cols + row) → (i : ℕ) → i < length lp.rows → next.basic i ≡ t.basic i }
    ensures entries { (lp : LpView) (t next : Content) → IsStart lp t → (row : ℕ) → row < length lp.rows
        → IsPivoted t next row (lp.cols + row) → (i j : ℕ) → i < t.rows → j < t.cols → next.entry i j ≡ t.entry i j }
{}
