// Laws of the first phase: of the columns that lower it, of tableaus that are driven, stuck and open, and of what it answers.
ghost use Rattle.std.specs.Prelude.{◌≡◌, ◌≢◌, ◌↔◌, ℕ, ◌+◌, ◌<◌, List, length, None, ℤ, pos, ◌<ℤ◌, slice_index_or};
ghost use Rattle.exact_algebra.specs.Sums.{sum_to};
ghost use Rattle.lp_form.specs.Program.{IsProgram, LpView, coefficient};
ghost use Rattle.int_tableau.specs.Content.{Content, IsTableau};
ghost use Rattle.int_tableau.specs.Start.{IsStart};
ghost use Rattle.bland_simplex.specs.declared.first_phase.Found.{Found};
ghost use Rattle.bland_simplex.specs.Answer.{FoundFor, IsTrueOf};
ghost use Rattle.bland_simplex.specs.Driven.{DrivesOut, FindsOut, IsDriven};
ghost use Rattle.bland_simplex.specs.Lowering.{Lowers};
ghost use Rattle.bland_simplex.specs.Multipliers.{AreMultipliers, IsStuck};
ghost use Rattle.bland_simplex.specs.Open.{IsOpen, IsOpenFor};
ghost use Rattle.bland_simplex.specs.Order.{AreNone};
ghost use Rattle.bland_simplex.specs.Ready.{IsLowered, IsReady};

/// At a program's start a column lowers the first phase exactly where the program's coefficients in it sum to more than 0, and no
/// artificial column does.
pub fn columns_lower_by_their_sums()
    ensures program { (lp : LpView) (t : Content) → IsStart lp t → (col : ℕ) → col < lp.cols
        → Lowers t (length lp.rows) col ↔ (pos 0 <ℤ sum_to (length lp.rows) (λ row. coefficient lp row col)) }
    ensures artificial { (lp : LpView) (t : Content) → IsStart lp t → (row : ℕ) → row < length lp.rows
        → Lowers t (length lp.rows) (lp.cols + row) → ⊥ }
{}

/// The first phase is stuck exactly where no column lowers it and it hasn't come to 0.
pub fn stuck_phases_lower_no_more()
    ensures { (rows cols : ℕ) (t : Content)
        → IsStuck rows cols t ↔ (AreNone (cols + rows) (Lowers t rows) × (t.entry (rows + 2) (cols + rows) ≢ pos 0)) }
{}

/// Where the first phase is stuck, it isn't done.
pub fn stuck_tableaus_are_not_lowered()
    ensures { (lp : LpView) (t : Content) → IsStuck (length lp.rows) lp.cols t → IsLowered lp t → ⊥ }
{}

/// A tableau is driven exactly where no entry drives an artificial column out, and none is found there.
pub fn driven_where_none_drives_out()
    ensures none { (t : Content) (rows cols : ℕ) → IsDriven t rows cols ↔ ((row col : ℕ) → DrivesOut t rows cols row col → ⊥) }
    ensures found { (t : Content) (rows cols : ℕ) (found : _) → IsDriven t rows cols
        → FindsOut t rows cols (IsDriven t rows cols) found → found ≡ None }
{}

/// In a ready tableau each row with a basic artificial column is 0 in the program's columns.
pub fn ready_tableaus_are_driven()
    ensures { (lp : LpView) (t : Content) → IsReady lp t → IsDriven t (length lp.rows) lp.cols }
{}

/// A tableau has one list of multipliers.
pub fn multipliers_are_one_list()
    ensures { (rows cols : ℕ) (t : Content) (one other : List ℤ) → AreMultipliers rows cols t one → AreMultipliers rows cols t other
        → one ≡ other }
{}

/// At a program's start each row's multiplier is 1.
pub fn the_start_has_ones_as_multipliers()
    ensures { (lp : LpView) (t : Content) (multipliers : List ℤ) → IsStart lp t → AreMultipliers (length lp.rows) lp.cols t multipliers
        → (row : ℕ) → row < length lp.rows → slice_index_or multipliers row (pos 0) ≡ pos 1 }
{}

/// What the first phase leaves makes its answer true.
pub fn answers_are_true()
    ensures { (lp : LpView) (t : Content) (found : Found) → IsProgram lp → FoundFor lp t found → IsTrueOf lp found }
{}

/// One tableau has one answer.
pub fn a_tableau_has_one_answer()
    ensures { (lp : LpView) (t : Content) (one other : Found) → FoundFor lp t one → FoundFor lp t other → one ≡ other }
{}

/// An open tableau is of one number of rows and of columns, and its basic columns are before the right side's.
pub fn open_tableaus_have_one_shape()
    ensures rows { (rows cols more wider : ℕ) (t : Content) → IsOpen rows cols t → IsOpen more wider t → rows ≡ more }
    ensures columns { (rows cols more wider : ℕ) (t : Content) → IsOpen rows cols t → IsOpen more wider t → cols ≡ wider }
    ensures basis { (rows cols : ℕ) (t : Content) → IsOpen rows cols t → (row : ℕ) → row < rows → t.basic row < cols + rows }
{}

/// A program's starting tableau that keeps the rules of tableaus is open for the program.
pub fn the_start_is_open()
    ensures { (lp : LpView) (t : Content) → IsTableau t → IsStart lp t → IsOpenFor lp t }
{}
