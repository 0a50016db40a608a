// Laws of bases, of Bland's rule, and of the lists of a starting tableau.
ghost use Rattle.std.specs.Prelude.{◌≡◌, ◌↔◌, ℕ, ◌+◌, ◌<◌, All, List, length, ℤ, pos, ◌≤ℤ◌};
ghost use Rattle.corr_num.specs.Narrow.{Narrow};
ghost use Rattle.exact_linear.specs.Basis.{IsBasic, IsSameBasis};
ghost use Rattle.exact_linear.specs.BlandRule.{IsBlandStep};
ghost use Rattle.lp_form.specs.Program.{LpView, right_of};
ghost use Rattle.int_tableau.specs.Elimination.{at};
ghost use Rattle.int_tableau.specs.Start.{IsNarrowRow};
ghost use Rattle.int_tableau.specs.StartLists.{AreStartRows, IsStartBasis, IsStartRow};

/// Two bases are the same exactly where each column is basic in both or in none.
pub fn bases_are_sets_of_columns()
    ensures { (m : ℕ) (first second : ℕ → ℕ) → IsSameBasis m first second
        ↔ ((column : ℕ) → IsBasic m first column ↔ IsBasic m second column) }
{}

/// Being one basis goes on from the second to a third, and two columns are one basis in either order.
pub fn bases_are_one_in_any_order()
    ensures on { (m : ℕ) (first second third : ℕ → ℕ) → IsSameBasis m first second → IsSameBasis m second third
        → IsSameBasis m first third }
    ensures two { (first second : ℕ → ℕ) → first 0 ≡ second 1 → first 1 ≡ second 0 → IsSameBasis 2 first second }
{}

/// Where columns and basic columns have ranks of their own, Bland's rule takes one step: one column enters, and one row's leaves.
pub fn blands_rule_takes_one_step()
    ensures column { (m q side : ℕ) (rank basis : ℕ → ℕ) (matrix : ℕ → ℕ → ℤ) (row : ℕ → ℤ) (r s other next : ℕ)
        → ((i j : ℕ) → i < q → j < q → rank i ≡ rank j → i ≡ j) → IsBlandStep m q side rank basis matrix row r s
        → IsBlandStep m q side rank basis matrix row other next → s ≡ next }
    ensures row { (m q side : ℕ) (rank basis : ℕ → ℕ) (matrix : ℕ → ℕ → ℤ) (row : ℕ → ℤ) (r s other next : ℕ)
        → ((i j : ℕ) → i < q → j < q → rank i ≡ rank j → i ≡ j)
        → ((i j : ℕ) → i < m → j < m → rank (basis i) ≡ rank (basis j) → i ≡ j) → IsBlandStep m q side rank basis matrix row r s
        → IsBlandStep m q side rank basis matrix row other next → r ≡ other }
{}

/// Where no reduced cost of the columns is negative, Bland's rule takes no step.
pub fn blands_rule_stops_at_an_optimum()
    ensures { (m q side : ℕ) (rank basis : ℕ → ℕ) (matrix : ℕ → ℕ → ℤ) (row : ℕ → ℤ) (r s : ℕ)
        → ((j : ℕ) → j < q → pos 0 ≤ℤ row j) → IsBlandStep m q side rank basis matrix row r s → ⊥ }
{}

/// A program has one starting tableau: one list of each row, one list of rows and one basis.
pub fn programs_start_in_one_way()
    ensures row { (lp : LpView) (row : ℕ) (one other : List ℤ) → IsStartRow lp row one → IsStartRow lp row other → one ≡ other }
    ensures rows { (lp : LpView) (one other : List (List ℤ)) → AreStartRows lp one → AreStartRows lp other → one ≡ other }
    ensures basis { (lp : LpView) (one other : List ℕ) → IsStartBasis lp one → IsStartBasis lp other → one ≡ other }
{}

/// A program's row starts with a 1 in its artificial column, and with its right side last.
pub fn program_rows_start_with_their_right_sides()
    ensures own { (lp : LpView) (row : ℕ) (entries : List ℤ) → row < length lp.rows → IsStartRow lp row entries
        → at entries (lp.cols + row) ≡ pos 1 }
    ensures right { (lp : LpView) (row : ℕ) (entries : List ℤ) → row < length lp.rows → IsStartRow lp row entries
        → at entries (lp.cols + length lp.rows) ≡ right_of lp row }
{}

/// The list of a starting row has narrow numbers exactly where the row is narrow.
pub fn start_lists_are_narrow_as_their_rows()
    ensures { (lp : LpView) (row : ℕ) (entries : List ℤ) → IsStartRow lp row entries → All Narrow entries ↔ IsNarrowRow lp row }
{}
