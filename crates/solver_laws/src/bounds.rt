// Laws of the bounds within which a report is checked.
ghost use Rattle.std.specs.Prelude.{◌↔◌, ℕ, ◌^◌, ◌≤◌, All, List, ℤ, unsigned_abs};
ghost use Rattle.lp_form.specs.Program.{IsLp, LpView, joined};
ghost use Rattle.plan_polytope.specs.Bounds.{AreUnits};
ghost use Rattle.column_sums.specs.Bounds.{AreSteps, AreWithin, IsStep};
ghost use Rattle.cert_check.specs.Bounds.{IsBounded};
ghost use Rattle.cert_check.specs.Certified.{whole_of};
ghost use Rattle.lp_form.specs.declared.entries.Entry.{Entry};
ghost use Rattle.lp_form.specs.Row.{IsRow};

/// Numbers are within a bound by their places exactly where all of them are.
pub fn sums_within_are_all_within()
    ensures { (bound : ℕ) (sums : List ℤ) → AreWithin bound sums ↔ All (λ x. unsigned_abs x ≤ bound) sums }
{}

/// Narrow multiples of units are up to 2^62, those of joined programs as of both, and those of a bounded program up to 2^104.
pub fn steps_are_of_units_and_amounts()
    ensures units { (lp : LpView) → AreUnits lp → AreSteps (2 ^ 62) lp }
    ensures joined { (step : ℕ) (base more : LpView) → AreSteps step base → AreSteps step more → AreSteps step (joined base more) }
    ensures bounded { (p : _) → IsBounded p → AreSteps (2 ^ 104) (whole_of p) }
{}

/// Narrow multiples of the entries of a row, which are of 64 bits, are up to 2^125, and so are those of a program's coefficients.
pub fn rows_of_words_have_small_steps()
    ensures row { (cols : ℕ) (entries : List Entry) → IsRow cols entries → IsStep (2 ^ 125) entries }
    ensures program { (lp : LpView) → IsLp lp → AreSteps (2 ^ 125) lp }
{}
