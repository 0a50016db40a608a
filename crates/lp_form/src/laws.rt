// Laws of certificates, as functions that do nothing: what may be believed once the columns have been gone through.
ghost use Rattle.std.specs.Prelude.{ℕ, List, ℤ, pos, ◌+ℤ◌, ◌*ℤ◌, ◌≤ℤ◌, ◌<ℤ◌};
ghost use Rattle.corr_game.specs.declared.sides.Side.TheVariants.{One, Two};
ghost use Rattle.lp_form.specs.Certificates.{Certify, ShowEmpty, reach};
ghost use Rattle.lp_form.specs.Program.{LpView, IsProgram};
ghost use Rattle.lp_form.specs.Solutions.{HasSolution, IsSolution, paid};

/// No solution pays more along a certified direction than its multipliers say.
pub fn certified_directions_are_bounded()
    ensures { (lp : LpView) (a b den : ℤ) (first second : List ℤ) (total : ℤ) (x : ℕ → ℤ) → IsProgram lp → Certify lp a b den first second → IsSolution lp total x → (den *ℤ (a *ℤ paid lp One x +ℤ b *ℤ paid lp Two x)) ≤ℤ (total *ℤ reach a b first second) }
{}

/// A program with multipliers that show it has no solution.
pub fn shown_programs_are_empty()
    ensures { (lp : LpView) (multipliers : List ℤ) → IsProgram lp → ShowEmpty lp multipliers → HasSolution lp → ⊥ }
{}
