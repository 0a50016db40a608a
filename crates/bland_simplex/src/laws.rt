// Laws of tableaus under way, of ready ones and of those to which the method may lead, as functions that do nothing.
ghost use Rattle.std.specs.Prelude.{◌≡◌, ◌⊎◌, ◌+◌, List, length, neg_ℤ, ℕ};
ghost use Rattle.lp_form.specs.Program.{LpView};
ghost use Rattle.lp_form.specs.declared.places.Place.{Place};
ghost use Rattle.plane_hull.specs.declared.directions.Dir.{Dir};
ghost use Rattle.int_tableau.specs.Content.{Content, right_side};
ghost use Rattle.int_tableau.specs.Pivot.{EndsWide};
ghost use Rattle.int_tableau.specs.Reached.{IsReachedFrom};
ghost use Rattle.int_tableau.specs.Start.{start_entry};
ghost use Rattle.bland_simplex.specs.Reachable.{HeadsIn, Heading, IsWideBasis, ListsBasis, MayReach, NeverWide};
ghost use Rattle.bland_simplex.specs.Ready.{IsLowered, IsReady, IsUnderWay, artificial_sum};
ghost use Rattle.bland_simplex.specs.Steps.{IsFirstStep, IsTurning, StepsLead};

/// In a ready tableau Phase's right side is 0.
pub fn ready_tableaus_are_lowered()
    ensures { (lp : LpView) (t : Content) → IsReady lp t → IsLowered lp t }
{}

/// Phase's right side is minus the sum of the right sides of the rows with a basic artificial column.
pub fn phase_is_the_artificial_sum()
    ensures { (lp : LpView) (t : Content) → IsUnderWay lp t → right_side t (length lp.rows + 2) ≡ neg_ℤ (artificial_sum lp t) }
{}

/// The method leads to tableaus of the program's own start alone.
pub fn reachable_tableaus_keep_the_start()
    ensures { (lp : LpView) (heading : Heading) (t : Content) → MayReach lp heading t → IsReachedFrom (start_entry lp) t }
{}

/// Steps of the first phase, and turning steps for the direction, lead on to such tableaus.
pub fn steps_lead_on()
    ensures first { (lp : LpView) (heading : Heading) (dir : Dir) (t last : Content) → HeadsIn heading dir → MayReach lp heading t
        → StepsLead (IsFirstStep lp) t last → MayReach lp heading last }
    ensures turning { (lp : LpView) (heading : Heading) (dir : Dir) (t last : Content) → HeadsIn heading dir → MayReach lp heading t
        → StepsLead (IsTurning lp dir) t last → MayReach lp heading last }
{}

/// Where the method can take a step, and that leads to a tableau that is wide somewhere, its basis is a wide one.
pub fn steps_may_end_wide()
    ensures { (lp : LpView) (heading : Heading) (dir : Dir) (last new : Content) (row col : ℕ) (columns : List ℕ) (place : Place)
        → MayReach lp heading last → HeadsIn heading dir → IsFirstStep lp last row col ⊎ IsTurning lp dir last row col
        → EndsWide last new row col place → ListsBasis columns new → IsWideBasis lp columns place }
{}

/// Where no tableau to which the method may lead is wide, there is no wide basis.
pub fn never_wide_has_no_wide_basis()
    ensures { (lp : LpView) (columns : List ℕ) (place : Place) → NeverWide lp → IsWideBasis lp columns place → ⊥ }
{}

/// A tableau's basis is listed in one way.
pub fn a_basis_is_listed_in_one_way()
    ensures { (t : Content) (one other : List ℕ) → ListsBasis one t → ListsBasis other t → one ≡ other }
{}
