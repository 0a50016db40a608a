// Laws of the plain programs' definitions: moderate programs, what players get, and reduced plans set by set.
ghost use Rattle.std.specs.Prelude.{◌≡◌, ◌↔◌, ℕ, ◌^◌, ◌<◌, ◌≤◌, List, Option, Some, None, true, false, length, slice_get, ℤ, neg_ℤ};
ghost use Rattle.std.specs.Prelude.{unsigned_abs};
ghost use Rattle.corr_game.specs.declared.nodes.SetId.{SetId};
ghost use Rattle.corr_game.specs.declared.nodes.SetInfo.{SetInfo};
ghost use Rattle.corr_game.specs.declared.sides.Side.{Side};
ghost use Rattle.corr_game.specs.declared.sides.Side.TheVariants.{One, Two};
ghost use Rattle.corr_game.specs.Game.{GameView, IsGame, sets_of};
ghost use Rattle.corr_game.specs.Plan.{plan_of};
ghost use Rattle.tree_recall.specs.Tree.{set_of};
ghost use Rattle.equilibrium.specs.declared.triggers.Trigger.{Trigger};
ghost use Rattle.equilibrium.specs.Deviation.{deviated, deviated_pay};
ghost use Rattle.equilibrium.specs.Distribution.{Entry, pay};
ghost use Rattle.equilibrium.specs.Leaves.{AreOwn, leaves_pay};
ghost use Rattle.equilibrium.specs.Reach.{leads};
ghost use Rattle.equilibrium.specs.ReducedPlan.{IsReduced};
ghost use Rattle.lp_form.specs.Certificates.{left_over, times_column};
ghost use Rattle.lp_form.specs.Program.{LpView, blank};
ghost use Rattle.plane_hull.specs.declared.directions.Dir.{Dir};
ghost use Rattle.plane_hull.specs.Belt.{IsRight};
ghost use Rattle.bland_simplex.specs.Multipliers.{HasNarrowColumns};
ghost use Rattle.plain_programs.specs.Moderate.{AreModerate, IsModerate, left_along};
ghost use Rattle.plain_programs.specs.PaidWith.{paid_with};
ghost use Rattle.plain_programs.specs.ReducedAt.{IsReducedAt};

/// What moderate multipliers make of a column of a moderate program is up to 2^58.
pub fn moderate_products_are_small()
    ensures { (lp : LpView) (multipliers : List ℤ) (col : ℕ) → IsModerate lp → AreModerate multipliers → col < lp.cols
        → unsigned_abs (times_column lp multipliers col) ≤ 2 ^ 58 }
{}

/// Moderate multipliers make narrow numbers of a moderate program's columns.
pub fn moderate_multipliers_have_narrow_columns()
    ensures { (lp : LpView) (multipliers : List ℤ) → IsModerate lp → AreModerate multipliers → HasNarrowColumns lp multipliers }
{}

/// A program of zeros is moderate exactly where it has at most 256 rows.
pub fn zeros_are_moderate_up_to_256_rows()
    ensures { (rows cols : ℕ) → IsModerate (blank rows cols) ↔ (rows ≤ 256) }
{}

/// Along (1, 0) multipliers leave what they leave for the first player, and along the opposite direction the opposite.
pub fn what_is_left_turns_with_the_direction()
    ensures right { (lp : LpView) (dir : Dir) (den : ℤ) (first second : List ℤ) (col : ℕ) → IsRight dir
        → left_along lp dir den first second col ≡ left_over lp One den first col }
    ensures opposite { (lp : LpView) (dir back : Dir) (den : ℤ) (first second : List ℤ) (col : ℕ) → back.a ≡ neg_ℤ dir.a
        → back.b ≡ neg_ℤ dir.b → left_along lp back den first second col ≡ neg_ℤ (left_along lp dir den first second col) }
{}

/// A player who plays the entry's own plan gets what following gets, and one who leaves gets what the plan left for gets.
pub fn players_get_what_their_plans_get()
    ensures follows { (side : Side) (g : GameView) (entry : Entry)
        → paid_with side g (plan_of side entry.one entry.two) entry ≡ pay side g entry }
    ensures leaves { (side : Side) (g : GameView) (trigger : Trigger) (choice : List ℕ) (entry : Entry)
        → paid_with side g (deviated side g trigger choice (plan_of side entry.one entry.two)) entry
        ≡ deviated_pay side g trigger choice entry }
{}

/// A player gets the sum of the amounts of the leaves whose two own sequences the player's plan and the other one's play.
pub fn players_get_the_leaves_that_both_plans_play()
    ensures one { (g : GameView) (first second : ℕ → List (SetId × ℕ)) (plan : List (Option ℕ)) (entry : Entry) → IsGame g
        → AreOwn One g first → AreOwn Two g second → paid_with One g plan entry ≡ leaves_pay One g first second plan entry.two }
    ensures two { (g : GameView) (first second : ℕ → List (SetId × ℕ)) (plan : List (Option ℕ)) (entry : Entry) → IsGame g
        → AreOwn One g first → AreOwn Two g second → paid_with Two g plan entry ≡ leaves_pay Two g first second entry.one plan }
{}

/// Plans that name the same at each set of the player that has a node get the same.
pub fn plans_alike_get_alike()
    ensures { (side : Side) (g : GameView) (plan other : List (Option ℕ)) (entry : Entry) → IsGame g
        → ((n set : ℕ) → set_of g side n ≡ Some set → slice_get plan set ≡ slice_get other set)
        → paid_with side g plan entry ≡ paid_with side g other entry }
{}

/// A plan of one entry a set is reduced exactly where it is so at each set.
pub fn plans_are_reduced_set_by_set()
    ensures { (side : Side) (g : GameView) (plan : List (Option ℕ)) → IsReduced side g plan
        ↔ ((length plan ≡ length (sets_of side g)) × ((set : ℕ) → set < length (sets_of side g) → IsReducedAt side g plan set)) }
{}

/// Where a plan is reduced at a set, it names one of the set's actions if it leads there, and none if it doesn't.
pub fn plans_name_actions_where_they_lead()
    ensures led { (side : Side) (g : GameView) (plan : List (Option ℕ)) (set : ℕ) (info : SetInfo) → IsReducedAt side g plan set
        → slice_get (sets_of side g) set ≡ Some info → leads side g plan set ≡ true
        → (action : ℕ) × (slice_get plan set ≡ Some (Some action)) × (action < info.actions) }
    ensures apart { (side : Side) (g : GameView) (plan : List (Option ℕ)) (set : ℕ) → IsReducedAt side g plan set
        → set < length plan → leads side g plan set ≡ false → slice_get plan set ≡ Some None }
{}
