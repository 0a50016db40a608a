// Laws of equilibrium, as functions that do nothing.
ghost use Rattle.std.specs.Prelude.{◌≡◌, ◌↔◌, ℕ, ◌*◌, ◌<◌, ◌≤◌, ◌++◌, List, ◌∷◌, Option, Some, None, true, false, length};
ghost use Rattle.std.specs.Prelude.{slice_get, slice_index};
ghost use Rattle.corr_game.specs.declared.notions.Notion.{Notion};
ghost use Rattle.corr_game.specs.declared.notions.Notion.TheVariants.{Efce, Efcce, Nfcce};
ghost use Rattle.corr_game.specs.declared.nodes.SetId.{SetId};
ghost use Rattle.corr_game.specs.declared.nodes.SetInfo.{SetInfo};
ghost use Rattle.corr_game.specs.declared.sides.Side.{Side};
ghost use Rattle.corr_game.specs.declared.sides.Side.TheVariants.{One, Two};
ghost use Rattle.corr_game.specs.Game.{GameView, IsGame, sets_of};
ghost use Rattle.corr_game.specs.Walk.{walk};
ghost use Rattle.equilibrium.specs.Distribution.{Entry};
ghost use Rattle.equilibrium.specs.Equilibrium.{IsEquilibriumList, Slack, no_slack};
ghost use Rattle.equilibrium.specs.FullChoice.{graft, is_under, replaced};
ghost use Rattle.equilibrium.specs.Leaves.{AreOwn, leaves_pay, names_all};
ghost use Rattle.equilibrium.specs.OwnSequence.{PlaysMoves, PlaysOwn};
ghost use Rattle.equilibrium.specs.Below.{HasNodeAbove};
ghost use Rattle.equilibrium.specs.Reach.{is_below, leads};
ghost use Rattle.equilibrium.specs.ReachedPoint.{IsReached, Point, mixture};
ghost use Rattle.equilibrium.specs.ReducedPlan.{IsReduced};
ghost use Rattle.tree_recall.specs.OwnSequence.{HasRecall, IsOwnAt};
ghost use Rattle.tree_recall.specs.Tree.{kid_of, set_of};

/// A kid's own sequence is its parent's, with the choice that leads to it added where the player moves at the parent.
pub fn kids_add_their_parents_move()
    ensures own { (side : Side) (g : GameView) → IsGame g → (n action kid : ℕ) (set : SetId) (seq : List (SetId × ℕ))
        → set_of g side n ≡ Some set.0 → kid_of g n action ≡ Some kid
        → IsOwnAt g side kid seq ↔ ((before : List (SetId × ℕ)) × IsOwnAt g side n before × (seq ≡ (set, action) ∷ before)) }
    ensures other { (side : Side) (g : GameView) → IsGame g → (n action kid : ℕ) (seq : List (SetId × ℕ))
        → set_of g side n ≡ None → kid_of g n action ≡ Some kid → IsOwnAt g side kid seq ↔ IsOwnAt g side n seq }
{}

/// Each node has an own sequence of each player, and not two.
pub fn each_node_has_one_own_sequence()
    ensures some { (side : Side) (g : GameView) → IsGame g → (own : ℕ → List (SetId × ℕ)) × AreOwn side g own }
    ensures one { (side : Side) (g : GameView) → IsGame g → (n : ℕ) (a b : List (SetId × ℕ)) → IsOwnAt g side n a → IsOwnAt g side n b
        → a ≡ b }
{}

/// A plan leads to a set exactly where it plays the own sequence of some node of the set.
pub fn plans_lead_along_own_sequences()
    ensures { (side : Side) (g : GameView) → IsGame g → (plan : List (Option ℕ)) (set : ℕ)
        → (leads side g plan set ≡ true) ↔ PlaysOwn side g plan set }
{}

/// With perfect recall that is the own sequence of whichever node of the set.
pub fn plans_lead_by_recall()
    ensures { (side : Side) (g : GameView) → IsGame g → HasRecall g side → (plan : List (Option ℕ)) (n set : ℕ) (seq : List (SetId × ℕ))
        → set_of g side n ≡ Some set → IsOwnAt g side n seq → (leads side g plan set ≡ true) ↔ PlaysMoves plan seq }
{}

/// A reduced plan names one of a set's actions where it plays the own sequence of some node of the set, and none elsewhere.
pub fn reduced_plans_name_one_action_where_they_play()
    ensures named { (side : Side) (g : GameView) → IsGame g → (plan : List (Option ℕ)) → IsReduced side g plan → (set : ℕ) (info : SetInfo)
        → slice_get (sets_of side g) set ≡ Some info
        → PlaysOwn side g plan set ↔ ((action : ℕ) × (slice_get plan set ≡ Some (Some action)) × (action < info.actions)) }
    ensures none { (side : Side) (g : GameView) → IsGame g → (plan : List (Option ℕ)) → IsReduced side g plan → (set : ℕ)
        → set < length (sets_of side g) → (PlaysOwn side g plan set → ⊥) ↔ (slice_get plan set ≡ Some None) }
{}

/// What two plans pay is the sum of the amounts of the leaves whose two own sequences they play.
pub fn plans_pay_what_the_leaves_that_they_play_pay()
    ensures pays { (side : Side) (g : GameView) → IsGame g → (first second : ℕ → List (SetId × ℕ))
        → AreOwn One g first → AreOwn Two g second → (one two : List (Option ℕ))
        → walk side g one two 0 ≡ leaves_pay side g first second one two }
    ensures names { (plan : List (Option ℕ)) (seq : List (SetId × ℕ)) → (names_all plan seq ≡ true) ↔ PlaysMoves plan seq }
{}

/// A set is below another one exactly where some node of it is below some node of that.
pub fn sets_below_have_nodes_below()
    ensures { (side : Side) (g : GameView) → IsGame g → (above set : ℕ)
        → (is_below side g above set ≡ true) ↔ HasNodeAbove side g above set }
{}

/// A graft leaves every set as it was that isn't the set of the graft or below it.
pub fn grafts_leave_other_sets()
    ensures { (side : Side) (g : GameView) (above : ℕ) (choice : List ℕ) (plan : List (Option ℕ)) (set : ℕ)
        → is_under side g above set ≡ false → slice_get (graft side g above choice plan) set ≡ slice_get plan set }
{}

/// A graft has the full choice at its set and below.
pub fn grafts_choose_below()
    ensures { (side : Side) (g : GameView) (above : ℕ) (choice : List ℕ) (plan : List (Option ℕ)) (set : ℕ)
        → set < length plan → is_under side g above set ≡ true
        → slice_get (graft side g above choice plan) set ≡ Some (Some (slice_index choice set)) }
{}

/// A graft at a set that has all others of the plan below it is the full choice everywhere.
pub fn a_graft_above_all_sets_is_the_whole_replacement()
    ensures { (side : Side) (g : GameView) (above : ℕ) (choice : List ℕ) (plan : List (Option ℕ))
        → ((set : ℕ) → set < length plan → is_under side g above set ≡ true) → graft side g above choice plan ≡ replaced choice plan }
{}

/// An extensive-form correlated equilibrium is a coarse one.
pub fn told_sets_are_reached()
    ensures { (g : GameView) (list : List Entry) → IsEquilibriumList Efce g no_slack list
        → IsEquilibriumList Efcce g no_slack list }
{}

/// With perfect recall an extensive-form coarse correlated equilibrium is a normal-form coarse one.
pub fn leaving_at_first_sets_is_leaving_at_the_start()
    ensures { (g : GameView) (list : List Entry) → IsGame g → ((side : Side) → HasRecall g side)
        → IsEquilibriumList Efcce g no_slack list
        → IsEquilibriumList Nfcce g no_slack list }
{}

/// What is an equilibrium list for a slack is one for any greater slack.
pub fn greater_slacks_allow_more()
    ensures { (notion : Notion) (g : GameView) (list : List Entry) (a b : Slack) → IsGame g → 1 ≤ a.den
        → a.num * b.den ≤ b.num * a.den → IsEquilibriumList notion g a list → IsEquilibriumList notion g b list }
{}

/// Two equilibrium lists, one behind the other, are one.
pub fn lists_together()
    ensures { (notion : Notion) (g : GameView) (slack : Slack) (xs ys : List Entry) → IsEquilibriumList notion g slack xs
        → IsEquilibriumList notion g slack ys → IsEquilibriumList notion g slack (xs ++ ys) }
{}

/// A mixture of two reached points is reached.
pub fn mixtures_are_reached()
    ensures { (notion : Notion) (g : GameView) (slack : Slack) (a b : ℕ) (p q : Point) → 1 ≤ a → 1 ≤ b → IsReached notion g slack p
        → IsReached notion g slack q → IsReached notion g slack (mixture a p b q) }
{}
