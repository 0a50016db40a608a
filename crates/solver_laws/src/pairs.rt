// Laws of weighted pairs of plans: of those that are drawn, and of corners that they spread.
ghost use Rattle.std.specs.Prelude.{◌≡◌, ℕ, ◌++◌, ◌≤◌, All, List, Some, length, slice_get, ℤ};
ghost use Rattle.exact_algebra.specs.Sums.{sum_over};
ghost use Rattle.corr_game.specs.declared.plans.Pair.{Pair};
ghost use Rattle.corr_game.specs.Game.{GameView};
ghost use Rattle.sequences.specs.Number.{SeqsView};
ghost use Rattle.connected_pairs.specs.Connected.{IsPairs, IsPairsOf, PairsView};
ghost use Rattle.plan_decompose.specs.Entry.{AreSums, IsEntry};
ghost use Rattle.equilibrium.specs.Distribution.{IsEntry as IsWeighted, entry_of};
ghost use Rattle.deviation_gains.specs.Planned.{AreDrawn, IsDrawn, IsPlanned};
ghost use Rattle.notion_solve.specs.Spread.{AreSpread, IsSpread};
ghost use Rattle.report_form.specs.declared.reports.Block.TheVariants.{Found};
ghost use Rattle.report_form.specs.declared.reports.Corner.{Corner};
ghost use Rattle.plane_hull.specs.declared.sides.SideRow.{SideRow};

/// Weighted pairs of reduced plans are planned; a decomposition's are drawn, and up to 65535 of them are a mediator's list.
pub fn reduced_pairs_are_drawn()
    ensures planned { (g : GameView) (pair : Pair) → IsWeighted g (entry_of pair) → IsPlanned g pair }
    ensures one { (g : GameView) (s : SeqsView) (pair : Pair) → IsEntry g s pair → IsDrawn g pair }
    ensures drawn { (g : GameView) (s : SeqsView) (list : List Pair) → All (IsEntry g s) list → length list ≤ 65535 → AreDrawn g list }
{}

/// A front of a mediator's list is one, and so is what stands behind it.
pub fn parts_of_drawn_lists_are_drawn()
    ensures front { (g : GameView) (xs ys : List Pair) → AreDrawn g (xs ++ ys) → AreDrawn g xs }
    ensures behind { (g : GameView) (xs ys : List Pair) → AreDrawn g (xs ++ ys) → AreDrawn g ys }
{}

/// A spread corner's total is the sum of its weights, and so is that of each corner of a spread block.
pub fn spread_corners_have_the_total_of_their_weights()
    ensures corner { (g : GameView) (p : PairsView) (corner : Corner) → IsPairs p → IsPairsOf g p → IsSpread p corner
        → corner.total ≡ sum_over (λ (pair : Pair). pair.weight) corner.pairs }
    ensures block { (g : GameView) (p : PairsView) (corners : List Corner) (sides : List SideRow) (k : ℕ) (corner : Corner) → IsPairs p
        → IsPairsOf g p → AreSpread p (Found corners sides) → slice_get corners k ≡ Some corner
        → corner.total ≡ sum_over (λ (pair : Pair). pair.weight) corner.pairs }
{}

/// Reduced plans whose weights sum to values at the relevant pairs, and in all to the corner's total, spread the corner.
pub fn reduced_plans_spread_their_corner()
    ensures { (g : GameView) (p : PairsView) (corner : Corner) (values : List ℤ) → IsPairs p → IsPairsOf g p
        → All (IsEntry g p.seqs) corner.pairs → length values ≡ length p.pairs → AreSums p corner.pairs values
        → corner.total ≡ sum_over (λ (pair : Pair). pair.weight) corner.pairs → IsSpread p corner }
{}
