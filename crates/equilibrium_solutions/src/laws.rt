// Laws of equilibrium lists and solutions, as functions that do nothing.
ghost use Rattle.std.specs.Prelude.{◌≡◌, ◌↔◌, ℕ, ◌++◌, ℤ, pos, ◌+ℤ◌, ◌<ℤ◌, List, All};
ghost use Rattle.corr_game.specs.declared.notions.Notion.{Notion};
ghost use Rattle.corr_game.specs.declared.sides.Side.{Side};
ghost use Rattle.corr_game.specs.Game.{GameView, IsGame};
ghost use Rattle.tree_recall.specs.OwnSequence.{HasRecall};
ghost use Rattle.sequences.specs.Number.{SeqsView};
ghost use Rattle.connected_pairs.specs.Connected.{IsPairs, IsPairsOf, PairsView};
ghost use Rattle.lp_form.specs.Program.{LpView};
ghost use Rattle.lp_form.specs.Solutions.{IsSolution, paid};
ghost use Rattle.equilibrium.specs.Deviation.{following};
ghost use Rattle.equilibrium.specs.Distribution.{Entry, IsEntry, total};
ghost use Rattle.equilibrium.specs.Equilibrium.{IsEquilibriumList, no_slack};
ghost use Rattle.plan_polytope.specs.NotionProgram.{IsProgramOf};
ghost use Rattle.equilibrium_solutions.specs.ColumnSums.{AreColumnSums, Extends, SumsTo};

/// A list of weighted pairs of reduced plans is an equilibrium list of a notion exactly where its column sums extend to a solution of
/// the notion's program over the list's total.
pub fn equilibrium_lists_are_solutions()
    ensures { (notion : Notion) (g : GameView) (p : PairsView) (lp : LpView) (list : List Entry) (x : ℕ → ℤ) → IsGame g → IsPairs p
        → IsPairsOf g p → IsProgramOf g p notion lp → All (IsEntry g) list → pos 0 <ℤ total list → AreColumnSums p list x
        → IsEquilibriumList notion g no_slack list ↔ ((y : ℕ → ℤ) × Extends p x y × IsSolution lp (total list) y) }
{}

/// A program pays for a list's column sums, however they go on behind the pairs, what following the list pays.
pub fn programs_pay_what_following_pays()
    ensures { (notion : Notion) (g : GameView) (p : PairsView) (lp : LpView) (list : List Entry) (x : ℕ → ℤ) → IsGame g → IsPairs p
        → IsPairsOf g p → IsProgramOf g p notion lp → All (IsEntry g) list → AreColumnSums p list x
        → (side : Side) → paid lp side x ≡ following side g list }
{}

/// A list has one sum at a pair of sequences; two lists, one behind the other, have the sum of their sums.
pub fn column_sums_are_one_and_add_up()
    ensures one { (s : SeqsView) (pair : ℕ × ℕ) (list : List Entry) (a b : ℤ) → SumsTo s pair list a → SumsTo s pair list b → a ≡ b }
    ensures together { (s : SeqsView) (pair : ℕ × ℕ) (xs ys : List Entry) (a b : ℤ) → SumsTo s pair xs a → SumsTo s pair ys b
        → SumsTo s pair (xs ++ ys) (a +ℤ b) }
{}

/// Where a game's sequences have numbers, both players have perfect recall.
pub fn numbered_games_have_recall()
    ensures { (g : GameView) (p : PairsView) → IsGame g → IsPairs p → IsPairsOf g p → (side : Side) → HasRecall g side }
{}
