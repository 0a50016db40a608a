// Laws of weighted pairs of plans, as functions that do nothing.
ghost use Rattle.std.specs.Prelude.{◌≡◌, ◌++◌, ◌+ℤ◌, ℕ, ℤ, List, length, All};
ghost use Rattle.exact_algebra.specs.Sums.{sum_over};
ghost use Rattle.corr_game.specs.declared.plans.Pair.{Pair};
ghost use Rattle.corr_game.specs.declared.sides.Side.TheVariants.{One};
ghost use Rattle.corr_game.specs.Game.{GameView};
ghost use Rattle.sequences.specs.Number.{SeqsView};
ghost use Rattle.connected_pairs.specs.Connected.{IsPairs, IsPairsOf, PairsView};
ghost use Rattle.connected_pairs.specs.CorrelationRows.{MeetsRows, value_of};
ghost use Rattle.plan_decompose.specs.Entry.{AreSums, IsEntry, SumsTo};

/// What the weights of pairs of reduced plans sum to at the relevant pairs meets the correlation rows, and its total is the sum of all
/// weights: the other way round, `decompose`.
pub fn sums_of_reduced_plans_meet_the_rows()
    ensures rows { (g : GameView) (p : PairsView) → IsPairsOf g p → IsPairs p → (list : List Pair) (values : List ℤ)
        → All (IsEntry g p.seqs) list → length values ≡ length p.pairs → AreSums p list values → MeetsRows p values }
    ensures total { (g : GameView) (p : PairsView) → IsPairsOf g p → IsPairs p → (list : List Pair) (values : List ℤ)
        → AreSums p list values → value_of p values One 0 0 ≡ sum_over (λ (pair : Pair). pair.weight) list }
{}

/// Two lists of weighted pairs of plans, one behind the other, have the sum of their sums.
pub fn two_lists_together_add_their_sums()
    ensures { (s : SeqsView) (pair : ℕ × ℕ) (xs ys : List Pair) (a b : ℤ) → SumsTo s pair xs a → SumsTo s pair ys b
        → SumsTo s pair (xs ++ ys) (a +ℤ b) }
{}
