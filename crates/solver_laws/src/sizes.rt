// Laws of sizes: of a starting tableau, of reports' programs, and of leaves.
ghost use Rattle.std.specs.Prelude.{◌≡◌, ◌↔◌, ℕ, ◌+◌, ◌<◌, ◌++◌, List, length, Some, slice_get, ℤ, neg_ℤ};
ghost use Rattle.corr_game.specs.declared.payoffs.Pay.{Pay};
ghost use Rattle.corr_game.specs.declared.nodes.Node.TheVariants.{Leaf};
ghost use Rattle.corr_game.specs.declared.sides.Side.{Side};
ghost use Rattle.corr_game.specs.Game.{GameView, IsGame};
ghost use Rattle.corr_game.specs.Node.{amount_of};
ghost use Rattle.connected_pairs.specs.Connected.{IsPairs, IsPairsOf, PairsView};
ghost use Rattle.report_form.specs.declared.reports.NamedBlock.{NamedBlock};
ghost use Rattle.incentive_rows.specs.Coefficient.{paid_of};
ghost use Rattle.incentive_rows.specs.Leaf.{IsPaid};
ghost use Rattle.lp_form.specs.Program.{LpView, right_of};
ghost use Rattle.int_tableau.specs.Shape.{Content, IsColumn, IsProgramRow, right_side};
ghost use Rattle.int_tableau.specs.Start.{IsStart};
ghost use Rattle.cert_check.specs.Fits.{AllFit};

/// A starting tableau has the program's rows, the program's columns and one more a row, and the program's right sides.
pub fn the_start_has_the_size_of_its_program()
    ensures rows { (lp : LpView) (t : Content) → IsStart lp t → (row : ℕ) → IsProgramRow t row ↔ (row < length lp.rows) }
    ensures columns { (lp : LpView) (t : Content) → IsStart lp t → (col : ℕ)
        → IsColumn t col ↔ (col < lp.cols + length lp.rows) }
    ensures rights { (lp : LpView) (t : Content) → IsStart lp t → (row : ℕ) → row < length lp.rows
        → right_side t row ≡ right_of lp row }
{}

/// The programs of two lists of blocks fit exactly where those of the lists one behind the other do, in either order.
pub fn blocks_fit_one_by_one()
    ensures together { (g : GameView) (p : PairsView) (xs ys : List NamedBlock)
        → AllFit g p (xs ++ ys) ↔ (AllFit g p xs × AllFit g p ys) }
    ensures turned { (g : GameView) (p : PairsView) (xs ys : List NamedBlock) → AllFit g p (xs ++ ys) → AllFit g p (ys ++ xs) }
{}

/// Each leaf of a game, seen by its sequences, is in its ranges; and so it is with the opposite amount.
pub fn leaves_are_in_their_ranges()
    ensures leaf { (g : GameView) (p : PairsView) (side : Side) (n : ℕ) (pay : Pay) → IsGame g → IsPairs p → IsPairsOf g p
        → slice_get g.nodes n ≡ Some (Leaf pay) → IsPaid p.seqs side (paid_of p side n (amount_of side pay)) }
    ensures opposite { (p : PairsView) (side : Side) (n : ℕ) (amount : ℤ) → IsPaid p.seqs side (paid_of p side n amount)
        → IsPaid p.seqs side (paid_of p side n (neg_ℤ amount)) }
{}
