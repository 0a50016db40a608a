// Laws of the programs of notions, as functions that do nothing.
ghost use Rattle.std.specs.Prelude.{◌≡◌, ◌<◌, ℕ, length};
ghost use Rattle.corr_game.specs.declared.notions.Notion.{Notion};
ghost use Rattle.corr_game.specs.declared.sides.Side.{Side};
ghost use Rattle.corr_game.specs.Game.{GameView};
ghost use Rattle.connected_pairs.specs.Connected.{PairsView};
ghost use Rattle.lp_form.specs.Program.{LpView, coefficient, payoff_of, right_of};
ghost use Rattle.plan_polytope.specs.NotionProgram.{IsProgramOf};

/// A notion has one program, but for how its rows are stored.
pub fn notions_have_one_program()
    ensures columns { (g : GameView) (p : PairsView) (notion : Notion) (a b : LpView) → IsProgramOf g p notion a → IsProgramOf g p notion b
        → a.cols ≡ b.cols }
    ensures rows { (g : GameView) (p : PairsView) (notion : Notion) (a b : LpView) → IsProgramOf g p notion a → IsProgramOf g p notion b
        → length a.rows ≡ length b.rows }
    ensures coefficients { (g : GameView) (p : PairsView) (notion : Notion) (a b : LpView) → IsProgramOf g p notion a
        → IsProgramOf g p notion b → (row col : ℕ) → row < length a.rows → coefficient a row col ≡ coefficient b row col }
    ensures right_sides { (g : GameView) (p : PairsView) (notion : Notion) (a b : LpView) → IsProgramOf g p notion a
        → IsProgramOf g p notion b → (row : ℕ) → right_of a row ≡ right_of b row }
    ensures payoffs { (g : GameView) (p : PairsView) (notion : Notion) (a b : LpView) → IsProgramOf g p notion a
        → IsProgramOf g p notion b → (side : Side) (col : ℕ) → payoff_of side a col ≡ payoff_of side b col }
{}
