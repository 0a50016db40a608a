// Laws of the numbers of sequences, as functions that do nothing.
ghost use Rattle.std.specs.Prelude.{◌≡◌};
ghost use Rattle.corr_game.specs.declared.sides.Side.{Side};
ghost use Rattle.corr_game.specs.Game.{GameView, IsGame};
ghost use Rattle.sequences.specs.Number.{IsSeqsOf, IsSide, SeqsView, side_of};

/// A game has one numbering of its sequences.
pub fn a_game_has_one_numbering()
    ensures { (g : GameView) (a b : SeqsView) → IsGame g
        → ((side : Side) → IsSide (side_of side a)) → ((side : Side) → IsSide (side_of side b))
        → IsSeqsOf g a → IsSeqsOf g b → a ≡ b }
{}
