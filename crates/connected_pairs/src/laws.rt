// Laws of relevant pairs, as functions that do nothing.
ghost use Rattle.std.specs.Prelude.{◌≡◌, ℕ, true};
ghost use Rattle.corr_game.specs.Game.{GameView, IsGame};
ghost use Rattle.connected_pairs.specs.Connected.{IsPairs, IsPairsOf, IsPrefix, PairsView, is_relevant};

/// A game has one table of connected sets and one list of relevant pairs.
pub fn a_game_has_one_table_of_pairs()
    ensures { (g : GameView) (p q : PairsView) → IsGame g → IsPairs p → IsPairs q
        → IsPairsOf g p → IsPairsOf g q → p ≡ q }
{}

/// Where a pair of sequences is relevant, so is each pair of their prefixes.
pub fn relevance_goes_back()
    ensures { (g : GameView) (p : PairsView) (one two one_part two_part : ℕ) → IsPairs p → IsPairsOf g p
        → is_relevant p.seqs p.table one two ≡ true → IsPrefix p.seqs.one one_part one
        → IsPrefix p.seqs.two two_part two → is_relevant p.seqs p.table one_part two_part ≡ true }
{}
