// Laws of a game's tree: of nodes met from others, of relevant sequences, and of nodes with one own sequence.
ghost use Rattle.std.specs.Prelude.{◌≡◌, ◌⊎◌, ◌↔◌, ℕ, List, ◌∷◌, Some};
ghost use Rattle.corr_game.specs.declared.nodes.SetId.{SetId};
ghost use Rattle.corr_game.specs.declared.sides.Side.{Side};
ghost use Rattle.corr_game.specs.declared.sides.Side.TheVariants.{One, Two};
ghost use Rattle.corr_game.specs.Game.{GameView, IsGame};
ghost use Rattle.tree_recall.specs.OwnSequence.{HasRecall, IsOwnAt};
ghost use Rattle.tree_recall.specs.Tree.{IsAbove, set_of};
ghost use Rattle.connected_pairs.specs.Table.{AreConnected};
ghost use Rattle.plain_trees.specs.Meeting.{IsMetFrom};
ghost use Rattle.plain_trees.specs.Relevant.{AreRelevant};
ghost use Rattle.plain_trees.specs.Siblings.{HasSequenceOf, HaveOwnAlike};

/// From above a node one meets each set that is met from the node, unless one stands in it.
pub fn sets_are_met_from_above()
    ensures { (g : GameView) (m n two : ℕ) → IsGame g → IsAbove g m n → IsMetFrom g n two
        → IsMetFrom g m two ⊎ (set_of g Two m ≡ Some two) }
{}

/// Two sets are connected exactly where the second one is met from some node of the first.
pub fn connected_sets_are_met()
    ensures { (g : GameView) (one two : ℕ) → AreConnected g one two ↔ ((m : ℕ) × (set_of g One m ≡ Some one) × IsMetFrom g m two) }
{}

/// With perfect recall a set is met from none of its own nodes.
pub fn recalled_sets_are_not_met_from_themselves()
    ensures { (g : GameView) (m two : ℕ) → IsGame g → HasRecall g Two → set_of g Two m ≡ Some two → IsMetFrom g m two → ⊥ }
{}

/// The two own sequences at a node are relevant.
pub fn sequences_at_a_node_are_relevant()
    ensures { (g : GameView) (n : ℕ) (one two : List (SetId × ℕ)) → IsGame g → IsOwnAt g One n one → IsOwnAt g Two n two
        → AreRelevant g one two }
{}

/// With perfect recall sequences that are relevant stay so where the latest move of one of them is left out.
pub fn relevant_sequences_go_back()
    ensures one { (g : GameView) (n : ℕ) (move : SetId × ℕ) (before two : List (SetId × ℕ)) → IsGame g → HasRecall g One
        → IsOwnAt g One n (move ∷ before) → AreRelevant g (move ∷ before) two → AreRelevant g before two }
    ensures two { (g : GameView) (n : ℕ) (move : SetId × ℕ) (one before : List (SetId × ℕ)) → IsGame g → HasRecall g Two
        → IsOwnAt g Two n (move ∷ before) → AreRelevant g one (move ∷ before) → AreRelevant g one before }
{}

/// Nodes that have one own sequence with a node have one with each other.
pub fn nodes_alike_to_one_are_alike()
    ensures { (g : GameView) (side : Side) (m n other : ℕ) → IsGame g → HaveOwnAlike g side m n → HaveOwnAlike g side n other
        → HaveOwnAlike g side m other }
{}

/// A player has perfect recall exactly where each two nodes of a set have one own sequence.
pub fn recall_is_one_sequence_a_set()
    ensures { (g : GameView) (side : Side) → IsGame g
        → HasRecall g side ↔ ((m n set : ℕ) → set_of g side m ≡ Some set → set_of g side n ≡ Some set → HaveOwnAlike g side m n) }
{}

/// A node of a set has the set's sequence; with perfect recall a node that has it has one own sequence with each node of the set.
pub fn nodes_have_their_sets_sequence()
    ensures own { (g : GameView) (side : Side) (m set : ℕ) → IsGame g → set_of g side m ≡ Some set → HasSequenceOf g side m set }
    ensures each { (g : GameView) (side : Side) (m set n : ℕ) → IsGame g → HasRecall g side → HasSequenceOf g side m set
        → set_of g side n ≡ Some set → HaveOwnAlike g side m n }
{}
