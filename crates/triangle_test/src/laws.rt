// Laws of triangles and of public chance, as functions that do nothing.
ghost use Rattle.std.specs.Prelude.{◌≡◌, ◌↔◌, ℕ, Some};
ghost use Rattle.corr_game.specs.declared.sides.Side.{Side};
ghost use Rattle.corr_game.specs.Game.{GameView, IsGame};
ghost use Rattle.tree_recall.specs.OwnSequence.{HasRecall};
ghost use Rattle.tree_recall.specs.Tree.{IsAbove, kid_of, set_of};
ghost use Rattle.connected_pairs.specs.Connected.{IsPairs, IsPairsOf, PairsView};
ghost use Rattle.triangle_test.specs.declared.triangles.Quad.{Quad};
ghost use Rattle.triangle_test.specs.PublicChance.{IsAtOrBelow, IsChance, IsPublicChance};
ghost use Rattle.triangle_test.specs.TreeTriangle.{HasNoTreeTriangle, IsLeastTreeTriangle, IsTreeTriangle};
ghost use Rattle.triangle_test.specs.Triangle.{HasNoTriangle, IsLeastTriangle, IsTriangle};

/// With perfect recall the triangles are those of the tree.
pub fn triangles_are_those_of_the_tree()
    ensures { (g : GameView) (p : PairsView) (quad : Quad) → IsGame g → ((side : Side) → HasRecall g side)
        → IsPairs p → IsPairsOf g p → IsTriangle p quad ↔ IsTreeTriangle g quad }
{}

/// With perfect recall the least triangle is that of the tree.
pub fn the_least_triangle_is_that_of_the_tree()
    ensures { (g : GameView) (p : PairsView) (quad : Quad) → IsGame g → ((side : Side) → HasRecall g side)
        → IsPairs p → IsPairsOf g p → IsLeastTriangle p quad ↔ IsLeastTreeTriangle g quad }
{}

/// A game in which nature never moves has public chance.
pub fn without_chance_it_is_public()
    ensures { (g : GameView) → ((n : ℕ) → IsChance g n → ⊥) → IsPublicChance g }
{}

/// A game in which each set has one node has public chance.
pub fn sets_of_one_node_keep_chance_public()
    ensures { (g : GameView) → IsGame g
        → ((side : Side) (m n set : ℕ) → set_of g side m ≡ Some set → set_of g side n ≡ Some set → m ≡ n)
        → IsPublicChance g }
{}

/// Chance is public exactly where, of a set's nodes below a chance node, all are at or below the kid that one is.
pub fn public_chance_keeps_sets_below_one_kid()
    ensures { (g : GameView) → IsGame g → IsPublicChance g ↔
        ((side : Side) (chance action kid m n set : ℕ) → IsChance g chance → kid_of g chance action ≡ Some kid
        → IsAtOrBelow g kid m → IsAbove g chance n → set_of g side m ≡ Some set → set_of g side n ≡ Some set
        → IsAtOrBelow g kid n) }
{}

/// With perfect recall a game with public chance has no triangle.
pub fn public_chance_leaves_no_triangle()
    ensures tree { (g : GameView) → IsGame g → ((side : Side) → HasRecall g side) → IsPublicChance g
        → HasNoTreeTriangle g }
    ensures pairs { (g : GameView) (p : PairsView) → IsGame g → ((side : Side) → HasRecall g side) → IsPairs p
        → IsPairsOf g p → IsPublicChance g → HasNoTriangle p }
{}
