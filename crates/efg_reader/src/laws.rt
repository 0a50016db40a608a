// Laws of the game of a file, as functions that do nothing: it is a tree.
ghost use Rattle.std.specs.Prelude.{◌≡◌, ℕ, ◌<◌, Some, slice_get};
ghost use Rattle.corr_game.specs.Node.{kids_of};
ghost use Rattle.efg_lines.specs.File.{FileView};
ghost use Rattle.efg_reader.specs.declared.raw_game.RawNode.{RawNode};
ghost use Rattle.efg_reader.specs.FileGame.{IsGameOf};
ghost use Rattle.efg_reader.specs.RawGame.{RawGameView, bare_node};

/// In the game of a file a node is a kid in one place at most, and of a node before it; so the first node is no kid.
pub fn each_node_has_one_parent()
    ensures once { (file : FileView) (raw : RawGameView) (m n k l kid : ℕ) (a b : RawNode) → IsGameOf file raw
        → slice_get raw.nodes m ≡ Some a → slice_get raw.nodes n ≡ Some b
        → slice_get (kids_of (bare_node a.shape)) k ≡ Some kid → slice_get (kids_of (bare_node b.shape)) l ≡ Some kid → (m ≡ n) × (k ≡ l) }
    ensures behind { (file : FileView) (raw : RawGameView) (m k kid : ℕ) (a : RawNode) → IsGameOf file raw
        → slice_get raw.nodes m ≡ Some a → slice_get (kids_of (bare_node a.shape)) k ≡ Some kid → m < kid }
{}
