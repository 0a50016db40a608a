// Laws of scaling, as functions that do nothing: the game of a file has one with whole amounts at most, and one refusal of
// scales, and not both.
ghost use Rattle.std.specs.Prelude.{◌≡◌, ℕ};
ghost use Rattle.corr_game.specs.Game.{GameView};
ghost use Rattle.efg_lines.specs.File.{FileView};
ghost use Rattle.efg_reader.specs.FileGame.{IsGameOf};
ghost use Rattle.efg_reader.specs.RawGame.{RawGameView};
ghost use Rattle.game_scale.specs.declared.refusal.ScaleRefusal.{ScaleRefusal};
ghost use Rattle.game_scale.specs.declared.refusal.ScaleRefusal.TheVariants.{NoMemory};
ghost use Rattle.game_scale.specs.Paths.{PathView, IsPath};
ghost use Rattle.game_scale.specs.Scaled.{IsRefused, IsScaled};

/// A node of a file's game has one path.
pub fn nodes_have_one_path()
    ensures { (file : FileView) (raw : RawGameView) (n : ℕ) (a b : PathView) → IsGameOf file raw → IsPath raw n a → IsPath raw n b → a ≡ b }
{}

/// A file's game has one game with whole amounts at most.
pub fn a_game_has_one_scaling()
    ensures { (file : FileView) (raw : RawGameView) (a b : GameView) → IsGameOf file raw → IsScaled raw a → IsScaled raw b → a ≡ b }
{}

/// Where a file's game has one with whole amounts, only memory may be wanting.
pub fn no_refusal_of_a_scaled_game()
    ensures { (file : FileView) (raw : RawGameView) (g : GameView) (refusal : ScaleRefusal) → IsGameOf file raw
        → IsScaled raw g → IsRefused raw refusal → refusal ≡ NoMemory }
{}

/// A file's game has one refusal of scales, want of memory aside.
pub fn one_refusal_of_scales()
    ensures { (file : FileView) (raw : RawGameView) (a b : ScaleRefusal) → IsGameOf file raw
        → (a ≡ NoMemory → ⊥) → (b ≡ NoMemory → ⊥) → IsRefused raw a → IsRefused raw b → a ≡ b }
{}
