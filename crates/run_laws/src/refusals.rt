// Laws of refusals and of statuses, as functions that do nothing: a game that is accepted is refused at no step, bytes have one
// refusal, and the exit number tells what ended otherwise than well.
ghost use Rattle.std.specs.Prelude.{◌≡◌, ◌↔◌, ◌⊎◌, ℕ, List};
ghost use Rattle.connected_pairs.specs.Connected.{PairsView};
ghost use Rattle.corr_game.specs.Game.{GameView};
ghost use Rattle.corr_game.specs.declared.notions.Notion.{Notion};
ghost use Rattle.efg_lines.specs.File.{FileView};
ghost use Rattle.efg_lines.specs.FileTokens.{IsFileOf, StopsAt};
ghost use Rattle.efg_reader.specs.RawGame.{RawGameView};
ghost use Rattle.report_form.specs.declared.refusals.Refusal.{Refusal};
ghost use Rattle.corr_run.specs.declared.status.Status.{Status};
ghost use Rattle.corr_run.specs.declared.status.Status.TheVariants.{Solved, Written, Yes};
ghost use Rattle.corr_run.specs.ExitNumber.{exit_number};
ghost use Rattle.corr_run.specs.FirstRefusal.{IsFirstRefusal, IsGameFor, IsOfFile, IsOfLines, IsOfRecall, IsOfScales, IsOfSizes, IsOfTriangle};
ghost use Rattle.corr_run.specs.GameOfFile.{IsGameOfBytes, SayGame, SayRecalled, SayScaled};

/// A game that is accepted is refused neither for its bytes' syntax nor for their lines, for no path, scale or amount, for no set
/// that is forgotten, for no triangle and for no size.
pub fn no_refusal_of_a_game()
    ensures syntax { (bytes : List ℕ) (raw : RawGameView) (at : ℕ) → SayGame bytes raw → StopsAt bytes at → ⊥ }
    ensures lines { (bytes : List ℕ) (raw : RawGameView) (file : FileView) (refusal : Refusal) → SayGame bytes raw
        → IsFileOf bytes file → IsOfLines file refusal → ⊥ }
    ensures scales { (bytes : List ℕ) (g : GameView) (raw : RawGameView) (refusal : Refusal) → SayScaled bytes g
        → SayGame bytes raw → IsOfScales raw refusal → ⊥ }
    ensures recall { (bytes : List ℕ) (g : GameView) (p : PairsView) (refusal : Refusal) → SayRecalled bytes g p
        → IsOfRecall g refusal → ⊥ }
    ensures triangle { (bytes : List ℕ) (g : GameView) (p : PairsView) (refusal : Refusal) → IsGameOfBytes bytes g p
        → IsOfTriangle g p refusal → ⊥ }
    ensures sizes { (notions : List Notion) (bytes : List ℕ) (g : GameView) (p : PairsView) (refusal : Refusal)
        → IsGameFor notions bytes g p → IsOfSizes g p notions refusal → ⊥ }
{}

/// The lines of some bytes, the scales of their game, recall in a game, a triangle of its pairs and the sizes of its programs have
/// one refusal each.
pub fn one_refusal_a_step()
    ensures lines { (bytes : List ℕ) (file other : FileView) (a b : Refusal) → IsFileOf bytes file → IsOfLines file a
        → IsFileOf bytes other → IsOfLines other b → a ≡ b }
    ensures scales { (bytes : List ℕ) (raw other : RawGameView) (a b : Refusal) → SayGame bytes raw → IsOfScales raw a
        → SayGame bytes other → IsOfScales other b → a ≡ b }
    ensures recall { (g : GameView) (a b : Refusal) → IsOfRecall g a → IsOfRecall g b → a ≡ b }
    ensures triangle { (g : GameView) (p : PairsView) (a b : Refusal) → IsOfTriangle g p a → IsOfTriangle g p b → a ≡ b }
    ensures sizes { (notions : List Notion) (g : GameView) (p : PairsView) (a b : Refusal)
        → IsOfSizes g p notions a → IsOfSizes g p notions b → a ≡ b }
{}

/// Bytes say one game at most, have one with whole amounts at most, and this has one table of relevant pairs.
pub fn bytes_say_one_game()
    ensures said { (bytes : List ℕ) (a b : RawGameView) → SayGame bytes a → SayGame bytes b → a ≡ b }
    ensures scaled { (bytes : List ℕ) (a b : GameView) → SayScaled bytes a → SayScaled bytes b → a ≡ b }
    ensures recalled { (bytes : List ℕ) (g h : GameView) (p q : PairsView) → SayRecalled bytes g p → SayRecalled bytes h q
        → (g ≡ h) × (p ≡ q) }
{}

/// Bytes have one first refusal at most: whatever the notions, and with the sizes of the notions' programs.
pub fn bytes_are_refused_once()
    ensures file { (bytes : List ℕ) (a b : Refusal) → IsOfFile bytes a → IsOfFile bytes b → a ≡ b }
    ensures first { (notions : List Notion) (bytes : List ℕ) (a b : Refusal) → IsFirstRefusal notions bytes a
        → IsFirstRefusal notions bytes b → a ≡ b }
{}

/// Bytes whose game is accepted have no first refusal: whatever the notions, and where the notions' programs fit.
pub fn accepted_bytes_are_not_refused()
    ensures file { (bytes : List ℕ) (g : GameView) (p : PairsView) (refusal : Refusal) → IsGameOfBytes bytes g p
        → IsOfFile bytes refusal → ⊥ }
    ensures first { (notions : List Notion) (bytes : List ℕ) (g : GameView) (p : PairsView) (refusal : Refusal)
        → IsGameFor notions bytes g p → IsFirstRefusal notions bytes refusal → ⊥ }
{}

/// Different statuses have different exit numbers, but for those of commands that were carried out whole, which have 0.
pub fn exit_numbers_tell_statuses()
    ensures one { (a b : Status) → exit_number a ≡ exit_number b → (a ≡ b) ⊎ (exit_number a ≡ 0) }
    ensures zero { (status : Status) → (exit_number status ≡ 0) ↔ ((status ≡ Solved) ⊎ ((status ≡ Written) ⊎ (status ≡ Yes))) }
{}
