//! Laws of the grammar of files, as functions that do nothing.

ghost use Rattle.std.specs.Prelude.{◌≡◌, ℕ, List, Some, true};
ghost use Rattle.efg_token.specs.Lexeme.{Lexeme};
ghost use Rattle.efg_lines.specs.declared.state.State.{State};
ghost use Rattle.efg_lines.specs.declared.state.State.TheVariants.{Format};
ghost use Rattle.efg_lines.specs.File.{FileView};
ghost use Rattle.efg_lines.specs.FileTokens.{HasFile, IsFileOf, StopsAt};
ghost use Rattle.efg_lines.specs.Grammar.{IsFile, BeginsFile};
ghost use Rattle.efg_lines.specs.Machine.{led, accepts};

/// The machine accepts the token lists of files, and no others.
pub fn the_machine_accepts_files()
    ensures files { (tokens : List Lexeme) → IsFile tokens → accepts tokens ≡ true }
    ensures no_others { (tokens : List Lexeme) → accepts tokens ≡ true → IsFile tokens }
{}

/// Some file begins with the tokens that lead the machine to a state, and with no others: each state can be completed.
pub fn every_state_can_be_completed()
    ensures completed { (tokens : List Lexeme) (state : State) → led (Some Format) tokens ≡ Some state → BeginsFile tokens }
    ensures no_others { (tokens : List Lexeme) → BeginsFile tokens → (state : State) × (led (Some Format) tokens ≡ Some state) }
{}

/// Bytes have one place at most at which no file goes on, and where they have one their tokens are no file's.
pub fn no_file_goes_on_in_one_place()
    ensures no_file { (bytes : List ℕ) (at : ℕ) → StopsAt bytes at → HasFile bytes → ⊥ }
    ensures one_place { (bytes : List ℕ) (a b : ℕ) → StopsAt bytes a → StopsAt bytes b → a ≡ b }
{}

/// Bytes are one file at most, as far as a file is kept.
pub fn bytes_are_one_file()
    ensures { (bytes : List ℕ) (a b : FileView) → IsFileOf bytes a → IsFileOf bytes b → a ≡ b }
{}
