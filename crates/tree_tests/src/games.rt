// Small games as files, and what they are read as.
ghost use Rattle.std.specs.Prelude.{◌≤◌, ◌^◌, length};

use corr_game::Game;
use efg_lines::read_lines;
use efg_reader::build;
use game_scale::scale;
use std::alloc::Global;
use std::test::Fail;

const CHICKEN: &[u8] = b"EFG 2 R \"Chicken\" { \"Row\" \"Column\" }
p \"\" 1 1 { \"D\" \"C\" } 0
p \"\" 2 1 { \"D\" \"C\" } 0
t \"\" 1 { 0 0 }
t \"\" 2 { 7 2 }
p \"\" 2 1 0
t \"\" 3 { 2 7 }
t \"\" 4 { 6 6 }
";

const ONE_CARD: &[u8] = b"EFG 2 R \"One card\" { \"Player 1\" \"Player 2\" }
c \"\" 1 { \"Red\" 1/2 \"Black\" 1/2 } 0
p \"\" 1 1 { \"Raise\" \"Fold\" } 0
p \"\" 2 1 { \"Meet\" \"Pass\" } 0
t \"\" 1 { 2 -2 }
t \"\" 2 { 1 -1 }
t \"\" 2
p \"\" 1 2 { \"Raise\" \"Fold\" } 0
p \"\" 2 1 0
t \"\" 3 { -2 2 }
t \"\" 2
t \"\" 4 { -1 1 }
";

const FORGETFUL: &[u8] = b"EFG 2 R \"Forgetful\" { \"A\" \"B\" }
p \"\" 1 1 { \"l\" \"r\" } 0
p \"\" 2 1 { \"on\" } 0
p \"\" 1 2 { \"on\" } 0
t \"\" 0
p \"\" 2 1 0
p \"\" 1 2 0
t \"\" 0
";

const REPEATED: &[u8] = b"EFG 2 R \"Repeated\" { \"A\" \"B\" }
p \"\" 1 1 { \"l\" \"r\" } 0
p \"\" 1 1 0
t \"\" 0
t \"\" 0
t \"\" 0
";

const CHAIN: &[u8] = b"EFG 2 R \"Chain\" { \"A\" \"B\" }
p \"\" 1 1 { \"s\" \"g\" } 0
t \"\" 1 { 1 0 }
p \"\" 2 1 { \"s\" \"g\" } 0
t \"\" 2 { 0 2 }
p \"\" 1 2 { \"s\" \"g\" } 0
t \"\" 3 { 3 1 }
t \"\" 4 { 2 4 }
";

const LETTERS: &[u8] = b"EFG 2 R \"Letters\" { \"A\" \"B\" }
c \"\" 1 { \"aa\" 1/3 \"ab\" 1/3 \"bb\" 1/3 } 0
p \"\" 1 1 { \"on\" } 0
p \"\" 2 1 { \"on\" } 0
t \"\" 0
p \"\" 1 1 0
p \"\" 2 2 { \"on\" } 0
t \"\" 0
p \"\" 1 2 { \"on\" } 0
p \"\" 2 2 0
t \"\" 0
";

fn game_of(alloc: Global, bytes: &[u8]) -> Result<Game, Fail>
    requires { length bytes.now ≤ 2 ^ 30 }
{
    Ok(scale(alloc, build(alloc, read_lines(alloc, bytes)?)?)?)
}

/// Chicken, played without seeing.
pub fn chicken(alloc: Global) -> Result<Game, Fail> {
    game_of(alloc, CHICKEN)
}

/// One-card poker: player 1 sees the colour.
pub fn one_card(alloc: Global) -> Result<Game, Fail> {
    game_of(alloc, ONE_CARD)
}

/// Player 1's second set joins both own first moves.
pub fn forgetful(alloc: Global) -> Result<Game, Fail> {
    game_of(alloc, FORGETFUL)
}

/// The root's first child is again of the root's set.
pub fn repeated(alloc: Global) -> Result<Game, Fail> {
    game_of(alloc, REPEATED)
}

/// Three moves in turn, each of which may stop the game.
pub fn chain(alloc: Global) -> Result<Game, Fail> {
    game_of(alloc, CHAIN)
}

/// Chance draws aa, ab or bb, and each player sees a letter of it.
pub fn letters(alloc: Global) -> Result<Game, Fail> {
    game_of(alloc, LETTERS)
}
