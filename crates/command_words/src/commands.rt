// What the words may ask for.
ghost use Rattle.std.specs.Prelude.{◌≡◌};

use corr_game::Notion;
use game_gen::Kind;

/// What is to be done, with the values of its options.
#[derive(Clone, Copy, Debug, PartialEq, Eq)]
pub enum Command {
    /// Solves the game that is read.
    Solve {
        notions: Notions,
    },
    /// Checks the report that is read against the game behind it.
    Check,
    /// Writes a generated game.
    Gen {
        kind: Kind,
        n: u32,
        seed: u64,
    },
    /// Solves a generated game, and sums up what came.
    Work {
        kind: Kind,
        n: u32,
        seed: u64,
        notions: Notions,
    },
}

/// Which notions are selected.
#[derive(Clone, Copy, Debug, PartialEq, Eq)]
pub struct Notions {
    pub efce: bool,
    pub efcce: bool,
    pub nfcce: bool,
}

impl Notions {
    ghost use Rattle.command_words.specs.Selection.{all_notions, only_notion};

    pub fn all() -> Notions
        ensures { result ≡ all_notions }
    {
        Notions {
            efce: true,
            efcce: true,
            nfcce: true,
        }
    }

    pub fn only(notion: Notion) -> Notions
        ensures { result ≡ only_notion notion }
    {
        Notions {
            efce: notion == Notion::Efce,
            efcce: notion == Notion::Efcce,
            nfcce: notion == Notion::Nfcce,
        }
    }
}
