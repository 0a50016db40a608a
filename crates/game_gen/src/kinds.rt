ghost use Rattle.std.specs.Prelude.{◌≡◌};
ghost use Rattle.game_gen.specs.GameText.{greatest, kind_name};

use std::alloc::AllocError;

/// What a generated game is like.
#[derive(Clone, Copy, Debug, PartialEq, Eq)]
pub enum Kind {
    /// A public chance move with equal chances, and a game of two by two choices with drawn payoffs behind each outcome.
    Public,
    /// The same with the payoffs of a prisoners' dilemma behind each outcome.
    Dilemma,
    /// Moves in turn, at each of which the game stops or goes on.
    Chain,
}

/// Why no game was made.
#[derive(Clone, Copy, Debug, PartialEq, Eq)]
pub enum GenRefusal {
    /// The size is above the greatest of its kind.
    TooLarge { greatest: u32 },
    NoMemory,
}

impl From<AllocError> for GenRefusal {
    ghost use Rattle.std.specs.Prelude.{◌≡◌};
    ghost use Rattle.game_gen.specs.declared.kinds.GenRefusal.TheVariants.{NoMemory};

    ghost from_gives = { λ _ refusal. refusal ≡ NoMemory };

    fn from(_: AllocError) -> Self {
        GenRefusal::NoMemory
    }
}

/// The greatest size of a kind.
#[tactic(auto, unfolding(crate::specs::GameText::greatest))]
pub(crate) fn greatest_of(kind: Kind) -> u32
    ensures { result ≡ greatest kind }
{
    match kind {
        Kind::Public | Kind::Dilemma => 64,
        Kind::Chain => 30,
    }
}

/// The name of a kind.
#[tactic(auto, unfolding(crate::specs::GameText::kind_name))]
pub fn kind_text(kind: Kind) -> &'static [u8]
    ensures { result.now ≡ kind_name kind }
{
    match kind {
        Kind::Public => b"public",
        Kind::Dilemma => b"dilemma",
        Kind::Chain => b"chain",
    }
}
