ghost use Rattle.std.specs.Prelude.{◌≡◌};
ghost use Rattle.game_scale.specs.declared.refusal.ScaleRefusal.TheVariants.{NoMemory};

use corr_game::Side;
use std::alloc::{AllocError, AllocFailed};
use thiserror::Error;

/// Why a game has no whole amounts within the limits, or that memory ran out.
#[derive(Debug, PartialEq, Eq, Drop, Error)]
pub enum ScaleRefusal {
    /// The first node in file order whose probability or sum of payoffs is beyond the limits.
    #[error("PathTooFine")]
    PathTooFine { node: u32 },
    /// The first player whose scale is over 2^24.
    #[error("ScaleTooLarge")]
    ScaleTooLarge { side: Side },
    /// The first leaf at which an amount is over 2^28.
    #[error("AmountTooLarge")]
    AmountTooLarge { node: u32 },
    #[error("NoMemory")]
    NoMemory,
}

impl From<AllocError> for ScaleRefusal {
    ghost from_gives = { λ _ e. e ≡ NoMemory };

    fn from(_e: AllocError) -> ScaleRefusal {
        ScaleRefusal::NoMemory
    }
}

impl<T: Drop> From<AllocFailed<T>> for ScaleRefusal {
    ghost from_gives = { λ _ e. e ≡ NoMemory };

    fn from(_e: AllocFailed<T>) -> ScaleRefusal {
        ScaleRefusal::NoMemory
    }
}
