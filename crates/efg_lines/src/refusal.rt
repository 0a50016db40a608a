ghost use Rattle.std.specs.Prelude.{◌≡◌};
ghost use Rattle.efg_lines.specs.declared.refusal.FileRefusal.TheVariants.{NoMemory};

use std::alloc::{AllocError, AllocFailed};
use thiserror::Error;

/// Why a file isn't a game of the format, or that memory ran out.
///
/// `at` is the number of a byte, `node` that of a node in file order, both from 0.
#[derive(Debug, PartialEq, Eq, Drop, Error)]
pub enum FileRefusal {
    #[error("Syntax")]
    Syntax { at: usize },
    #[error("Players")]
    Players { count: u32 },
    #[error("ExtraNode")]
    ExtraNode { node: u32 },
    #[error("TooManyNodes")]
    TooManyNodes { node: u32 },
    #[error("TooDeep")]
    TooDeep { node: u32 },
    #[error("NumberTooWide")]
    NumberTooWide { node: u32 },
    #[error("PlayerUnknown")]
    PlayerUnknown { node: u32 },
    #[error("NoActions")]
    NoActions { node: u32 },
    #[error("TooManyActions")]
    TooManyActions { node: u32 },
    #[error("ChanceNegative")]
    ChanceNegative { node: u32 },
    #[error("ChanceTooFine")]
    ChanceTooFine { node: u32 },
    #[error("ChanceSum")]
    ChanceSum { node: u32 },
    #[error("SetUnknown")]
    SetUnknown { node: u32 },
    #[error("SetDiffers")]
    SetDiffers { node: u32 },
    #[error("PayoffCount")]
    PayoffCount { node: u32 },
    #[error("OutcomeUnknown")]
    OutcomeUnknown { node: u32 },
    #[error("OutcomeDiffers")]
    OutcomeDiffers { node: u32 },
    #[error("MissingNode")]
    MissingNode { node: u32 },
    #[error("NoMemory")]
    NoMemory,
}

impl From<AllocError> for FileRefusal {
    ghost from_gives = { λ _ e. e ≡ NoMemory };

    fn from(_e: AllocError) -> FileRefusal {
        FileRefusal::NoMemory
    }
}

impl<T: Drop> From<AllocFailed<T>> for FileRefusal {
    ghost from_gives = { λ _ e. e ≡ NoMemory };

    fn from(_e: AllocFailed<T>) -> FileRefusal {
        FileRefusal::NoMemory
    }
}
