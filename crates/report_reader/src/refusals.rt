use std::alloc::{AllocError, AllocFailed};

/// Why no report was read.
#[derive(Clone, Copy, Debug, PartialEq, Eq)]
pub enum ReportRefusal {
    /// No report's text is a front of the bytes. The piece that starts here is the first with which none goes on; where
    /// there is no such piece, this is the number of bytes.
    Syntax { at: usize },
    NoMemory,
}

/// Why the reader stopped; for the syntax its place is where the pieces stand.
#[derive(Clone, Copy, Debug, PartialEq, Eq)]
pub(crate) enum Stop {
    Syntax,
    NoMemory,
}

impl From<AllocError> for Stop {
    ghost use Rattle.std.specs.Prelude.{◌≡◌};
    ghost use Rattle.report_reader.specs.declared.refusals.Stop.TheVariants.{NoMemory};

    ghost from_gives = { λ _ stop. stop ≡ NoMemory };

    fn from(_: AllocError) -> Self {
        Stop::NoMemory
    }
}

impl<T: Drop> From<AllocFailed<T>> for Stop {
    ghost use Rattle.std.specs.Prelude.{◌≡◌};
    ghost use Rattle.report_reader.specs.declared.refusals.Stop.TheVariants.{NoMemory};

    ghost from_gives = { λ _ stop. stop ≡ NoMemory };

    fn from(_: AllocFailed<T>) -> Self {
        Stop::NoMemory
    }
}
