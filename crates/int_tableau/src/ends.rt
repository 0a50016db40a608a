use lp_form::Place;
use std::alloc::{AllocError, AllocFailed};

/// Why a pivot, or a run of pivots, stopped.
#[derive(Clone, Copy, Debug, PartialEq, Eq)]
pub enum PivotEnd {
    /// The pivoted matrix has an entry of magnitude 2^62 or more here.
    Wide(Place),
    NoMemory,
}

impl From<AllocError> for PivotEnd {
    ghost use Rattle.std.specs.Prelude.{◌≡◌};
    ghost use Rattle.int_tableau.specs.declared.ends.PivotEnd.TheVariants.{NoMemory};

    ghost from_gives = { λ _ end. end ≡ NoMemory };

    fn from(_: AllocError) -> Self {
        PivotEnd::NoMemory
    }
}

impl<T: Drop> From<AllocFailed<T>> for PivotEnd {
    ghost use Rattle.std.specs.Prelude.{◌≡◌};
    ghost use Rattle.int_tableau.specs.declared.ends.PivotEnd.TheVariants.{NoMemory};

    ghost from_gives = { λ _ end. end ≡ NoMemory };

    fn from(_: AllocFailed<T>) -> Self {
        PivotEnd::NoMemory
    }
}
