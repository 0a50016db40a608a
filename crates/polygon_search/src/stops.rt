// Why an attempt ends without a proposal, and reading and writing that may end it.
use std::alloc::{AllocError, AllocFailed};

/// Why an attempt ends: it found nothing, or memory was wanting.
#[derive(Clone, Copy, PartialEq, Eq)]
pub enum Stop {
    FoundNothing,
    NoMemory,
}

impl From<AllocError> for Stop {
    ghost use Rattle.std.specs.Prelude.{◌≡◌};
    ghost use Rattle.polygon_search.specs.declared.stops.Stop.TheVariants.{NoMemory};

    ghost from_gives = { λ _ end. end ≡ NoMemory };

    fn from(_: AllocError) -> Self {
        Stop::NoMemory
    }
}

impl<T: Drop> From<AllocFailed<T>> for Stop {
    ghost use Rattle.std.specs.Prelude.{◌≡◌};
    ghost use Rattle.polygon_search.specs.declared.stops.Stop.TheVariants.{NoMemory};

    ghost from_gives = { λ _ end. end ≡ NoMemory };

    fn from(_: AllocFailed<T>) -> Self {
        Stop::NoMemory
    }
}

/// The item with this number. Where there is none, the attempt ends.
pub fn item<T: Copy>(list: &[T], number: u32) -> Result<T, Stop> {
    match list.get(number as usize) {
        Some(item) => Ok(*item),
        None => Err(Stop::FoundNothing),
    }
}

/// Puts an item in the place of the one with this number. Where there is none, the attempt ends.
pub fn put<T: Copy>(list: &mut [T], number: u32, item: T) -> Result<(), Stop> {
    match list.get_mut(number as usize) {
        Some(place) => {
            *place = item;
            Ok(())
        }
        None => Err(Stop::FoundNothing),
    }
}

/// What there is. Where there is nothing, the attempt ends.
pub fn known<T>(item: Option<T>) -> Result<T, Stop> {
    match item {
        Some(item) => Ok(item),
        None => Err(Stop::FoundNothing),
    }
}
