ghost use Rattle.std.specs.Prelude.{◌≡◌};
ghost use Rattle.cert_check.specs.Ends.{placed};

use report_form::{Cause, Item};
use std::alloc::{AllocError, AllocFailed};

/// The first rule that a block breaks, and where.
#[derive(Clone, Copy)]
pub struct Fault {
    pub item: Item,
    pub cause: Cause,
}

/// Why the rules of a corner, a side or multipliers weren't all found to hold.
#[derive(Clone, Copy)]
pub enum RuleEnd {
    Broken(Cause),
    NoMemory,
}

/// Why a block wasn't found right.
#[derive(Clone, Copy)]
pub enum BlockEnd {
    Fault(Fault),
    NoMemory,
}

impl From<AllocError> for RuleEnd {
    ghost use Rattle.std.specs.Prelude.{◌≡◌};
    ghost use Rattle.cert_check.specs.declared.faults.RuleEnd.TheVariants.{NoMemory};

    ghost from_gives = { λ _ end. end ≡ NoMemory };

    fn from(_: AllocError) -> Self {
        RuleEnd::NoMemory
    }
}

impl<T: Drop> From<AllocFailed<T>> for RuleEnd {
    ghost use Rattle.std.specs.Prelude.{◌≡◌};
    ghost use Rattle.cert_check.specs.declared.faults.RuleEnd.TheVariants.{NoMemory};

    ghost from_gives = { λ _ end. end ≡ NoMemory };

    fn from(_: AllocFailed<T>) -> Self {
        RuleEnd::NoMemory
    }
}

impl From<AllocError> for BlockEnd {
    ghost use Rattle.std.specs.Prelude.{◌≡◌};
    ghost use Rattle.cert_check.specs.declared.faults.BlockEnd.TheVariants.{NoMemory};

    ghost from_gives = { λ _ end. end ≡ NoMemory };

    fn from(_: AllocError) -> Self {
        BlockEnd::NoMemory
    }
}

impl<T: Drop> From<AllocFailed<T>> for BlockEnd {
    ghost use Rattle.std.specs.Prelude.{◌≡◌};
    ghost use Rattle.cert_check.specs.declared.faults.BlockEnd.TheVariants.{NoMemory};

    ghost from_gives = { λ _ end. end ≡ NoMemory };

    fn from(_: AllocFailed<T>) -> Self {
        BlockEnd::NoMemory
    }
}

/// A broken rule as the fault of this item.
pub fn at_item(end: RuleEnd, item: Item) -> BlockEnd
    ensures { result ≡ placed item end }
{
    match end {
        RuleEnd::Broken(cause) => BlockEnd::Fault(Fault { item, cause }),
        RuleEnd::NoMemory => BlockEnd::NoMemory,
    }
}
