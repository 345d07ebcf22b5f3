use es_text::NoMemory;
use std::alloc::{AllocError, AllocFailed};

/// Why a text isn't read as a selector.
#[derive(Clone, Copy, Debug, PartialEq, Eq)]
pub enum SelectorFault {
    /// The whole text has no reading.
    Unread,
    /// Out of memory.
    NoMemory,
}

impl From<NoMemory> for SelectorFault {
    ghost use Rattle.std.specs.Prelude.{◌≡◌};
    ghost use Rattle.es_selectors.specs.declared.fault.SelectorFault.TheVariants as faults;

    ghost from_gives = { λ error fault. fault ≡ faults.NoMemory };

    fn from(_error: NoMemory) -> SelectorFault {
        SelectorFault::NoMemory
    }
}

impl From<AllocError> for SelectorFault {
    ghost use Rattle.std.specs.Prelude.{◌≡◌};
    ghost use Rattle.es_selectors.specs.declared.fault.SelectorFault.TheVariants as faults;

    ghost from_gives = { λ error fault. fault ≡ faults.NoMemory };

    fn from(_error: AllocError) -> SelectorFault {
        SelectorFault::NoMemory
    }
}

impl<T: Drop> From<AllocFailed<T>> for SelectorFault {
    ghost use Rattle.std.specs.Prelude.{◌≡◌};
    ghost use Rattle.es_selectors.specs.declared.fault.SelectorFault.TheVariants as faults;

    ghost from_gives = { λ error fault. fault ≡ faults.NoMemory };

    fn from(_error: AllocFailed<T>) -> SelectorFault {
        SelectorFault::NoMemory
    }
}
