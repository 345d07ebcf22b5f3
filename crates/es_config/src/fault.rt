use es_text::{NoMemory, Txt};
use std::alloc::{AllocError, AllocFailed};

/// What is wrong with a configuration.
#[derive(Clone, Copy, Debug, PartialEq, Eq)]
pub enum FaultKind {
    /// It isn't JSON.
    NotJson,
    /// A value isn't of the shape that stands there.
    WrongShape,
    /// No such key stands there.
    UnknownKey,
    /// No rule has this id.
    UnknownRule,
    /// A rule's value doesn't begin with a severity.
    BadSeverity,
    /// The rule doesn't take an option.
    BadOption,
    /// A text isn't a glob.
    BadGlob,
    /// A text isn't a selector.
    BadSelector,
}

/// Why a configuration isn't read.
#[derive(Drop, Debug)]
pub enum ConfigFault {
    /// Something is wrong with it; of several things this is the first.
    Bad {
        /// What.
        kind: FaultKind,
        /// Where, as a JSON pointer (RFC 6901).
        pointer: Txt,
    },
    /// Out of memory.
    NoMemory,
}

impl From<NoMemory> for ConfigFault {
    ghost use Rattle.std.specs.Prelude.{◌≡◌};
    ghost use Rattle.es_config.specs.declared.fault.ConfigFault.TheVariants as fault;

    ghost from_gives = { λ _ made. made ≡ fault.NoMemory };

    fn from(_error: NoMemory) -> ConfigFault {
        ConfigFault::NoMemory
    }
}

impl From<AllocError> for ConfigFault {
    ghost use Rattle.std.specs.Prelude.{◌≡◌};
    ghost use Rattle.es_config.specs.declared.fault.ConfigFault.TheVariants as fault;

    ghost from_gives = { λ _ made. made ≡ fault.NoMemory };

    fn from(_error: AllocError) -> ConfigFault {
        ConfigFault::NoMemory
    }
}

impl<T: Drop> From<AllocFailed<T>> for ConfigFault {
    ghost use Rattle.std.specs.Prelude.{◌≡◌};
    ghost use Rattle.es_config.specs.declared.fault.ConfigFault.TheVariants as fault;

    ghost from_gives = { λ _ made. made ≡ fault.NoMemory };

    fn from(_error: AllocFailed<T>) -> ConfigFault {
        ConfigFault::NoMemory
    }
}
