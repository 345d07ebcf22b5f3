ghost use Rattle.std.specs.Prelude.{◌≡◌};
ghost use Rattle.es_run.specs.Statuses.{status_code_of};

use es_config::FaultKind;
use es_text::{NoMemory, Txt};
use std::alloc::AllocFailed;

/// How a run ended.
#[derive(Debug, Drop)]
pub enum Status {
    /// No file has an error, and there aren't more warnings than may be.
    Clean,
    /// A file has an error, or there are more warnings than may be.
    Problems,
    /// The run stopped, for this cause.
    Stopped(StopCause),
    /// The run was out of memory.
    NoMemory,
}

/// Why a run stopped.
#[derive(Debug, Drop)]
pub enum StopCause {
    /// The words aren't as listed.
    BadWords,
    /// More than 10,000 files are named.
    TooMany { names: u64 },
    /// No configuration has the name that is given.
    ConfigMissing,
    /// The first fault of the configuration, and where it stands, as a JSON pointer.
    BadConfig { kind: FaultKind, pointer: Txt },
    /// No file has this name.
    NoFile { name: Txt },
    /// The configuration has more than 1,048,576 bytes, or the file more than 2,097,152.
    TooLong { name: Txt },
    /// The configuration or the file couldn't be read.
    CannotRead { name: Txt },
    /// The files have more than 134,217,728 bytes together: so many were read with the one that passes it.
    TooMuch { bytes: u64 },
    /// The file couldn't be written: it holds what it held, or a first part of its text after fixes.
    CannotWrite { name: Txt },
    /// The report couldn't be printed.
    CannotPrint,
}

/// Why no report could be made.
#[derive(Debug, Drop)]
pub(crate) enum Fault {
    /// The run stops, for this cause.
    Stop(StopCause),
    /// Out of memory.
    NoMemory,
}

impl From<NoMemory> for Fault {
    ghost use Rattle.std.specs.Prelude.{◌≡◌};
    ghost use Rattle.es_run.specs.declared.status.Fault.TheVariants as fault;

    ghost from_gives = { λ _ given. given ≡ fault.NoMemory };

    fn from(_error: NoMemory) -> Fault {
        Fault::NoMemory
    }
}

impl<T: Drop> From<AllocFailed<T>> for Fault {
    ghost use Rattle.std.specs.Prelude.{◌≡◌};
    ghost use Rattle.es_run.specs.declared.status.Fault.TheVariants as fault;

    ghost from_gives = { λ _ given. given ≡ fault.NoMemory };

    fn from(_error: AllocFailed<T>) -> Fault {
        Fault::NoMemory
    }
}

/// The exit status of the program: 0 and 1 where it printed a report, 2 where it stopped, and 3
/// where it was out of memory.
pub fn status_code(status: &Status) -> u8
    ensures { result ≡ status_code_of status.now }
{
    match status {
        Status::Clean => 0,
        Status::Problems => 1,
        Status::Stopped(_) => 2,
        Status::NoMemory => 3,
    }
}
