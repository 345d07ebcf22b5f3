ghost use Rattle.std.specs.Prelude.{◌≡◌, ◌≤◌, IfOk, None, Some, length};
ghost use Rattle.es_files.specs.Outside.{one_more};
ghost use Rattle.es_files.specs.Real.{no_faults};

use crate::failure::FailedCall;
use crate::outside::{Files, ReadFault, Sink, SinkFault, WriteFault};
use crate::streams::{read_within, write_whole};
use es_text::NoMemory;
use std::alloc::Global;
use std::io::{ErrorKind, Print, Write};
use std::marker::Model;
use std::{fs, io};

/// The files of the machine. They tell no contents.
///
/// A name that isn't there is `Missing`; every other fault of opening, reading or writing is
/// `Failed`.
#[derive(Drop)]
pub struct RealFiles<'a, R: fs::Files> {
    rt: &'a R,
    faults: u64,
    failed: Option<FailedCall>,
}

impl<'a, R: fs::Files> Model for RealFiles<'a, R> {
    ghost use Rattle.es_files.specs.Real.{Faults, coded_faults};

    ghost Value = { Faults };

    ghost coded = { coded_faults };

    ghost view = { λ files. record { count = files.faults; last = files.failed } };
}

impl<'a, R: fs::Files> RealFiles<'a, R> {
    /// The files that the runtime reaches. No call has failed.
    pub fn new(rt: &'a R) -> RealFiles<'a, R>
        ensures { result ≡ no_faults }
    {
        RealFiles {
            rt,
            faults: 0,
            failed: None,
        }
    }

    /// Counts a fault, and keeps the call as the last one that failed.
    fn count_fault(&mut self, call: FailedCall)
        ensures count { self.new.count ≡ one_more self.old.count }
        ensures later { self.old.count ≤ self.new.count }
        ensures last { self.new.last ≡ Some call }
    {
        self.failed = Some(call);
        self.faults = self.faults.saturating_add(1);
    }
}

/// Reads the file of this name. Only a name that isn't there is missing.
fn read_named<R: fs::Files>(
    rt: &R,
    alloc: Global,
    name: &str,
    limit: u64,
) -> Result<Vec<u8>, ReadFault>
    ensures { IfOk result (λ bytes. length bytes.items ≤ limit) }
{
    match fs::open(rt, name) {
        Ok(mut file) => read_within(alloc, &mut file, limit),
        Err(error) => {
            if error.kind() == ErrorKind::NotFound {
                Err(ReadFault::Missing)
            } else {
                Err(ReadFault::Failed)
            }
        }
    }
}

/// Makes a file of this name hold the bytes, in place of what it held.
fn write_named<R: fs::Files>(rt: &R, name: &str, bytes: &[u8]) -> io::Result<()> {
    let mut file = fs::create(rt, name)?;
    write_whole(&mut file, bytes)
}

impl<'a, R: fs::Files> Files for RealFiles<'a, R> {
    ghost state = { λ files. record { holds = None; faults = files.count; failed = files.last } };

    fn read(&mut self, alloc: Global, name: &str, limit: u64) -> Result<Vec<u8>, ReadFault> {
        let Ok(call) = FailedCall::new(alloc, name, false) else {
            return Err(ReadFault::NoMemory);
        };
        let answer = read_named(self.rt, alloc, name, limit);
        if matches!(answer, Err(ReadFault::Failed)) {
            self.count_fault(call);
        }
        answer
    }

    fn write(&mut self, alloc: Global, name: &str, bytes: &[u8]) -> Result<(), WriteFault> {
        let Ok(call) = FailedCall::new(alloc, name, true) else {
            return Err(WriteFault::NoMemory);
        };
        match write_named(self.rt, name, bytes) {
            Ok(()) => Ok(()),
            Err(_) => {
                self.count_fault(call);
                Err(WriteFault::Failed)
            }
        }
    }
}

/// The standard output. It tells nothing of what it was sent.
#[derive(Drop)]
pub struct RealOut<'a, R: Print> {
    rt: &'a R,
    faults: u64,
}

impl<'a, R: Print> Model for RealOut<'a, R> {
    ghost use Rattle.std.specs.Prelude.{ℕ};
    ghost use Rattle.std.specs.Coded.{coded_ℕ};

    ghost Value = { ℕ };

    ghost coded = { coded_ℕ };

    ghost view = { λ out. out.faults };
}

impl<'a, R: Print> RealOut<'a, R> {
    /// What the runtime prints to. No call has failed.
    pub fn new(rt: &'a R) -> RealOut<'a, R>
        ensures { result ≡ 0 }
    {
        RealOut { rt, faults: 0 }
    }
}

impl<'a, R: Print> Sink for RealOut<'a, R> {
    ghost state = { λ faults. record { got = None; faults = faults } };

    fn write(&mut self, _alloc: Global, bytes: &[u8]) -> Result<(), SinkFault> {
        match write_whole(&mut io::writer(self.rt), bytes) {
            Ok(()) => Ok(()),
            Err(_) => {
                self.faults = self.faults.saturating_add(1);
                Err(SinkFault::Failed)
            }
        }
    }
}

/// The standard error. It tells nothing of what it was sent.
#[derive(Drop)]
pub struct RealErr<W: Write + Drop> {
    stream: W,
    faults: u64,
}

impl<W: Write + Drop> Model for RealErr<W> {
    ghost use Rattle.std.specs.Prelude.{ℕ};
    ghost use Rattle.std.specs.Coded.{coded_ℕ};

    ghost Value = { ℕ };

    ghost coded = { coded_ℕ };

    ghost view = { λ err. err.faults };
}

impl<W: Write + Drop> RealErr<W> {
    /// Takes the stream, which for the program is the runtime's `stderr()`. No call has failed.
    pub fn new(stream: W) -> RealErr<W>
        ensures { result ≡ 0 }
    {
        RealErr { stream, faults: 0 }
    }
}

impl<W: Write + Drop> Sink for RealErr<W> {
    ghost state = { λ faults. record { got = None; faults = faults } };

    fn write(&mut self, _alloc: Global, bytes: &[u8]) -> Result<(), SinkFault> {
        match write_whole(&mut self.stream, bytes) {
            Ok(()) => Ok(()),
            Err(_) => {
                self.faults = self.faults.saturating_add(1);
                Err(SinkFault::Failed)
            }
        }
    }
}
