ghost use Rattle.std.specs.Prelude.{◌≡◌, ◌++◌, [], Some, None, IfOk, OnOk, OnErr, option_copied};
ghost use Rattle.std.specs.FinMap as map;

use crate::contents::Contents;
use crate::outside::{Files, ReadFault, Sink, SinkFault, WriteFault};
use es_text::NoMemory;
use std::alloc::Global;
use std::marker::Model;

/// Files in memory that never fail.
#[derive(Drop)]
pub struct SureFiles {
    contents: Contents,
}

impl Model for SureFiles {
    ghost use Rattle.std.specs.Coded.{coded_list, coded_ℕ};
    ghost use Rattle.std.specs.FinMap as map;
    ghost use Rattle.es_files.specs.Outside.{Held};

    ghost Value = { Held };

    ghost coded = { map.code (coded_list coded_ℕ) (coded_list coded_ℕ) };

    ghost view = { λ files. files.contents };
}

impl SureFiles {
    /// Nothing is held.
    pub fn new(alloc: Global) -> Result<SureFiles, NoMemory>
        ensures { IfOk result (λ files. files ≡ map.empty) }
    {
        Ok(SureFiles {
            contents: Contents::new(alloc),
        })
    }

    /// Makes the name hold the bytes, in place of what it held. `NoMemory` leaves all as it was.
    pub fn hold(&mut self, alloc: Global, name: &str, bytes: &[u8]) -> Result<(), NoMemory>
        ensures ok { OnOk result (self.new ≡ map.insert self.old name.now bytes.now) }
        ensures err { OnErr result (self.new ≡ self.old) }
    {
        self.contents.put(alloc, name, bytes)
    }

    /// What the name holds, or `None` exactly where it is not held.
    pub fn held(&self, name: &str) -> Option<&[u8]>
        ensures { option_copied result ≡ map.get self.now name.now }
    {
        self.contents.get(name)
    }
}

impl Files for SureFiles {
    ghost state = { λ held. record { holds = Some held; faults = 0; failed = None } };

    fn read(&mut self, alloc: Global, name: &str, limit: u64) -> Result<Vec<u8>, ReadFault> {
        self.contents.read(alloc, name, limit)
    }

    fn write(&mut self, alloc: Global, name: &str, bytes: &[u8]) -> Result<(), WriteFault> {
        match self.contents.put(alloc, name, bytes) {
            Ok(()) => Ok(()),
            Err(NoMemory) => Err(WriteFault::NoMemory),
        }
    }
}

/// A sink in memory that never fails.
#[derive(Drop)]
pub struct SureSink {
    bytes: Vec<u8>,
}

impl Model for SureSink {
    ghost use Rattle.std.specs.Prelude.{ℕ, List};
    ghost use Rattle.std.specs.Coded.{coded_list, coded_ℕ};

    ghost Value = { List ℕ };

    ghost coded = { coded_list coded_ℕ };

    ghost view = { λ sink. sink.bytes.items };
}

impl SureSink {
    /// Nothing was sent.
    pub fn new(alloc: Global) -> Result<SureSink, NoMemory>
        ensures { IfOk result (λ sink. sink ≡ []) }
    {
        Ok(SureSink {
            bytes: Vec::new(alloc),
        })
    }

    /// All bytes that it was sent.
    pub fn got(&self) -> &[u8]
        ensures { result.now ≡ self.now }
    {
        self.bytes.as_slice()
    }
}

impl Sink for SureSink {
    ghost state = { λ bytes. record { got = Some bytes; faults = 0 } };

    fn write(&mut self, _alloc: Global, bytes: &[u8]) -> Result<(), SinkFault> {
        match self.bytes.extend_from_slice(bytes) {
            Ok(()) => Ok(()),
            Err(_) => Err(SinkFault::NoMemory),
        }
    }
}
