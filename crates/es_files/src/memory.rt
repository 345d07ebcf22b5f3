ghost use Rattle.std.specs.Prelude.{◌≡◌, ◌≢◌, ◌≤◌, ◌⊎◌, length, take, Some, None, Err, IfOk, OnOk, OnErr, IsSome, option_copied};
ghost use Rattle.std.specs.FinMap as map;
ghost use Rattle.es_files.specs.Outside.{HoldsMore, reading, writing};
ghost use Rattle.es_files.specs.Fakes.{IsFailedSend, IsFailedWrite, next_failure, no_bytes, no_files, read_counted, send_counted, with_fault, with_held, with_more, with_planned, with_planned_send, write_counted};

use crate::contents::Contents;
use crate::failure::FailedCall;
use crate::outside::{Files, ReadFault, Sink, SinkFault, WriteFault};
use crate::plan::Plan;
use es_text::NoMemory;
use std::alloc::Global;
use std::marker::Model;

/// Files in memory, of which chosen calls fail.
#[derive(Drop)]
pub struct MemoryFiles {
    contents: Contents,
    faults: u64,
    failed: Option<FailedCall>,
    reads: Plan,
    writes: Plan,
}

impl Model for MemoryFiles {
    ghost use Rattle.es_files.specs.Fakes.{FakeFiles, coded_files};

    ghost Value = { FakeFiles };

    ghost coded = { coded_files };

    ghost view = { λ files. record {
      holds = files.contents;
      faults = files.faults;
      failed = files.failed;
      reads = files.reads;
      writes = files.writes;
    } };
}

impl MemoryFiles {
    /// Nothing is held, no call was made, and none is to fail.
    pub fn new(alloc: Global) -> Result<MemoryFiles, NoMemory>
        ensures { IfOk result (λ files. files ≡ no_files) }
    {
        Ok(MemoryFiles {
            contents: Contents::new(alloc),
            faults: 0,
            failed: None,
            reads: Plan::new(alloc),
            writes: Plan::new(alloc),
        })
    }

    /// Makes the name hold the bytes, in place of what it held. It counts as no call.
    /// `NoMemory` leaves all as it was.
    pub fn hold(&mut self, alloc: Global, name: &str, bytes: &[u8]) -> Result<(), NoMemory>
        ensures ok { OnOk result (self.new ≡ with_held self.old name.now bytes.now) }
        ensures err { OnErr result (self.new ≡ self.old) }
    {
        self.contents.put(alloc, name, bytes)
    }

    /// What the name holds, or `None` exactly where it is not held.
    pub fn held(&self, name: &str) -> Option<&[u8]>
        ensures { option_copied result ≡ map.get self.now.holds name.now }
    {
        self.contents.get(name)
    }

    /// The call of this number among the writes, or among the reads, counted from 1 since `new`, is
    /// to fail. A write leaves the first `left` of its bytes, all where there are fewer. Of several
    /// entries for one call the last given one holds.
    pub fn fail(
        &mut self,
        _alloc: Global,
        write: bool,
        call: u64,
        left: u64,
    ) -> Result<(), NoMemory>
        ensures ok { OnOk result (self.new ≡ with_planned self.old write call left) }
        ensures err { OnErr result (self.new ≡ self.old) }
    {
        if write {
            self.writes.fail(call, left)
        } else {
            self.reads.fail(call, left)
        }
    }

    /// Counts a fault, and keeps the call as the last one that failed.
    fn count_fault(&mut self, call: FailedCall)
        ensures after { self.new ≡ with_fault self.old call }
        ensures later { self.old.faults ≤ self.new.faults }
    {
        self.failed = Some(call);
        self.faults = self.faults.saturating_add(1);
    }

    /// Counts the failed read, and gives its fault.
    fn fail_read(&mut self, alloc: Global, name: &str) -> ReadFault
        ensures answer { (result ≡ ReadFault.Failed) ⊎ (result ≡ ReadFault.NoMemory) }
        ensures failed { result ≡ ReadFault.Failed →
            self.new ≡ with_fault self.old (reading name.now) }
        ensures no_memory { result ≡ ReadFault.NoMemory → self.new ≡ self.old }
        ensures later { self.old.faults ≤ self.new.faults }
    {
        match FailedCall::new(alloc, name, false) {
            Ok(call) => {
                self.count_fault(call);
                ReadFault::Failed
            }
            Err(NoMemory) => ReadFault::NoMemory,
        }
    }

    /// Leaves the first part of the bytes, counts the failed write, and gives its fault.
    fn fail_write(&mut self, alloc: Global, name: &str, part: &[u8]) -> WriteFault
        ensures failed { result ≡ WriteFault.Failed →
            self.new ≡ with_fault (with_held self.old name.now part.now) (writing name.now) }
        ensures no_memory { result ≡ WriteFault.NoMemory → self.new ≡ self.old }
        ensures later { self.old.faults ≤ self.new.faults }
    {
        let Ok(call) = FailedCall::new(alloc, name, true) else {
            return WriteFault::NoMemory;
        };
        if self.contents.put(alloc, name, part).is_err() {
            return WriteFault::NoMemory;
        }
        self.count_fault(call);
        WriteFault::Failed
    }
}

/// The first `count` bytes, all where there are fewer.
fn first(bytes: &[u8], count: u64) -> &[u8]
    ensures { result.now ≡ take count bytes.now }
{
    if count < bytes.len() as u64 {
        &bytes[..count as usize]
    } else {
        bytes
    }
}

impl Files for MemoryFiles {
    ghost state = { λ files. record {
      holds = Some files.holds;
      faults = files.faults;
      failed = files.failed;
    } };

    fn read(&mut self, alloc: Global, name: &str, limit: u64) -> Result<Vec<u8>, ReadFault>
        ensures ok { IfOk result (λ bytes. map.get self.old.holds name.now ≡ Some bytes.items) }
        ensures within { IfOk result (λ bytes. length bytes.items ≤ limit) }
        ensures missing { result ≡ Err ReadFault.Missing → map.get self.old.holds name.now ≡ None }
        ensures long { result ≡ Err ReadFault.TooLong → HoldsMore self.old.holds name.now limit }
        ensures planned { result ≡ Err ReadFault.Failed → IsSome (next_failure self.old.reads) }
        ensures unplanned { result ≢ Err ReadFault.Failed → result ≢ Err ReadFault.NoMemory →
            next_failure self.old.reads ≡ None }
        ensures failed { result ≡ Err ReadFault.Failed →
            self.new ≡ with_fault (read_counted self.old) (reading name.now) }
        ensures counted { result ≢ Err ReadFault.Failed → self.new ≡ read_counted self.old }
        ensures later { self.old.faults ≤ self.new.faults }
    {
        if self.reads.next_call().is_some() {
            return Err(self.fail_read(alloc, name));
        }
        self.contents.read(alloc, name, limit)
    }

    fn write(&mut self, alloc: Global, name: &str, bytes: &[u8]) -> Result<(), WriteFault>
        ensures ok { OnOk result
            (self.new ≡ with_held (write_counted self.old) name.now bytes.now) }
        ensures unplanned { OnOk result (next_failure self.old.writes ≡ None) }
        ensures failed { result ≡ Err WriteFault.Failed →
            IsFailedWrite self.old name.now bytes.now self.new }
        ensures no_memory { result ≡ Err WriteFault.NoMemory → self.new ≡ write_counted self.old }
        ensures later { self.old.faults ≤ self.new.faults }
    {
        match self.writes.next_call() {
            Some(left) => Err(self.fail_write(alloc, name, first(bytes, left))),
            None => match self.contents.put(alloc, name, bytes) {
                Ok(()) => Ok(()),
                Err(NoMemory) => Err(WriteFault::NoMemory),
            },
        }
    }
}

/// A sink in memory, of which chosen calls fail.
#[derive(Drop)]
pub struct MemorySink {
    bytes: Vec<u8>,
    faults: u64,
    writes: Plan,
}

impl Model for MemorySink {
    ghost use Rattle.es_files.specs.Fakes.{FakeSink, coded_sink};

    ghost Value = { FakeSink };

    ghost coded = { coded_sink };

    ghost view = { λ sink. record {
      got = sink.bytes.items;
      faults = sink.faults;
      writes = sink.writes;
    } };
}

impl MemorySink {
    /// Nothing was sent, no call was made, and none is to fail.
    pub fn new(alloc: Global) -> Result<MemorySink, NoMemory>
        ensures { IfOk result (λ sink. sink ≡ no_bytes) }
    {
        Ok(MemorySink {
            bytes: Vec::new(alloc),
            faults: 0,
            writes: Plan::new(alloc),
        })
    }

    /// The call of this number, counted from 1 since `new`, is to fail. It takes the first `left`
    /// of its bytes, all where there are fewer. Of several entries for one call the last given one
    /// holds.
    pub fn fail(&mut self, _alloc: Global, call: u64, left: u64) -> Result<(), NoMemory>
        ensures ok { OnOk result (self.new ≡ with_planned_send self.old call left) }
        ensures err { OnErr result (self.new ≡ self.old) }
    {
        self.writes.fail(call, left)
    }

    /// All bytes that it was sent.
    pub fn got(&self) -> &[u8]
        ensures { result.now ≡ self.now.got }
    {
        self.bytes.as_slice()
    }
}

impl Sink for MemorySink {
    ghost state = { λ sink. record { got = Some sink.got; faults = sink.faults } };

    fn write(&mut self, _alloc: Global, bytes: &[u8]) -> Result<(), SinkFault>
        ensures ok { OnOk result (self.new ≡ with_more (send_counted self.old) bytes.now) }
        ensures unplanned { OnOk result (next_failure self.old.writes ≡ None) }
        ensures failed { result ≡ Err SinkFault.Failed → IsFailedSend self.old bytes.now self.new }
        ensures no_memory { result ≡ Err SinkFault.NoMemory → self.new ≡ send_counted self.old }
        ensures later { self.old.faults ≤ self.new.faults }
    {
        let planned = self.writes.next_call();
        let part = match planned {
            Some(left) => first(bytes, left),
            None => bytes,
        };
        if self.bytes.extend_from_slice(part).is_err() {
            return Err(SinkFault::NoMemory);
        }
        if planned.is_some() {
            self.faults = self.faults.saturating_add(1);
            return Err(SinkFault::Failed);
        }
        Ok(())
    }
}
