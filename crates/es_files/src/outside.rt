ghost use Rattle.std.specs.Prelude.{◌≡◌, ◌≢◌, ◌≤◌, length, Ok, Err, IfOk, OnOk};
ghost use Rattle.es_files.specs.Outside.{FilesState, HasFailed, IsHeld, IsMissing, IsTooLong, LeavesPart, SentPart, SinkState, reading, with_bytes, with_sent, writing};

use std::alloc::Global;

/// Why a name could not be read.
#[derive(Clone, Copy, Debug, PartialEq, Eq)]
pub enum ReadFault {
    /// No file has this name.
    Missing,
    /// The file has more bytes than the limit.
    TooLong,
    /// The outside failed.
    Failed,
    /// Out of memory.
    NoMemory,
}

/// Why a name could not be written.
#[derive(Clone, Copy, Debug, PartialEq, Eq)]
pub enum WriteFault {
    /// The outside failed. A first part of the bytes may have been written.
    Failed,
    /// Out of memory.
    NoMemory,
}

/// Why bytes could not be sent.
#[derive(Clone, Copy, Debug, PartialEq, Eq)]
pub enum SinkFault {
    /// The outside failed. A first part of the bytes may have been sent.
    Failed,
    /// Out of memory.
    NoMemory,
}

/// Files under their names.
pub trait Files {
    /// What is held under which name, where this is told; how many calls have failed, up to the
    /// last value of a count; and the last call that failed.
    ghost state: { Self → FilesState };

    /// The bytes of a file, where they are at most `limit` bytes.
    ///
    /// `Missing` and `TooLong` come by what is held, `Failed` only where the count of faults rises.
    /// Nothing held is changed, whatever is answered.
    fn read(&mut self, alloc: Global, name: &str, limit: u64) -> Result<Vec<u8>, ReadFault>
        ensures ok { IfOk result (λ bytes. IsHeld (state self.old) name.now bytes.items) }
        ensures within { IfOk result (λ bytes. length bytes.items ≤ limit) }
        ensures missing { result ≡ Err ReadFault.Missing → IsMissing (state self.old) name.now }
        ensures long { result ≡ Err ReadFault.TooLong → IsTooLong (state self.old) name.now limit }
        ensures failed { result ≡ Err ReadFault.Failed →
            HasFailed (state self.old) (reading name.now) (state self.new) }
        ensures still { result ≢ Err ReadFault.Failed → state self.new ≡ state self.old }
        ensures same { (state self.new).holds ≡ (state self.old).holds }
        ensures later { (state self.old).faults ≤ (state self.new).faults };

    /// Makes the name hold the bytes, in place of what it held.
    ///
    /// `Failed` comes only where the count of faults rises; the name then holds what it held, or a
    /// first part of the bytes. `NoMemory` leaves all as it was.
    fn write(&mut self, alloc: Global, name: &str, bytes: &[u8]) -> Result<(), WriteFault>
        ensures ok { OnOk result (state self.new ≡ with_bytes (state self.old) name.now bytes.now) }
        ensures failed { result ≡ Err WriteFault.Failed →
            HasFailed (state self.old) (writing name.now) (state self.new) }
        ensures part { result ≡ Err WriteFault.Failed →
            LeavesPart (state self.old) name.now bytes.now (state self.new) }
        ensures no_memory { result ≡ Err WriteFault.NoMemory → state self.new ≡ state self.old }
        ensures later { (state self.old).faults ≤ (state self.new).faults };
}

/// What takes bytes, one after the other.
pub trait Sink {
    /// What it was sent, where this is told, and how many calls have failed, up to the last value
    /// of a count.
    ghost state: { Self → SinkState };

    /// Sends the bytes.
    ///
    /// `Failed` comes only where the count of faults rises; a first part of the bytes was then
    /// sent. `NoMemory` leaves all as it was.
    fn write(&mut self, alloc: Global, bytes: &[u8]) -> Result<(), SinkFault>
        ensures ok { OnOk result (state self.new ≡ with_sent (state self.old) bytes.now) }
        ensures failed { result ≡ Err SinkFault.Failed →
            SentPart (state self.old) bytes.now (state self.new) }
        ensures no_memory { result ≡ Err SinkFault.NoMemory → state self.new ≡ state self.old }
        ensures later { (state self.old).faults ≤ (state self.new).faults };
}
