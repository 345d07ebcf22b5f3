use crate::outside::{ReadFault, Sink, SinkFault};
use crate::real::RealErr;
use crate::streams::read_within;
use crate::tests::check;
use std::io;
use std::io::{ErrorKind, Read, Write};
use std::test::Fail;

/// Gives at most two bytes at a time. Each first try of a read is interrupted, and so, if it is
/// broken, a read at its end fails.
#[derive(Drop)]
struct Slow<'a> {
    rest: &'a [u8],
    tried: bool,
    broken: bool,
}

impl Read for Slow<'_> {
    fn read(&mut self, buf: &mut [u8]) -> io::Result<usize> {
        self.tried = !self.tried;
        if self.tried {
            return Err(io::Error::from(ErrorKind::Interrupted));
        }
        if self.broken && self.rest.is_empty() {
            return Err(io::Error::from(ErrorKind::Other));
        }
        let count = self.rest.len().min(buf.len()).min(2);
        buf[..count].copy_from_slice(&self.rest[..count]);
        self.rest = &self.rest[count..];
        Ok(count)
    }
}

// The limit, whether the reader breaks, the fault if any, and how many of the five bytes are
// left.
static SLOW_READS: [(u64, bool, Option<ReadFault>, usize); 5] = [
    (u64::MAX, false, None, 0),
    (5, false, None, 0),
    (4, false, Some(ReadFault::TooLong), 0),
    (1, false, Some(ReadFault::TooLong), 3),
    (9, true, Some(ReadFault::Failed), 0),
];

#[test]
fn an_interrupted_read_goes_on(rt: HostRuntime) {
    for &(limit, broken, fault, left) in &SLOW_READS {
        let mut reader = Slow {
            rest: b"abcde",
            tried: false,
            broken,
        };
        let so = match read_within(rt.alloc(), &mut reader, limit) {
            Ok(bytes) => fault.is_none() && bytes.as_slice() == b"abcde".as_slice(),
            Err(found) => fault == Some(found),
        };
        check(&rt, "a slow read", so && reader.rest.len() == left);
    }
}

/// Takes at most two bytes at a time, and up to `room` in all. Each first try of a write is
/// interrupted.
#[derive(Drop)]
struct Tape {
    got: Vec<u8>,
    room: usize,
    tried: bool,
    flushes: u32,
}

impl Write for Tape {
    fn write(&mut self, buf: &[u8]) -> io::Result<usize> {
        self.tried = !self.tried;
        if self.tried {
            return Err(io::Error::from(ErrorKind::Interrupted));
        }
        let room = self.room.saturating_sub(self.got.len());
        let count = buf.len().min(room).min(2);
        self.got.extend_from_slice(&buf[..count])?;
        Ok(count)
    }

    fn flush(&mut self) -> io::Result<()> {
        self.flushes = self.flushes.saturating_add(1);
        Ok(())
    }
}

// The room, the answer, what it got, and how often it was flushed.
static TAPES: [(usize, Result<(), SinkFault>, &[u8], u32); 2] = [
    (9, Ok(()), b"abc", 1),
    (2, Err(SinkFault::Failed), b"ab", 0),
];

#[test]
fn the_standard_error_gets_all_once_and_is_flushed(rt: HostRuntime) -> Result<(), Fail> {
    for &(room, want, got, flushes) in &TAPES {
        let mut tape = Tape {
            got: Vec::new(rt.alloc()),
            room,
            tried: false,
            flushes: 0,
        };
        let answer = RealErr::new(&mut tape).write(rt.alloc(), b"abc");
        let so = answer == want && tape.got.as_slice() == got && tape.flushes == flushes;
        check(&rt, "the output", so);
    }
    Ok(())
}
