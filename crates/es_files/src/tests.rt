use crate::outside::{Files, ReadFault, Sink, SinkFault, WriteFault};
use crate::{MemoryFiles, MemorySink, RealErr, RealFiles, RealOut, SureFiles, SureSink};
use std::cell::Cell;
use std::fmt::Display;
use std::io::{Print, Write};
use std::process::Abort;
use std::test::Fail;
use std::{env, fs, io, process};

/// Asserts that what is said is so.
pub(crate) fn check(rt: &impl Abort, what: &str, so: bool) {
    assert!(rt; so, "{what}");
}

/// Whether a read answered these bytes, or this fault.
fn answers(answer: Result<Vec<u8>, ReadFault>, want: Result<&[u8], ReadFault>) -> bool {
    match (answer, want) {
        (Ok(bytes), Ok(held)) => bytes.as_slice() == held,
        (Err(fault), Err(wanted)) => fault == wanted,
        _ => false,
    }
}

fn holds(files: &MemoryFiles, name: &str, bytes: &[u8]) -> bool {
    files.held(name) == Some(bytes)
}

static READS: [(&str, u64, Result<&[u8], ReadFault>); 4] = [
    ("A.js", 9, Err(ReadFault::Missing)),
    ("a.js", 2, Err(ReadFault::Failed)),
    ("a.js", 2, Ok(b"a\n")),
    ("a.js", 1, Err(ReadFault::TooLong)),
];

#[test]
fn reads_in_memory_fail_by_plan(rt: HostRuntime) -> Result<(), Fail> {
    let mut files = MemoryFiles::new(rt.alloc())?;
    files.hold(rt.alloc(), "a.js", b"first")?;
    files.hold(rt.alloc(), "a.js", b"a\n")?;
    files.fail(rt.alloc(), false, 2, 0)?;
    files.fail(rt.alloc(), true, 1, 0)?;
    for &(name, limit, want) in &READS {
        let answer = files.read(rt.alloc(), name, limit);
        check(&rt, name, answers(answer, want));
    }
    Ok(())
}

static WRITES: [(&str, &[u8], Result<(), WriteFault>, &[u8]); 4] = [
    ("a.js", b"xyz", Ok(()), b"xyz"),
    ("a.js", b"uv", Err(WriteFault::Failed), b"u"),
    ("m.js", b"mm", Err(WriteFault::Failed), b"mm"),
    ("m.js", b"", Ok(()), b""),
];

#[test]
fn writes_in_memory_fail_by_plan(rt: HostRuntime) -> Result<(), Fail> {
    let mut files = MemoryFiles::new(rt.alloc())?;
    files.hold(rt.alloc(), "b.js", b"b\n")?;
    files.fail(rt.alloc(), true, 2, 0)?;
    files.fail(rt.alloc(), true, 2, 1)?;
    files.fail(rt.alloc(), true, 3, 100)?;
    for &(name, bytes, want, left) in &WRITES {
        let answer = files.write(rt.alloc(), name, bytes);
        check(&rt, name, answer == want && holds(&files, name, left));
    }
    check(
        &rt,
        "others",
        holds(&files, "b.js", b"b\n") && files.held("c.js").is_none(),
    );
    Ok(())
}

static SENDS: [(&[u8], Result<(), SinkFault>, &[u8]); 4] = [
    (b"abc", Err(SinkFault::Failed), b"ab"),
    (b"de", Ok(()), b"abde"),
    (b"f", Err(SinkFault::Failed), b"abde"),
    (b"g", Ok(()), b"abdeg"),
];

#[test]
fn a_sink_in_memory_fails_by_plan(rt: HostRuntime) -> Result<(), Fail> {
    let mut sink = MemorySink::new(rt.alloc())?;
    sink.fail(rt.alloc(), 1, 2)?;
    sink.fail(rt.alloc(), 3, 7)?;
    sink.fail(rt.alloc(), 3, 0)?;
    for &(bytes, want, got) in &SENDS {
        let answer = sink.write(rt.alloc(), bytes);
        check(&rt, "a write", answer == want && sink.got() == got);
    }
    Ok(())
}

static SURE_READS: [(&str, u64, Result<&[u8], ReadFault>); 4] = [
    ("a.js", 2, Ok(b"a\n")),
    ("a.js", 1, Err(ReadFault::TooLong)),
    ("b.js", 2, Ok(b"b\n")),
    ("c.js", 2, Err(ReadFault::Missing)),
];

#[test]
fn sure_kinds_do_not_fail(rt: HostRuntime) -> Result<(), Fail> {
    let mut files = SureFiles::new(rt.alloc())?;
    files.hold(rt.alloc(), "a.js", b"a\n")?;
    files.write(rt.alloc(), "b.js", b"b\n")?;
    for &(name, limit, want) in &SURE_READS {
        let answer = files.read(rt.alloc(), name, limit);
        check(&rt, name, answers(answer, want));
    }
    check(
        &rt,
        "what is held",
        files.held("b.js") == Some(b"b\n".as_slice()),
    );
    let mut sink = SureSink::new(rt.alloc())?;
    let answers = (sink.write(rt.alloc(), b"ab"), sink.write(rt.alloc(), b"c"));
    check(
        &rt,
        "two writes",
        answers == (Ok(()), Ok(())) && sink.got() == b"abc".as_slice(),
    );
    Ok(())
}

/// A name in the folder for temporary files, which no other process uses.
fn temporary(rt: &HostRuntime, what: &str) -> Result<String, Fail> {
    let folder = env::temp_dir(rt)?.into_string();
    let folder = folder.as_str();
    let number = process::id(rt.process());
    Ok(format!(in rt.alloc(); "{folder}/es_files-{what}-{number}")?)
}

#[test]
fn a_real_file_is_written_and_read(rt: HostRuntime) -> Result<(), Fail> {
    let name = temporary(&rt, "file")?;
    let mut files = RealFiles::new(&rt);
    let before = files.write(rt.alloc(), name.as_str(), b"longer than the next");
    let written = files.write(rt.alloc(), name.as_str(), b"\xffb\n");
    let whole = files.read(rt.alloc(), name.as_str(), 3);
    let long = files.read(rt.alloc(), name.as_str(), 2);
    fs::remove_file(&rt, name.as_str())?;
    let gone = files.read(rt.alloc(), name.as_str(), 3);
    check(&rt, "two writes", (before, written) == (Ok(()), Ok(())));
    check(&rt, "all of it", answers(whole, Ok(b"\xffb\n")));
    check(&rt, "too long", answers(long, Err(ReadFault::TooLong)));
    check(&rt, "missing", answers(gone, Err(ReadFault::Missing)));
    Ok(())
}

/// Only a name that isn't there is missing: a folder, and a name below a file, can't be read, nor
/// can a name below a folder that isn't there be written.
#[test]
fn other_real_names_fail(rt: HostRuntime) -> Result<(), Fail> {
    let file = temporary(&rt, "below")?;
    let below = format!(in rt.alloc(); "{file}/x")?;
    let folder = env::temp_dir(&rt)?.into_string();
    let mut files = RealFiles::new(&rt);
    let lost = files.write(rt.alloc(), below.as_str(), b"b");
    let made = files.write(rt.alloc(), file.as_str(), b"b");
    let read = files.read(rt.alloc(), below.as_str(), 2);
    let written = files.write(rt.alloc(), below.as_str(), b"b");
    fs::remove_file(&rt, file.as_str())?;
    let inside = files.read(rt.alloc(), folder.as_str(), 2);
    let over = files.write(rt.alloc(), folder.as_str(), b"b");
    let failed = Err(WriteFault::Failed);
    check(
        &rt,
        "writes",
        (lost, made, written, over) == (failed, Ok(()), failed, failed),
    );
    check(
        &rt,
        "a read below a file",
        answers(read, Err(ReadFault::Failed)),
    );
    check(
        &rt,
        "a read of a folder",
        answers(inside, Err(ReadFault::Failed)),
    );
    Ok(())
}

/// An output that takes so many bytes at a time, and keeps them as the digits of one number.
#[derive(Drop)]
struct Page {
    step: usize,
    got: Cell<u64>,
}

impl Print for Page {
    fn print<D: Display + Drop>(&self, _value: D) -> io::Result<()> {
        Ok(())
    }

    fn println<D: Display + Drop>(&self, _value: D) -> io::Result<()> {
        Ok(())
    }

    fn write_all(&self, _bytes: &[u8]) -> io::Result<()> {
        Ok(())
    }

    fn write_some(&self, bytes: &[u8]) -> io::Result<usize> {
        let count = bytes.len().min(self.step);
        for byte in &bytes[..count] {
            let before = self.got.get().wrapping_mul(256);
            self.got.set(before.wrapping_add(*byte as u64));
        }
        Ok(count)
    }
}

// How many bytes it takes at a time, what it is sent, the answer, and what it got.
static PAGES: [(usize, &[u8], Result<(), SinkFault>, u64); 4] = [
    (9, b"ab\n", Ok(()), 0x61_62_0a),
    (1, b"ab\n", Ok(()), 0x61_62_0a),
    (0, b"", Ok(()), 0),
    (0, b"a", Err(SinkFault::Failed), 0),
];

#[test]
fn the_standard_output_gets_all_once(rt: HostRuntime) {
    for &(step, bytes, want, got) in &PAGES {
        let page = Page {
            step,
            got: Cell::new(0),
        };
        let answer = RealOut::new(&page).write(rt.alloc(), bytes);
        check(&rt, "the output", answer == want && page.got.get() == got);
    }
}

#[test]
fn the_standard_streams_can_be_written(rt: HostRuntime) {
    let printed = RealOut::new(&rt).write(rt.alloc(), b"to the standard output\n");
    let told = RealErr::new(rt.stderr()).write(rt.alloc(), b"to the standard error\n");
    check(&rt, "the streams", (printed, told) == (Ok(()), Ok(())));
}
