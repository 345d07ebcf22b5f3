//! What is read at the limits and past them.
use crate::gathering::read_source;
use crate::status::{Fault, StopCause};
use es_files::MemoryFiles;
use es_text::Txt;
use std::alloc::Global;
use std::process::Abort;
use std::test::Fail;

/// Files in memory, of which `a.js` holds so many spaces.
fn files_of(alloc: Global, count: usize) -> Result<MemoryFiles, Fail> {
    let mut bytes = Vec::new(alloc);
    bytes.resize(count, b' ')?;
    let mut files = MemoryFiles::new(alloc)?;
    files.hold(alloc, "a.js", bytes.as_slice())?;
    Ok(files)
}

/// The bytes of the file, those that were read before it, and how many are read, or the number of `TooMuch`, or
/// neither where the file is too long.
struct Case {
    bytes: usize,
    before: u64,
    read: Option<usize>,
    too_much: Option<u64>,
}

static CASES: [Case; 6] = [
    Case {
        bytes: 0,
        before: 134_217_728,
        read: Some(0),
        too_much: None,
    },
    Case {
        bytes: 2,
        before: 134_217_726,
        read: Some(2),
        too_much: None,
    },
    Case {
        bytes: 2,
        before: 134_217_727,
        read: None,
        too_much: Some(134_217_729),
    },
    Case {
        bytes: 2_097_152,
        before: 0,
        read: Some(2_097_152),
        too_much: None,
    },
    Case {
        bytes: 2_097_153,
        before: 0,
        read: None,
        too_much: None,
    },
    Case {
        bytes: 2_097_153,
        before: 134_217_728,
        read: None,
        too_much: None,
    },
];

#[test]
fn limits_of_files(rt: HostRuntime) -> Result<(), Fail> {
    let alloc = rt.alloc();
    let name = Txt::new(alloc, "a.js")?;
    for case in &CASES {
        let mut files = files_of(alloc, case.bytes)?;
        let answer = read_source(alloc, &name, case.before, &mut files);
        let read = match &answer {
            Ok(bytes) => Some(bytes.len()),
            Err(_) => None,
        };
        let too_much = match &answer {
            Err(Fault::Stop(StopCause::TooMuch { bytes })) => Some(*bytes),
            _ => None,
        };
        assert_eq!(rt; read, case.read);
        assert_eq!(rt; too_much, case.too_much);
    }
    Ok(())
}
