//! How a run ends that made its report: the files are written in order, and then the report is printed.
ghost use Rattle.std.specs.Prelude.{◌≡◌, ◌⊎◌, [], All, None, IfSome, string_bytes, map};
ghost use Rattle.es_files.specs.Outside.{SentPart, with_sent};
ghost use Rattle.es_run.specs.Ends.{Ends, IsPrintStatus, world};
ghost use Rattle.es_run.specs.Runs.{IsTold};
ghost use Rattle.es_run.specs.Stages.{IsPrepared, StopsAtWrite, done_status, with_written, write_in};
ghost use Rattle.es_run.specs.Statuses.{fault_line};

use crate::reporting::{Made, Write};
use crate::status::{Status, StopCause};
use crate::stopping::{no_memory, refuse, tell};
use es_files::{Files, Sink, SinkFault, WriteFault};
use es_text::Txt;
use std::alloc::Global;

/// Writes the files in order. The first that fails gives the status of the run, which stops.
fn write_files<F: Files, E: Sink>(
    alloc: Global,
    config: &Txt,
    writes: Vec<Write>,
    files: &mut F,
    err: &mut E,
) -> Option<Status>
    requires prepared { All (IsPrepared config.now) writes.items }
    ensures written { result ≡ None →
        F.state files.new ≡ with_written (F.state files.old) (map write_in writes.items) }
    ensures quiet { result ≡ None → E.state err.new ≡ E.state err.old }
    ensures stopped { IfSome result (StopsAtWrite config.now writes.items (F.state files.old) (F.state files.new)
        (E.state err.old) (E.state err.new)) }
{
    for file in writes {
        match files.write(alloc, file.name.as_str(), file.text.as_str().as_bytes()) {
            Ok(()) => {}
            Err(WriteFault::Failed) => {
                return Some(tell(alloc, Status::Stopped(file.cause), file.line.as_str(), err));
            }
            Err(WriteFault::NoMemory) => return Some(no_memory(alloc, err)),
        }
    }
    None
}

/// The status of a run that printed its report.
fn done(clean: bool) -> Status
    ensures { result ≡ done_status clean }
{
    if clean {
        Status::Clean
    } else {
        Status::Problems
    }
}

/// Tells the line after the report, where there is one.
fn finish<E: Sink>(alloc: Global, clean: bool, line: &str, err: &mut E) -> Status
    ensures status { (result ≡ done_status clean) ⊎ (result ≡ Status.NoMemory) }
    ensures told { result ≡ done_status clean → IsTold (E.state err.old) line.now (E.state err.new) }
    ensures quiet { line.now ≡ [] → E.state err.new ≡ E.state err.old }
{
    if line.is_empty() {
        return done(clean);
    }
    tell(alloc, done(clean), line, err)
}

/// Prints the report, as one piece, and tells the line after it.
fn print<O: Sink, E: Sink>(
    alloc: Global,
    config: &Txt,
    made: &Made,
    out: &mut O,
    err: &mut E,
) -> Status
    ensures status { IsPrintStatus made.now.clean result }
    ensures done { result ≡ done_status made.now.clean →
        O.state out.new ≡ with_sent (O.state out.old) (string_bytes made.now.text) }
    ensures line { result ≡ done_status made.now.clean →
        IsTold (E.state err.old) (string_bytes made.now.line) (E.state err.new) }
    ensures quiet { result ≡ done_status made.now.clean → string_bytes made.now.line ≡ [] →
        E.state err.new ≡ E.state err.old }
    ensures part { result ≡ Status.Stopped StopCause.CannotPrint →
        SentPart (O.state out.old) (string_bytes made.now.text) (O.state out.new) }
    ensures told { result ≡ Status.Stopped StopCause.CannotPrint →
        IsTold (E.state err.old) (fault_line config.now StopCause.CannotPrint) (E.state err.new) }
    ensures no_memory { result ≡ Status.NoMemory → (O.state out.new ≡ O.state out.old)
        ⊎ (SentPart (O.state out.old) (string_bytes made.now.text) (O.state out.new)
        ⊎ (O.state out.new ≡ with_sent (O.state out.old) (string_bytes made.now.text))) }
{
    match out.write(alloc, made.text.as_bytes()) {
        Ok(()) => finish(alloc, made.clean, made.line.as_str(), err),
        Err(SinkFault::Failed) => refuse(alloc, config, StopCause::CannotPrint, err),
        Err(SinkFault::NoMemory) => no_memory(alloc, err),
    }
}

/// Writes the files in order, prints the report and tells the line after it.
pub(crate) fn end<F: Files, O: Sink, E: Sink>(
    alloc: Global,
    config: &Txt,
    mut made: Made,
    files: &mut F,
    out: &mut O,
    err: &mut E,
) -> Status
    requires prepared { All (IsPrepared config.now) made.writes.items }
    ensures { Ends config.now made (world (F.state files.old) (O.state out.old) (E.state err.old))
        (world (F.state files.new) (O.state out.new) (E.state err.new)) result }
{
    let writes = std::mem::replace(&mut made.writes, Vec::new(alloc));
    match write_files(alloc, config, writes, files, err) {
        Some(status) => status,
        None => print(alloc, config, &made, out, err),
    }
}
