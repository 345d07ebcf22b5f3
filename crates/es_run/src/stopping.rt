//! How a run stops.
ghost use Rattle.std.specs.Prelude.{◌≡◌, IfOk, encode_utf8_all, string_bytes};
ghost use Rattle.std.specs.Cow.{cow_str_bytes};
ghost use Rattle.es_run.specs.Runs.{IsTold, IsUnlessNoMemory};
ghost use Rattle.es_run.specs.Statuses.{bad_line, fault_line, kind_text, line_about};

use crate::status::{Status, StopCause};
use es_config::FaultKind;
use es_files::{Sink, SinkFault};
use es_text::{NoMemory, Txt};
use std::alloc::Global;
use std::borrow::CowStr;

/// Tells that it is out of memory, where that can be told.
pub(crate) fn no_memory<E: Sink>(alloc: Global, err: &mut E) -> Status
    ensures { result ≡ Status.NoMemory }
{
    let _ = err.write(alloc, b"esl: no memory\n");
    Status::NoMemory
}

/// Tells the line and gives the status. A failed write changes nothing else.
pub(crate) fn tell<E: Sink>(alloc: Global, status: Status, line: &str, err: &mut E) -> Status
    ensures status { IsUnlessNoMemory status result }
    ensures told { result ≡ status → (status ≡ Status.NoMemory → ⊥) →
        IsTold (E.state err.old) line.now (E.state err.new) }
{
    match err.write(alloc, line.as_bytes()) {
        Err(SinkFault::NoMemory) => no_memory(alloc, err),
        Ok(()) | Err(SinkFault::Failed) => status,
    }
}

/// The line that names a file.
fn line_about(alloc: Global, what: &str, name: &Txt) -> Result<CowStr<'static>, NoMemory>
    ensures { IfOk result (λ line. cow_str_bytes line ≡ line_about what.now name.now) }
{
    let name = name.as_str();
    Ok(CowStr::Owned(format!(in alloc; "{what}{name}\n")?))
}

/// What is wrong with a configuration, as it is told.
#[tactic(auto, unfolding(crate::specs::Statuses::kind_text))]
fn kind_text(kind: FaultKind) -> &'static str
    ensures { result.now ≡ kind_text kind }
{
    match kind {
        FaultKind::NotJson => "NotJson",
        FaultKind::WrongShape => "WrongShape",
        FaultKind::UnknownKey => "UnknownKey",
        FaultKind::UnknownRule => "UnknownRule",
        FaultKind::BadSeverity => "BadSeverity",
        FaultKind::BadOption => "BadOption",
        FaultKind::BadGlob => "BadGlob",
        FaultKind::BadSelector => "BadSelector",
    }
}

/// The line of a configuration in which something is wrong.
fn bad_line(
    alloc: Global,
    config: &Txt,
    kind: FaultKind,
    pointer: &Txt,
) -> Result<CowStr<'static>, NoMemory>
    ensures { IfOk result (λ line. cow_str_bytes line ≡ bad_line config.now kind pointer.now) }
{
    let name = config.as_str();
    let kind = kind_text(kind);
    let pointer = pointer.as_str();
    Ok(CowStr::Owned(format!(in alloc; "esl: {name}: {kind} at {pointer}\n")?))
}

/// The line of the cause, where the configuration has this name.
pub(crate) fn line_of(
    alloc: Global,
    config: &Txt,
    cause: &StopCause,
) -> Result<CowStr<'static>, NoMemory>
    ensures { IfOk result (λ line. cow_str_bytes line ≡ fault_line config.now cause.now) }
{
    match cause {
        StopCause::BadWords => Ok(CowStr::Borrowed("esl: bad arguments\n")),
        StopCause::TooMany { names: _ } => Ok(CowStr::Borrowed("esl: too many names\n")),
        StopCause::ConfigMissing => line_about(alloc, "esl: no configuration: ", config),
        StopCause::BadConfig { kind, pointer } => bad_line(alloc, config, *kind, pointer),
        StopCause::NoFile { name } => line_about(alloc, "esl: no such file: ", name),
        StopCause::TooLong { name } => line_about(alloc, "esl: too long: ", name),
        StopCause::CannotRead { name } => line_about(alloc, "esl: cannot read: ", name),
        StopCause::TooMuch { bytes: _ } => Ok(CowStr::Borrowed("esl: too much text\n")),
        StopCause::CannotWrite { name } => line_about(alloc, "esl: cannot write: ", name),
        StopCause::CannotPrint => Ok(CowStr::Borrowed("esl: cannot print\n")),
    }
}

/// Ends the run for this cause.
pub(crate) fn refuse<E: Sink>(alloc: Global, config: &Txt, cause: StopCause, err: &mut E) -> Status
    ensures status { IsUnlessNoMemory (Status.Stopped cause) result }
    ensures told { result ≡ Status.Stopped cause →
        IsTold (E.state err.old) (fault_line config.now cause) (E.state err.new) }
{
    match line_of(alloc, config, &cause) {
        Ok(line) => tell(alloc, Status::Stopped(cause), line.as_str(), err),
        Err(NoMemory) => no_memory(alloc, err),
    }
}
