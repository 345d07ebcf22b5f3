//! What a run makes of what it has to tell, before it writes or prints anything.
ghost use Rattle.std.specs.Prelude.{◌≡◌, ◌++◌, [], All, IfOk, None, OnOk, Some, false, map, string_bytes};
ghost use Rattle.std.specs.List.{filter};
ghost use Rattle.es_format.specs.Stylish.{all_messages, error, number_of, warning};
ghost use Rattle.es_run.specs.Reporting.{are_too_many, errors_alone, has_error, limit_line, line_of, quiet_named, report_of, shown, writes_of, writing_of};
ghost use Rattle.es_run.specs.Stages.{IsPrepared, IsReportOn, write_in};

use crate::status::StopCause;
use crate::stopping::line_of;
use es_format::{json, stylish};
use es_messages::{FileResult, Message};
use es_text::{Items, NoMemory, Severity, Txt};
use std::alloc::Global;
use std::borrow::CowStr;

/// How a run tells what it has to tell.
#[derive(Clone, Copy)]
pub(crate) struct Manner {
    /// In JSON, else stylish.
    pub(crate) json: bool,
    /// Errors alone.
    pub(crate) quiet: bool,
    /// How many warnings may be told, if that is limited.
    pub(crate) limit: Option<u32>,
}

/// What a run makes before it writes anything: the report, whether it ends clean, the line that is told after the
/// report, which may be empty, and the files that are to be written.
#[derive(Drop)]
pub(crate) struct Made {
    pub(crate) text: String,
    pub(crate) clean: bool,
    pub(crate) line: String,
    pub(crate) writes: Vec<Write>,
}

/// A file that is to be written, and the cause and the line of a run that can't write it.
#[derive(Drop)]
pub(crate) struct Write {
    pub(crate) name: Txt,
    pub(crate) text: Txt,
    pub(crate) cause: StopCause,
    pub(crate) line: CowStr<'static>,
}

/// Whether the message is an error.
fn is_error(message: &Message) -> bool
    ensures { result ≡ error message.now }
{
    match message.severity {
        Severity::Error => true,
        Severity::Warn => false,
    }
}

/// Whether one of the messages is an error.
fn one_is_error(messages: &[Message]) -> bool
    ensures { result ≡ has_error messages.now }
{
    messages.iter().any(|message| is_error(message))
}

/// Whether one of all messages is an error.
fn has_error(results: &[(Txt, FileResult)]) -> bool
    ensures { result ≡ has_error (all_messages results.now) }
{
    for named in results {
        if one_is_error(named.1.messages.as_slice()) {
            return true;
        }
    }
    false
}

/// How many of the messages are warnings.
fn warnings_in(messages: &[Message]) -> u64
    ensures { result ≡ number_of warning messages.now }
{
    messages.iter().filter(|message| !is_error(message)).count() as u64
}

/// Whether more of all messages are warnings than so many.
fn are_over(limit: u32, results: &[(Txt, FileResult)]) -> bool
    ensures { result ≡ are_too_many (Some limit) (all_messages results.now) }
{
    let mut left = u64::from(limit);
    for named in results {
        let warnings = warnings_in(named.1.messages.as_slice());
        if warnings > left {
            return true;
        }
        left -= warnings;
    }
    false
}

/// Whether more of all messages are warnings than the limit, if there is one.
fn are_too_many(limit: Option<u32>, results: &[(Txt, FileResult)]) -> bool
    ensures { result ≡ are_too_many limit (all_messages results.now) }
{
    match limit {
        None => false,
        Some(limit) => are_over(limit, results),
    }
}

/// The line of the limit, if there is one.
fn limit_line(alloc: Global, limit: Option<u32>) -> Result<String, NoMemory>
    ensures { IfOk result (λ line. string_bytes line ≡ limit_line limit) }
{
    match limit {
        None => Ok(String::new(alloc)),
        Some(limit) => Ok(format!(in alloc; "esl: too many warnings (maximum: {limit})\n")?),
    }
}

/// The errors among the messages, in their order.
fn errors_in(alloc: Global, messages: Items<Message>) -> Result<Items<Message>, NoMemory>
    ensures { IfOk result (λ errors. errors ≡ filter error messages) }
{
    let mut errors = Items::new(alloc);
    for message in messages.into_vec() {
        if is_error(&message) {
            errors.push(message)?;
        }
    }
    Ok(errors)
}

/// What is told of a file, its errors alone.
fn errors_alone(alloc: Global, told: FileResult) -> Result<FileResult, NoMemory>
    ensures { IfOk result (λ errors. errors ≡ errors_alone told) }
{
    let FileResult {
        messages,
        suppressed,
        output,
    } = told;
    Ok(FileResult {
        messages: errors_in(alloc, messages)?,
        suppressed: errors_in(alloc, suppressed)?,
        output,
    })
}

/// What is told of each file, its errors alone.
fn quiet(alloc: Global, results: Vec<(Txt, FileResult)>) -> Result<Vec<(Txt, FileResult)>, NoMemory>
    ensures { IfOk result (λ errors. errors.items ≡ map quiet_named results.items) }
{
    let mut errors = Vec::with_capacity(alloc, results.len())?;
    for (name, told) in results {
        errors.push((name, errors_alone(alloc, told)?))?;
    }
    Ok(errors)
}

/// What is shown: all, or the errors alone.
fn shown(
    alloc: Global,
    is_quiet: bool,
    results: Vec<(Txt, FileResult)>,
) -> Result<Vec<(Txt, FileResult)>, NoMemory>
    ensures { IfOk result (λ told. told.items ≡ shown is_quiet results.items) }
{
    if is_quiet {
        quiet(alloc, results)
    } else {
        Ok(results)
    }
}

/// The report of what is shown.
fn text_of(alloc: Global, as_json: bool, told: &[(Txt, FileResult)]) -> Result<String, NoMemory>
    ensures { IfOk result (λ text. string_bytes text ≡ report_of as_json false told.now) }
{
    if as_json {
        json(alloc, told)
    } else {
        stylish(alloc, told)
    }
}

/// Puts the file at the end, where fixes changed its text.
fn add_write(
    alloc: Global,
    config: &Txt,
    name: Txt,
    output: Option<Txt>,
    writes: &mut Vec<Write>,
) -> Result<(), NoMemory>
    requires { All (IsPrepared config.now) writes.old.items }
    ensures writes { OnOk result
        (map write_in writes.new.items ≡ map write_in writes.old.items ++ writing_of name output) }
    ensures prepared { All (IsPrepared config.now) writes.new.items }
{
    let Some(text) = output else {
        return Ok(());
    };
    let cause = StopCause::CannotWrite {
        name: name.copy(alloc)?,
    };
    let line = line_of(alloc, config, &cause)?;
    writes.push(Write {
        name,
        text,
        cause,
        line,
    })?;
    Ok(())
}

/// The files that are to be written, in order.
fn writes_of(
    alloc: Global,
    config: &Txt,
    results: Vec<(Txt, FileResult)>,
) -> Result<Vec<Write>, NoMemory>
    ensures writes { IfOk result (λ writes. map write_in writes.items ≡ writes_of results.items) }
    ensures prepared { IfOk result (λ writes. All (IsPrepared config.now) writes.items) }
{
    let mut writes = Vec::new(alloc);
    for (name, told) in results {
        add_write(alloc, config, name, told.output, &mut writes)?;
    }
    Ok(writes)
}

/// What a run with the configuration of this name makes of what it has to tell. The warnings that aren't shown count.
pub(crate) fn make(
    alloc: Global,
    config: &Txt,
    manner: Manner,
    results: Vec<(Txt, FileResult)>,
) -> Result<Made, NoMemory>
    ensures made { IfOk result (IsReportOn manner.json manner.quiet manner.limit results.items) }
    ensures prepared { IfOk result (λ made. All (IsPrepared config.now) made.writes.items) }
    ensures quiet { IfOk result (λ made. manner.limit ≡ None → string_bytes made.line ≡ []) }
{
    let failing = has_error(results.as_slice());
    let over = !failing && are_too_many(manner.limit, results.as_slice());
    let line = limit_line(alloc, if over { manner.limit } else { None })?;
    let told = shown(alloc, manner.quiet, results)?;
    let text = text_of(alloc, manner.json, told.as_slice())?;
    let writes = writes_of(alloc, config, told)?;
    Ok(Made {
        text,
        clean: !failing && !over,
        line,
        writes,
    })
}
