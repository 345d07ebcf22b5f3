//! The JSON report.

ghost use Rattle.std.specs.Prelude.{◌≡◌, IfOk, None, string_bytes};
ghost use Rattle.serde_json.specs.View.{members_view, view};
ghost use Rattle.es_format.specs.Json.{fatal, json_of, messages_data, result_data, result_members, results_data};
ghost use Rattle.es_format.specs.Stylish.{error, fixable_error, fixable_warning, number_of, warning};

use crate::message::message_value;
use crate::tally::is_error;
use es_messages::{FileResult, Message};
use es_text::{NoMemory, Txt};
use serde_json::{Map, Value, push, put};
use std::alloc::Global;

/// The report of these files, each with its name, as ESLint's format `json` has it, with LF behind it, or
/// `NoMemory`.
pub fn json(alloc: Global, results: &[(Txt, FileResult)]) -> Result<String, NoMemory>
    ensures { IfOk result (λ text. string_bytes text ≡ json_of results.now) }
{
    let values = values(alloc, results)?;
    let mut text = values.to_string(alloc)?;
    text.push('\n')?;
    Ok(text)
}

/// The array of what is told of the files.
fn values(alloc: Global, results: &[(Txt, FileResult)]) -> Result<Value, NoMemory>
    ensures { IfOk result (λ value. view value ≡ results_data results.now) }
{
    let mut values = Vec::new(alloc);
    for named in results {
        let value = result_value(alloc, &named.0, &named.1)?;
        push(&mut values, value)?;
    }
    Ok(Value::Array(values))
}

/// What is told of a file of this name.
fn result_value(alloc: Global, name: &Txt, file_result: &FileResult) -> Result<Value, NoMemory>
    ensures { IfOk result (λ value. view value ≡ result_data (name.now, file_result.now)) }
{
    let mut members = plain_members(alloc, name, file_result)?;
    let Some(output) = &file_result.output else {
        return Ok(Value::Object(members));
    };
    let output = Value::try_from_str(alloc, output.as_str())?;
    put(&mut members, alloc, "output", output)?;
    Ok(Value::Object(members))
}

/// The members of every file.
fn plain_members(
    alloc: Global,
    name: &Txt,
    file_result: &FileResult,
) -> Result<Map<String, Value>, NoMemory>
    ensures { IfOk result (λ members. members_view members.entries ≡ result_members name.now file_result.now None) }
{
    let messages = file_result.messages.as_slice();
    let mut members = Map::new(alloc);
    put(
        &mut members,
        alloc,
        "errorCount",
        Value::from(errors(messages)),
    )?;
    let fatal = Value::from(fatal_errors(messages));
    put(&mut members, alloc, "fatalErrorCount", fatal)?;
    let name = Value::try_from_str(alloc, name.as_str())?;
    put(&mut members, alloc, "filePath", name)?;
    let fixable = Value::from(fixable_errors(messages));
    put(&mut members, alloc, "fixableErrorCount", fixable)?;
    let fixable = Value::from(fixable_warnings(messages));
    put(&mut members, alloc, "fixableWarningCount", fixable)?;
    let told = message_values(alloc, messages)?;
    put(&mut members, alloc, "messages", told)?;
    let suppressed = message_values(alloc, file_result.suppressed.as_slice())?;
    put(&mut members, alloc, "suppressedMessages", suppressed)?;
    let warnings = Value::from(warnings(messages));
    put(&mut members, alloc, "warningCount", warnings)?;
    Ok(members)
}

/// The array of the messages.
fn message_values(alloc: Global, messages: &[Message]) -> Result<Value, NoMemory>
    ensures { IfOk result (λ value. view value ≡ messages_data messages.now) }
{
    let mut values = Vec::new(alloc);
    for message in messages {
        push(&mut values, message_value(alloc, message)?)?;
    }
    Ok(Value::Array(values))
}

fn errors(messages: &[Message]) -> u64
    ensures { result ≡ number_of error messages.now }
{
    messages
        .iter()
        .filter(|message| is_error(message.severity))
        .count() as u64
}

fn warnings(messages: &[Message]) -> u64
    ensures { result ≡ number_of warning messages.now }
{
    messages
        .iter()
        .filter(|message| !is_error(message.severity))
        .count() as u64
}

fn fatal_errors(messages: &[Message]) -> u64
    ensures { result ≡ number_of fatal messages.now }
{
    messages.iter().filter(|message| message.fatal).count() as u64
}

fn fixable_errors(messages: &[Message]) -> u64
    ensures { result ≡ number_of fixable_error messages.now }
{
    messages
        .iter()
        .filter(|message| is_error(message.severity) && message.fix.is_some())
        .count() as u64
}

fn fixable_warnings(messages: &[Message]) -> u64
    ensures { result ≡ number_of fixable_warning messages.now }
{
    messages
        .iter()
        .filter(|message| !is_error(message.severity) && message.fix.is_some())
        .count() as u64
}
