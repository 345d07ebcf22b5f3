//! The stylish report.

ghost use Rattle.std.specs.Prelude.{◌≡◌, IfOk, length, map, encode_utf8_all, string_bytes};
ghost use Rattle.std.specs.Str.{chars};
ghost use Rattle.es_messages.specs.declared.message.Message.{Message};
ghost use Rattle.es_format.specs.Stylish.{file_text, files_text, message_line, message_lines, padded, place_text, severity_text};
ghost use Rattle.es_format.specs.Stylish.{stylish_of, told, widest_place, widest_severity, widest_text};

use crate::numbers::end;
use crate::tally::tallies;
use es_messages::{FileResult, Message};
use es_text::{NoMemory, Severity, Txt};
use std::alloc::Global;

/// The widths of a file's columns, in characters.
#[derive(Clone, Copy)]
struct Widths {
    place: usize,
    severity: usize,
    text: usize,
}

/// The report of these files, each with its name, as ESLint's format `stylish` has it, without colours, or
/// `NoMemory`. It is empty where no file has a message. Suppressed messages aren't told.
pub fn stylish(alloc: Global, results: &[(Txt, FileResult)]) -> Result<String, NoMemory>
    ensures { IfOk result (λ text. string_bytes text ≡ encode_utf8_all (stylish_of results.now)) }
{
    let mut text = files(alloc, results)?;
    let tallies = tallies(alloc, results)?;
    let end = end(alloc, tallies.as_slice())?;
    text.push_str(end.as_str())?;
    Ok(text)
}

/// What is told of the files, one behind the other.
fn files(alloc: Global, results: &[(Txt, FileResult)]) -> Result<String, NoMemory>
    ensures { IfOk result (λ text. string_bytes text ≡ encode_utf8_all (files_text results.now)) }
{
    let mut text = String::new(alloc);
    for named in results {
        let part = file(alloc, &named.0, named.1.messages.as_slice())?;
        text.push_str(part.as_str())?;
    }
    Ok(text)
}

/// What is told of a file of this name.
fn file(alloc: Global, name: &Txt, messages: &[Message]) -> Result<String, NoMemory>
    ensures { IfOk result (λ text. string_bytes text ≡ encode_utf8_all (file_text name.now messages.now)) }
{
    if messages.is_empty() {
        return Ok(String::new(alloc));
    }
    let lines = lines(alloc, messages)?;
    let name = name.as_str();
    Ok(format!(in alloc; "\n{name}\n{lines}")?)
}

/// One line for each message.
fn lines(alloc: Global, messages: &[Message]) -> Result<String, NoMemory>
    ensures { IfOk result (λ lines. string_bytes lines ≡ encode_utf8_all (message_lines messages.now)) }
{
    let widths = widths_of(alloc, messages)?;
    let mut lines = String::new(alloc);
    for message in messages {
        let line = line(alloc, message, widths)?;
        lines.push_str(line.as_str())?;
    }
    Ok(lines)
}

/// The line of one message.
fn line(alloc: Global, message: &Message, widths: Widths) -> Result<String, NoMemory>
    ensures { IfOk result (λ line. string_bytes line ≡
        encode_utf8_all (message_line widths.place widths.severity widths.text message.now)) }
{
    let place = place(alloc, message)?;
    let place = padded(alloc, place.as_str(), widths.place)?;
    let severity = padded(alloc, severity(message.severity), widths.severity)?;
    let told = told(alloc, message, widths.text)?;
    Ok(format!(in alloc; "  {place}  {severity}  {told}\n")?)
}

/// The message at this width and the rule's id, or the message alone where no rule made it.
#[tactic(auto, unfolding(crate::specs::Stylish::told))]
fn told(alloc: Global, message: &Message, width: usize) -> Result<String, NoMemory>
    ensures { IfOk result (λ text. string_bytes text ≡ encode_utf8_all (told width message.now.text message.now.rule)) }
{
    match &message.rule {
        None => Ok(String::from_str(alloc, message.text.as_str())?),
        Some(rule) => {
            let text = padded(alloc, message.text.as_str(), width)?;
            let rule = rule.as_str();
            Ok(format!(in alloc; "{text}  {rule}")?)
        }
    }
}

/// The widths of a file's columns.
fn widths_of(alloc: Global, messages: &[Message]) -> Result<Widths, NoMemory>
    ensures place { IfOk result (λ widths. widths.place ≡ widest_place messages.now) }
    ensures severity { IfOk result (λ widths. widths.severity ≡ widest_severity messages.now) }
    ensures text { IfOk result (λ widths. widths.text ≡ widest_text messages.now) }
{
    let mut widths = Widths {
        place: 0,
        severity: 0,
        text: 0,
    };
    for message in messages {
        let place = place(alloc, message)?;
        widths.place = widths.place.max(place.len());
        widths.severity = widths.severity.max(severity(message.severity).len());
        widths.text = widths.text.max(char_count(message.text.as_str()));
    }
    Ok(widths)
}

/// `LINE:COLUMN` where the message starts.
fn place(alloc: Global, message: &Message) -> Result<String, NoMemory>
    ensures bytes { IfOk result (λ text. string_bytes text ≡ place_text message.now) }
    ensures characters { IfOk result (λ text. chars (string_bytes text) ≡ place_text message.now) }
{
    let line = message.line;
    let column = message.column;
    Ok(format!(in alloc; "{line}:{column}")?)
}

#[tactic(auto, unfolding(crate::specs::Stylish::severity_text))]
fn severity(severity: Severity) -> &'static str
    ensures { result.now ≡ severity_text severity }
{
    match severity {
        Severity::Warn => "warning",
        Severity::Error => "error",
    }
}

/// The text with spaces at its right up to the width, in characters.
fn padded(alloc: Global, text: &str, width: usize) -> Result<String, NoMemory>
    ensures { IfOk result (λ wide. string_bytes wide ≡ encode_utf8_all (padded width (chars text.now))) }
{
    let mut wide = String::from_str(alloc, text)?;
    for _ in 0..width.saturating_sub(char_count(text)) {
        wide.push(' ')?;
    }
    Ok(wide)
}

/// How many characters the text has.
fn char_count(text: &str) -> usize
    ensures { result ≡ length (chars text.now) }
{
    text.chars().count()
}
