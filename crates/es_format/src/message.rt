//! A message as an object of ESLint's JSON format.

ghost use Rattle.std.specs.Prelude.{◌≡◌, false, IfOk, None};
ghost use Rattle.serde_json.specs.View.{members_view, view};
ghost use Rattle.es_format.specs.MessageData.{fix_data, level_of, message_data, message_members, rule_data};

use es_messages::{Message, UnitFix};
use es_text::{NoMemory, Severity, Txt};
use serde_json::{Map, Value, json, put};
use std::alloc::Global;

/// The object that ESLint's JSON format has for the message, or `NoMemory`. Its keys `fatal` and `fix` are there
/// only where the text wasn't read and where the message has a fix.
pub fn message_value(alloc: Global, message: &Message) -> Result<Value, NoMemory>
    ensures { IfOk result (λ value. view value ≡ message_data message.now) }
{
    let mut members = told_members(alloc, message)?;
    let Some(fix) = &message.fix else {
        return Ok(Value::Object(members));
    };
    let fix = fix_value(alloc, fix)?;
    put(&mut members, alloc, "fix", fix)?;
    Ok(Value::Object(members))
}

/// The members of the message, without its fix.
fn told_members(alloc: Global, message: &Message) -> Result<Map<String, Value>, NoMemory>
    ensures { IfOk result (λ members. members_view members.entries ≡ message_members message.now message.now.fatal None) }
{
    let mut members = plain_members(alloc, message)?;
    if !message.fatal {
        return Ok(members);
    }
    put(&mut members, alloc, "fatal", Value::Bool(true))?;
    Ok(members)
}

/// The members of every message.
fn plain_members(alloc: Global, message: &Message) -> Result<Map<String, Value>, NoMemory>
    ensures { IfOk result (λ members. members_view members.entries ≡ message_members message.now false None) }
{
    let mut members = Map::new(alloc);
    put(&mut members, alloc, "column", Value::from(message.column))?;
    put(
        &mut members,
        alloc,
        "endColumn",
        Value::from(message.end_column),
    )?;
    put(
        &mut members,
        alloc,
        "endLine",
        Value::from(message.end_line),
    )?;
    put(&mut members, alloc, "line", Value::from(message.line))?;
    let text = Value::try_from_str(alloc, message.text.as_str())?;
    put(&mut members, alloc, "message", text)?;
    let rule = rule_value(alloc, &message.rule)?;
    put(&mut members, alloc, "ruleId", rule)?;
    put(
        &mut members,
        alloc,
        "severity",
        Value::from(level(message.severity)),
    )?;
    Ok(members)
}

/// The rule's id, or null where no rule made the message.
fn rule_value(alloc: Global, rule: &Option<Txt>) -> Result<Value, NoMemory>
    ensures { IfOk result (λ value. view value ≡ rule_data rule.now) }
{
    match rule {
        None => Ok(Value::Null),
        Some(rule) => Ok(Value::try_from_str(alloc, rule.as_str())?),
    }
}

/// The two ends of what is replaced, and the text that comes in its place.
fn fix_value(alloc: Global, fix: &UnitFix) -> Result<Value, NoMemory>
    ensures { IfOk result (λ value. view value ≡ fix_data fix.now) }
{
    let start = fix.start;
    let end = fix.end;
    let text = fix.text.as_str();
    Ok(json!(in alloc; {"range": [start, end], "text": text})?)
}

/// The level of a severity, as ESLint numbers it.
fn level(severity: Severity) -> u32
    ensures { result ≡ level_of severity }
{
    match severity {
        Severity::Warn => 1,
        Severity::Error => 2,
    }
}
