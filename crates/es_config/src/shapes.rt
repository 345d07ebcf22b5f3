//! Single values of a configuration.
ghost use Rattle.std.specs.Prelude.{◌≡◌};
ghost use Rattle.serde_json.specs.View.{view};
ghost use Rattle.es_config.specs.Shapes.{is_edition, names_edition, said_of, severity_at, severity_of, severity_words, truth_of, type_of, type_words, unused_of, use_of, use_words};

use es_settings::GlobalUse;
use es_text::{Severity, SourceType};
use serde_json::Value;

/// What is said of a global variable, if the value says so.
pub fn use_of(value: &Value) -> Option<GlobalUse>
    ensures { result ≡ use_of (view value.now) }
{
    match value {
        Value::String(word) => use_word(word.as_str()),
        Value::Bool(_) => Some(GlobalUse::On),
        _ => None,
    }
}

fn use_word(word: &str) -> Option<GlobalUse>
    ensures { result ≡ said_of use_words word.now }
{
    match word {
        "readonly" | "readable" | "writable" | "writeable" => Some(GlobalUse::On),
        "off" => Some(GlobalUse::Off),
        _ => None,
    }
}

/// The severity that the value is, if it is one; within it `None` is off.
pub fn severity_of(value: &Value) -> Option<Option<Severity>>
    ensures { result ≡ severity_of (view value.now) }
{
    match value {
        Value::String(word) => severity_word(word.as_str()),
        Value::Number(number) => match number.as_u64() {
            Some(level) => severity_at(level),
            None => None,
        },
        _ => None,
    }
}

fn severity_word(word: &str) -> Option<Option<Severity>>
    ensures { result ≡ said_of severity_words word.now }
{
    match word {
        "off" => Some(None),
        "warn" => Some(Some(Severity::Warn)),
        "error" => Some(Some(Severity::Error)),
        _ => None,
    }
}

fn severity_at(level: u64) -> Option<Option<Severity>>
    ensures { result ≡ severity_at level }
{
    match level {
        0 => Some(None),
        1 => Some(Some(Severity::Warn)),
        2 => Some(Some(Severity::Error)),
        _ => None,
    }
}

/// How serious it is that a comment disables nothing, if the value says so.
pub fn unused_of(value: &Value) -> Option<Option<Severity>>
    ensures { result ≡ unused_of (view value.now) }
{
    match value {
        Value::Bool(true) => Some(Some(Severity::Warn)),
        Value::Bool(false) => Some(None),
        _ => severity_of(value),
    }
}

/// The source type that the value names, if it names one.
pub fn type_of(value: &Value) -> Option<SourceType>
    ensures { result ≡ type_of (view value.now) }
{
    match value {
        Value::String(word) => type_word(word.as_str()),
        _ => None,
    }
}

fn type_word(word: &str) -> Option<SourceType>
    ensures { result ≡ said_of type_words word.now }
{
    match word {
        "module" => Some(SourceType::Module),
        "commonjs" => Some(SourceType::Commonjs),
        "script" => Some(SourceType::Script),
        _ => None,
    }
}

/// Whether the value names an edition of ECMAScript.
pub fn names_edition(value: &Value) -> bool
    ensures { result ≡ names_edition (view value.now) }
{
    match value {
        Value::String(word) => word.as_str() == "latest",
        Value::Number(number) => match number.as_u64() {
            Some(edition) => is_edition(edition),
            None => false,
        },
        _ => false,
    }
}

fn is_edition(edition: u64) -> bool
    ensures { result ≡ is_edition edition }
{
    3 <= edition && edition <= 2030
}
