//! The report of a text that isn't parsed.
ghost use Rattle.std.specs.Prelude.{◌≡◌, ◌++◌, Some, IfOk, IsTrue, codes};
ghost use Rattle.std.specs.Fmt.{decimal};
ghost use Rattle.std.specs.Str.{chars};
ghost use Rattle.es_text.specs.Spans.{is_part};
ghost use Rattle.es_parser.specs.Parsing.{IsInText};
ghost use Rattle.es_lint.specs.Fatal.{early_text, empty_at, fatal_report, fault_fatal};

use es_parser::ParseFault;
use es_text::{NoMemory, Report, Severity, Span, Txt};
use std::alloc::Global;

/// The report of the fault. Out of memory has none, and is told as such.
#[tactic(auto, unfolding(crate::specs::Fatal::fatal_of))]
pub fn fatal_of(alloc: Global, fault: ParseFault) -> Result<Report, NoMemory>
    ensures { IfOk result (λ report. fault_fatal fault ≡ Some report) }
{
    match fault {
        ParseFault::Unread { at } => fatal_at(alloc, at, "Parsing error: unreadable item."),
        ParseFault::Deep { at } => fatal_at(alloc, at, "Parsing error: nested too deeply."),
        ParseFault::Early { code, span } => Ok(fatal_report(span, early_text(alloc, code)?)),
        ParseFault::NoMemory => Err(NoMemory),
    }
}

/// The fatal report with this text, at no character of this offset.
fn fatal_at(alloc: Global, at: u32, text: &str) -> Result<Report, NoMemory>
    ensures { IfOk result (λ report. report ≡ fatal_report (empty_at at) (chars text.now)) }
{
    let span = Span { start: at, end: at };
    Ok(fatal_report(span, Txt::new(alloc, text)?))
}

/// The fatal report with this text at this span.
fn fatal_report(span: Span, text: Txt) -> Report
    ensures { result ≡ fatal_report span text }
{
    Report {
        rule: None,
        order: 0,
        severity: Severity::Error,
        text,
        span,
        fix: None,
        fatal: true,
    }
}

/// The text for an early error.
fn early_text(alloc: Global, code: u8) -> Result<Txt, NoMemory>
    ensures { IfOk result (λ text. text ≡ early_text code) }
{
    let text = format!(in alloc; "Parsing error: early error E{code}.")?;
    Txt::new(alloc, text.as_str())
}
