//! Messages, as they are told of reports.
ghost use Rattle.std.specs.Prelude.{◌≡◌, IfOk, IsTrue, map, option_map};
ghost use Rattle.es_text.specs.Spans.{is_part};
ghost use Rattle.es_text.specs.Texts.{text_bytes};
ghost use Rattle.es_host.specs.Spans.{fix_fits, fixes_fit, reports_fit};
ghost use Rattle.es_lint.specs.Messages.{message_of, unit_fix_of};

use es_messages::{Message, UnitFix};
use es_text::{Fix, NoMemory, Report, Source, parts_lie};
use std::alloc::Global;

/// The fix with its span in UTF-16 units of the text.
fn unit_fix_of(source: &Source, fix: Fix) -> UnitFix
    requires { IsTrue (is_part (text_bytes source.now) fix.span) }
    ensures { result ≡ unit_fix_of source.now.characters fix }
{
    parts_lie();
    UnitFix {
        start: source.units(fix.span.start),
        end: source.units(fix.span.end),
        text: fix.text,
    }
}

/// The fix, if there is one, with its span in UTF-16 units of the text.
fn unit_fix_in(source: &Source, fix: Option<Fix>) -> Option<UnitFix>
    requires { IsTrue (fix_fits (text_bytes source.now) fix) }
    ensures { result ≡ option_map (unit_fix_of source.now.characters) fix }
{
    match fix {
        Some(fix) => Some(unit_fix_of(source, fix)),
        None => None,
    }
}

/// The message of the report on the text.
fn message_of(source: &Source, report: Report) -> Message
    requires span { IsTrue (is_part (text_bytes source.now) report.span) }
    requires fix { IsTrue (fix_fits (text_bytes source.now) report.fix) }
    ensures { result ≡ message_of source.now.characters report }
{
    parts_lie();
    let start = source.place(report.span.start);
    let end = source.place(report.span.end);
    Message {
        rule: report.rule,
        severity: report.severity,
        text: report.text,
        line: start.line,
        column: start.column,
        end_line: end.line,
        end_column: end.column,
        fix: unit_fix_in(source, report.fix),
        fatal: report.fatal,
    }
}

/// The messages of the reports on the text, in their order.
pub fn messages_of(
    alloc: Global,
    source: &Source,
    reports: Vec<Report>,
) -> Result<Vec<Message>, NoMemory>
    requires spans { IsTrue (reports_fit (text_bytes source.now) reports.items) }
    requires fixes { IsTrue (fixes_fit (text_bytes source.now) reports.items) }
    ensures { IfOk result (λ messages.
        messages.items ≡ map (message_of source.now.characters) reports.items) }
{
    let mut messages = Vec::with_capacity(alloc, reports.len())?;
    for report in reports {
        messages.push(message_of(source, report))?;
    }
    Ok(messages)
}
