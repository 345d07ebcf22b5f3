//! Which reports marks cover.
ghost use Rattle.std.specs.Prelude.{◌≡◌, IsTrue};
ghost use Rattle.std.specs.Str.{bytes_eq};
ghost use Rattle.es_text.specs.Spans.{is_part};
ghost use Rattle.es_text.specs.Texts.{text_bytes};
ghost use Rattle.es_messages.specs.Suppression.{covers, covers_on, is_reached, line_of, lists, names};

use crate::directive::{Mark, MarkKind};
use es_text::{Report, Source, Txt, parts_lie};

/// Whether these ids name the rule: it is one of them, or there are none.
fn names(ids: &[Txt], rule: &Option<Txt>) -> bool
    ensures { result ≡ names ids.now rule.now }
{
    match rule {
        Some(rule) => ids.is_empty() || lists(ids, rule),
        None => false,
    }
}

/// Whether the texts are the same.
pub fn is_same(a: &Txt, b: &Txt) -> bool
    ensures { result ≡ bytes_eq a.now b.now }
{
    a.as_str() == b.as_str()
}

/// Whether one of the ids is this one.
pub fn lists(ids: &[Txt], id: &Txt) -> bool
    ensures { result ≡ lists ids.now id.now }
{
    for other in ids {
        if is_same(other, id) {
            return true;
        }
    }
    false
}

/// Whether the mark reaches a report that starts on this line: it is for the line, or another one that doesn't
/// start behind the report's start.
fn is_reached(line: u32, mark: &Mark, report: &Report) -> bool
    ensures { result ≡ is_reached line mark.now.kind mark.now.span.start report.now.span.start }
{
    match mark.kind {
        MarkKind::Line(of) => line == of,
        MarkKind::Disable | MarkKind::Enable => mark.span.start <= report.span.start,
    }
}

/// Whether the mark covers a report that starts on this line, as `covers` says. Its rules are read only where
/// it reaches the report.
pub fn covers_on(line: u32, mark: &Mark, report: &Report) -> bool
    ensures { result ≡ covers_on line mark.now report.now }
{
    is_reached(line, mark, report) && names(mark.rules.as_slice(), &report.rule)
}

/// Whether a mark for a line names the report's rule and the report starts on that line; of the other marks,
/// whether it names the rule and doesn't start behind the report's start.
pub fn covers(mark: &Mark, source: &Source, report: &Report) -> bool
    requires { IsTrue (is_part (text_bytes source.now) report.now.span) }
    ensures { result ≡ covers source.now.characters mark.now report.now }
{
    covers_on(line_of(source, report), mark, report)
}

/// The line on which the report starts, from 1.
pub fn line_of(source: &Source, report: &Report) -> u32
    requires { IsTrue (is_part (text_bytes source.now) report.now.span) }
    ensures { result ≡ line_of source.now.characters report.now }
{
    parts_lie();
    source.place(report.span.start).line
}
