//! Which reports the marks of a text suppress.
ghost use Rattle.std.specs.Prelude.{◌≡◌, ◌≤◌, IfNone, IfOk, IfSome, IsTrue, List, length, slice_get};
ghost use Rattle.es_text.specs.Spans.{is_part};
ghost use Rattle.es_text.specs.Texts.{text_bytes};
ghost use Rattle.es_messages.specs.Suppression.{governs, is_suppressed, line_of, reports_fit};
ghost use Rattle.es_messages.specs.Suppression.{some_stops, suppressed};
ghost use Rattle.es_messages.specs.Standings.{Splits, stops_behind};

use crate::covering::{covers_on, line_of};
use crate::directive::{Mark, MarkKind};
use crate::unused::unused_reports;
use es_text::{Items, NoMemory, Report, Severity, Source};
use std::alloc::Global;

/// What becomes of the reports of a text, each list in their order.
#[derive(Drop)]
pub struct Suppressed {
    /// Those that stand.
    pub kept: Items<Report>,
    /// Those that marks suppress.
    pub dropped: Items<Report>,
    /// One for each mark of no use, or for each of its rules that it is of no use for.
    pub unused: Items<Report>,
}

/// Whether the mark is no mark for a line, and covers a report that starts on this line by itself.
pub fn governs(line: u32, mark: &Mark, report: &Report) -> bool
    ensures { result ≡ governs line report.now mark.now }
{
    match mark.kind {
        MarkKind::Line(_) => false,
        MarkKind::Disable | MarkKind::Enable => covers_on(line, mark, report),
    }
}

/// Whether the mark covers the report among all marks, where `governed` says whether a later one governs it.
fn stops(line: u32, mark: &Mark, governed: bool, report: &Report) -> bool
    ensures { result ≡ stops_behind governed line report.now mark.now }
{
    match mark.kind {
        MarkKind::Line(_) => covers_on(line, mark, report),
        MarkKind::Disable => !governed && covers_on(line, mark, report),
        MarkKind::Enable => false,
    }
}

/// Whether some mark covers a report that starts on this line.
fn some_stops(line: u32, marks: &[Mark], report: &Report) -> bool
    ensures { result ≡ some_stops line report.now marks.now }
{
    let mut found = false;
    let mut governed = false;
    let mut i = marks.len();
    while i > 0 {
        i -= 1;
        let mark = &marks[i];
        found = found || stops(line, mark, governed, report);
        governed = governed || governs(line, mark, report);
    }
    found
}

/// Whether some mark covers the report.
fn is_suppressed(source: &Source, marks: &[Mark], report: &Report) -> bool
    requires { IsTrue (is_part (text_bytes source.now) report.now.span) }
    ensures { result ≡ is_suppressed source.now.characters marks.now report.now }
{
    some_stops(line_of(source, report), marks, report)
}

/// The reports that stand, and those that marks suppress.
fn split(
    alloc: Global,
    source: &Source,
    mut reports: Vec<Report>,
    marks: &[Mark],
) -> Result<(Vec<Report>, Vec<Report>), NoMemory>
    requires { IsTrue (reports_fit (text_bytes source.now) reports.items) }
    ensures { IfOk result (λ both.
        Splits (is_suppressed source.now.characters marks.now) reports.items both.0.items both.1.items) }
{
    let mut kept = Vec::new(alloc);
    let mut dropped = Vec::new(alloc);
    reports.reverse();
    while let Some(report) = reports.pop() {
        if is_suppressed(source, marks, &report) {
            dropped.push(report)?;
        } else {
            kept.push(report)?;
        }
    }
    Ok((kept, dropped))
}

/// Sorts out the reports that marks suppress, and tells of marks that are of no use, at the given severity, or
/// not at all.
///
/// A report is suppressed where a mark covers it: one for its line that names its rule, or the last of the
/// other marks that name its rule and don't start behind it, if that is `Disable`. A mark that isn't `Enable`
/// is of no use where it covers no report; one that lists rules, for each of them of which it covers none. It
/// takes time in the number of reports times that of marks, and of the rules of those that reach them, and the
/// square of a mark's rules.
pub fn suppress(
    alloc: Global,
    source: &Source,
    reports: Vec<Report>,
    marks: &[Mark],
    unused: Option<Severity>,
) -> Result<Suppressed, NoMemory>
    requires { IsTrue (reports_fit (text_bytes source.now) reports.items) }
    ensures { IfOk result (λ all. all
        ≡ suppressed source.now.characters reports.items marks.now unused) }
{
    let unused = unused_reports(alloc, source, reports.as_slice(), marks, unused)?;
    let (kept, dropped) = split(alloc, source, reports, marks)?;
    Ok(Suppressed {
        kept: Items::from_vec(kept),
        dropped: Items::from_vec(dropped),
        unused: Items::from_vec(unused),
    })
}
