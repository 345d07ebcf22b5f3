//! The reports for marks that are of no use.
ghost use Rattle.std.specs.Prelude.{◌≡◌, [], ◌++◌, Some, All, IfOk, IsTrue, OnOk, map, option_map};
ghost use Rattle.es_text.specs.Texts.{text_bytes};
ghost use Rattle.es_messages.specs.Standings.{IsLast, Stands, is_use_at, is_used_at, report_of};
ghost use Rattle.es_messages.specs.Standings.{told_at, told_each, told_of};
ghost use Rattle.es_messages.specs.Suppression.{is_enable, is_of, reports_fit, unused_at, unused_text};

use crate::covering::{covers_on, is_same, line_of, lists};
use crate::directive::{Mark, MarkKind};
use crate::suppression::governs;
use es_text::{NoMemory, Report, Severity, Source, Txt};
use std::alloc::Global;

/// A report, and how it stands to the marks.
#[derive(Clone, Copy)]
pub struct Standing<'a> {
    pub report: &'a Report,
    /// The line where it starts, from 1.
    pub line: u32,
    /// How many marks there are up to the last one that governs it, and 0 where none does.
    pub last: usize,
}

/// How many of the marks there are up to the last one that governs the report, and 0 where none does.
fn last_of(line: u32, marks: &[Mark], report: &Report) -> usize
    ensures { IsLast line report.now marks.now result }
{
    let mut last = marks.len();
    while last > 0 {
        if governs(line, &marks[last - 1], report) {
            return last;
        }
        last -= 1;
    }
    last
}

/// How each report stands to the marks.
fn standings<'a>(
    alloc: Global,
    source: &Source,
    reports: &'a [Report],
    marks: &[Mark],
) -> Result<Vec<Standing<'a>>, NoMemory>
    requires { IsTrue (reports_fit (text_bytes source.now) reports.now) }
    ensures reports { IfOk result (λ standings. map report_of standings.items ≡ reports.now) }
    ensures all { IfOk result (λ standings.
        All (Stands source.now.characters marks.now) standings.items) }
{
    let mut standings = Vec::new(alloc);
    for report in reports {
        let line = line_of(source, report);
        let last = last_of(line, marks, report);
        standings.push(Standing { report, line, last })?;
    }
    Ok(standings)
}

/// Whether the mark, up to which there are so many, covers the report, and this is of the rule, if one is
/// given.
fn is_use(standing: &Standing, place: usize, mark: &Mark, rule: Option<&Txt>) -> bool
    ensures { result ≡ is_use_at place mark.now (option_map (λ rule. rule.now) rule.entry) standing.now }
{
    let reaches = match mark.kind {
        MarkKind::Line(_) => true,
        MarkKind::Disable => standing.last == place,
        MarkKind::Enable => false,
    };
    reaches && covers_on(standing.line, mark, standing.report) && is_of(rule, standing.report)
}

/// Whether the report is of the rule, if one is given.
fn is_of(rule: Option<&Txt>, report: &Report) -> bool
    ensures { result ≡ is_of (option_map (λ rule. rule.now) rule.entry) report.now }
{
    match (rule, &report.rule) {
        (Some(rule), Some(other)) => is_same(other, rule),
        (Some(_), None) => false,
        (None, _) => true,
    }
}

/// Whether the mark, up to which there are so many, covers a report, of the rule if one is given.
fn is_used(standings: &[Standing], place: usize, mark: &Mark, rule: Option<&Txt>) -> bool
    ensures { result
        ≡ is_used_at standings.now place mark.now (option_map (λ rule. rule.now) rule.entry) }
{
    for standing in standings {
        if is_use(standing, place, mark, rule) {
            return true;
        }
    }
    false
}

/// What is told of a mark that covers no report, of the rule if one is given.
fn unused_text(alloc: Global, rule: Option<&Txt>) -> Result<Txt, NoMemory>
    ensures { IfOk result (λ text. text ≡ unused_text (option_map (λ rule. rule.now) rule.entry)) }
{
    match rule {
        Some(rule) => unused_from(alloc, rule),
        None => Txt::new(alloc, UNUSED),
    }
}

fn unused_from(alloc: Global, rule: &Txt) -> Result<Txt, NoMemory>
    ensures { IfOk result (λ text. text ≡ unused_text (Some rule.now)) }
{
    let mut text = String::from_str(alloc, UNUSED_FROM)?;
    text.push_str(rule.as_str())?;
    text.push_str(UNUSED_END)?;
    Txt::new(alloc, text.as_str())
}

const UNUSED: &str = "Unused eslint-disable directive (no problems were reported).";

const UNUSED_FROM: &str = "Unused eslint-disable directive (no problems were reported from '";

const UNUSED_END: &str = "').";

/// Marks that are of no use are told of at this severity.
#[derive(Clone, Copy)]
pub struct Case<'a> {
    pub standings: &'a [Standing<'a>],
    pub severity: Severity,
}

/// Puts a report behind the others, if the mark, up to which there are so many, covers none, of the rule if one
/// is given.
fn add_if_unused(
    alloc: Global,
    case: &Case,
    place: usize,
    mark: &Mark,
    rule: Option<&Txt>,
    unused: &mut Vec<Report>,
) -> Result<(), NoMemory>
    ensures { OnOk result (unused.new.items ≡ unused.old.items
        ++ told_at case.now.standings.now place case.now.severity mark.now
        (option_map (λ rule. rule.now) rule.entry)) }
{
    if is_used(case.standings, place, mark, rule) {
        return Ok(());
    }
    unused.push(Report {
        rule: None,
        order: 0,
        severity: case.severity,
        text: unused_text(alloc, rule)?,
        span: mark.span,
        fix: None,
        fatal: false,
    })?;
    Ok(())
}

fn is_enable(kind: MarkKind) -> bool
    ensures { result ≡ is_enable kind }
{
    match kind {
        MarkKind::Enable => true,
        MarkKind::Disable | MarkKind::Line(_) => false,
    }
}

/// Puts the reports for the mark, up to which there are so many, behind the others.
fn add_unused(
    alloc: Global,
    case: &Case,
    place: usize,
    mark: &Mark,
    unused: &mut Vec<Report>,
) -> Result<(), NoMemory>
    ensures { OnOk result (unused.new.items ≡ unused.old.items
        ++ told_of case.now.standings.now place case.now.severity mark.now) }
{
    if is_enable(mark.kind) {
        return Ok(());
    }
    let rules = mark.rules.as_slice();
    if rules.is_empty() {
        return add_if_unused(alloc, case, place, mark, None, unused);
    }
    add_each_unused(alloc, case, place, mark, unused)
}

/// Puts the reports for the rules that the mark lists behind the others.
fn add_each_unused(
    alloc: Global,
    case: &Case,
    place: usize,
    mark: &Mark,
    unused: &mut Vec<Report>,
) -> Result<(), NoMemory>
    ensures { OnOk result (unused.new.items ≡ unused.old.items
        ++ told_each case.now.standings.now place case.now.severity mark.now [] mark.now.rules) }
{
    let rules = mark.rules.as_slice();
    for (i, rule) in rules.iter().enumerate() {
        if !lists(&rules[..i], rule) {
            add_if_unused(alloc, case, place, mark, Some(rule), unused)?;
        }
    }
    Ok(())
}

/// The reports for marks that cover nothing, in their order, or none where no severity is given.
pub fn unused_reports(
    alloc: Global,
    source: &Source,
    reports: &[Report],
    marks: &[Mark],
    severity: Option<Severity>,
) -> Result<Vec<Report>, NoMemory>
    requires { IsTrue (reports_fit (text_bytes source.now) reports.now) }
    ensures { IfOk result (λ unused. unused.items
        ≡ unused_at source.now.characters reports.now marks.now severity) }
{
    let mut unused = Vec::new(alloc);
    let Some(severity) = severity else {
        return Ok(unused);
    };
    let standings = standings(alloc, source, reports, marks)?;
    let case = Case {
        standings: standings.as_slice(),
        severity,
    };
    for (i, mark) in marks.iter().enumerate() {
        add_unused(alloc, &case, i + 1, mark, &mut unused)?;
    }
    Ok(unused)
}
