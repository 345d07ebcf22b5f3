ghost use Rattle.std.specs.Prelude.{◌≡◌};
ghost use Rattle.es_text.specs.Spans.{begins_character, is_boundary, is_part};
ghost use Rattle.es_messages.specs.Directives.{comments_fit};
ghost use Rattle.es_messages.specs.Fixes.{fixes_fit};
ghost use Rattle.es_messages.specs.Suppression.{reports_fit};

use crate::comment_texts::{COVERED, DIRECTIVES, REPORTS};
use crate::fix_texts::{Change, FIXES, LONG};
use crate::{
    DirectiveList, FileResult, Mark, MarkKind, Message, UnitFix, apply, covers, directives,
    suppress,
};
use es_settings::GlobalUse;
use es_text::{Comment, Fix, Items, MOST_BYTES, NoMemory, Report, Severity, Source, Span, Txt};
use std::alloc::Global;
use std::test::Fail;

fn is_boundary(text: &str, at: u32) -> bool
    ensures { result ≡ is_boundary text.now at }
{
    let bytes = text.as_bytes();
    let at = at as usize;
    if at < bytes.len() {
        bytes[at] < 128 || 192 <= bytes[at]
    } else {
        at == bytes.len()
    }
}

fn fits(text: &str, span: Span) -> bool
    ensures { result ≡ is_part text.now span }
{
    span.start <= span.end && is_boundary(text, span.start) && is_boundary(text, span.end)
}

fn comments_fit(text: &str, comments: &[Comment]) -> bool
    ensures { result ≡ comments_fit text.now comments.now }
{
    comments.iter().all(|comment| fits(text, comment.span))
}

fn reports_fit(text: &str, reports: &[Report]) -> bool
    ensures { result ≡ reports_fit text.now reports.now }
{
    reports.iter().all(|report| fits(text, report.span))
}

fn fixes_fit(text: &str, fixes: &[Fix]) -> bool
    ensures { result ≡ fixes_fit text.now fixes.now }
{
    fixes.iter().all(|fix| fits(text, fix.span))
}

/// Where the scan of a text stands.
#[derive(Clone, Copy)]
enum Within {
    Code,
    Block(u32),
    Line(u32),
}

/// Where the scan stands behind the byte at `at`, and the comment that ends with it.
fn step(within: Within, before: u8, byte: u8, at: u32) -> (Within, Option<Comment>) {
    let from = at.saturating_sub(1);
    let end = at.saturating_add(1);
    match within {
        Within::Code => {
            if before == b'/' && byte == b'*' {
                (Within::Block(from), None)
            } else if (before == b'/' && byte == b'/') || (before == b'#' && byte == b'!') {
                (Within::Line(from), None)
            } else {
                (within, None)
            }
        }
        Within::Block(start) => {
            if before == b'*' && byte == b'/' && from > start.saturating_add(1) {
                let span = Span { start, end };
                (Within::Code, Some(Comment { block: true, span }))
            } else {
                (within, None)
            }
        }
        Within::Line(start) => {
            if byte == b'\n' {
                let span = Span { start, end: at };
                (Within::Code, Some(Comment { block: false, span }))
            } else {
                (within, None)
            }
        }
    }
}

/// The comments of a text without literals, and a report for each small letter of its code, of the rule of that
/// name, and one without rule for each `?`.
fn scan(alloc: Global, text: &str) -> Result<(Vec<Comment>, Vec<Report>), NoMemory> {
    let mut comments = Vec::new(alloc);
    let mut reports = Vec::new(alloc);
    let mut within = Within::Code;
    let mut before = b' ';
    let mut at = 0u32;
    for byte in text.as_bytes() {
        let (next, comment) = step(within, before, *byte, at);
        if let Some(comment) = comment {
            comments.push(comment)?;
        } else if matches!(next, Within::Code) && (byte.is_ascii_lowercase() || *byte == b'?') {
            let end = at.saturating_add(1);
            reports.push(report_of(alloc, *byte, Span { start: at, end })?)?;
        }
        within = next;
        before = *byte;
        at = at.saturating_add(1);
    }
    if let Within::Line(start) = within {
        let span = Span { start, end: at };
        comments.push(Comment { block: false, span })?;
    }
    Ok((comments, reports))
}

fn report_of(alloc: Global, letter: u8, span: Span) -> Result<Report, NoMemory> {
    let mut id = String::new(alloc);
    id.push(char::from(letter))?;
    let rule = if letter == b'?' {
        None
    } else {
        Some(Txt::new(alloc, id.as_str())?)
    };
    Ok(Report {
        rule,
        order: 3,
        severity: Severity::Error,
        text: Txt::new(alloc, "told")?,
        span,
        fix: None,
        fatal: false,
    })
}

/// In the texts of the tables `␊` stands for LF, `␍` for CR, `␉` for a tab, `⍽` for a no-break space, and `␤` for
/// U+2028.
fn text_of(alloc: Global, case: &str) -> Result<String, NoMemory> {
    let mut text = String::new(alloc);
    for c in case.chars() {
        text.push(match c {
            '␊' => '\n',
            '␍' => '\r',
            '␉' => '\t',
            '⍽' => '\u{a0}',
            '␤' => '\u{2028}',
            c => c,
        })?;
    }
    Ok(text)
}

fn severity_text(severity: Option<Severity>) -> &'static str {
    match severity {
        Some(Severity::Warn) => "warn",
        Some(Severity::Error) => "error",
        None => "off",
    }
}

fn tell_mark(alloc: Global, mark: &Mark, told: &mut String) -> Result<(), NoMemory> {
    match mark.kind {
        MarkKind::Disable => told.push_str("disable")?,
        MarkKind::Enable => told.push_str("enable")?,
        MarkKind::Line(line) => {
            let line = format!(in alloc; "line {line}")?;
            told.push_str(line.as_str())?;
        }
    }
    for rule in mark.rules.as_slice() {
        let rule = rule.as_str();
        let rule = format!(in alloc; " «{rule}»")?;
        told.push_str(rule.as_str())?;
    }
    told.push_str(";")?;
    Ok(())
}

fn tell_settings(
    alloc: Global,
    text: &str,
    list: &DirectiveList,
    told: &mut String,
) -> Result<(), NoMemory> {
    for entry in list.entries.as_slice() {
        let rule = entry.rule.as_str();
        let severity = severity_text(entry.severity);
        let part = match text.get(entry.span.start as usize..entry.span.end as usize) {
            Some(part) => part,
            None => "no part",
        };
        let entry = format!(in alloc; "set «{rule}» {severity} by «{part}»;")?;
        told.push_str(entry.as_str())?;
    }
    for global in list.globals.as_slice() {
        let name = global.0.as_str();
        let value = match global.1 {
            GlobalUse::On => "on",
            GlobalUse::Off => "off",
        };
        let global = format!(in alloc; "global «{name}» {value};")?;
        told.push_str(global.as_str())?;
    }
    for bad in list.bad.as_slice() {
        let part = bad.text.as_str();
        let bad = format!(in alloc; "bad «{part}»;")?;
        told.push_str(bad.as_str())?;
    }
    Ok(())
}

fn told_directives(alloc: Global, text: &str, list: &DirectiveList) -> Result<String, NoMemory> {
    let mut told = String::new(alloc);
    for mark in list.marks.as_slice() {
        tell_mark(alloc, mark, &mut told)?;
    }
    tell_settings(alloc, text, list, &mut told)?;
    Ok(told)
}

#[test]
fn comments(rt: HostRuntime) -> Result<(), Fail> {
    let alloc = rt.alloc();
    for &(case, want) in &DIRECTIVES {
        let text = text_of(alloc, case)?;
        let source = Source::from_text(alloc, text.as_str())?;
        let (comments, _) = scan(alloc, source.text())?;
        assert!(rt; comments_fit(source.text(), &comments), "in {case}");
        let list = directives(alloc, &source, &comments)?;
        let told = told_directives(alloc, source.text(), &list)?;
        let want = text_of(alloc, want)?;
        assert_eq!(rt; told.as_str(), want.as_str(), "in {case}");
    }
    Ok(())
}

fn told_report(alloc: Global, source: &Source, report: &Report) -> Result<String, NoMemory> {
    let rule = match &report.rule {
        Some(rule) => rule.as_str(),
        None => "?",
    };
    let line = if fits(source.text(), report.span) {
        source.place(report.span.start).line
    } else {
        0
    };
    Ok(format!(in alloc; "{rule}{line}")?)
}

const NO_USE: &str = "Unused eslint-disable directive (no problems were reported).";

const NO_USE_FROM: &str = "Unused eslint-disable directive (no problems were reported from '";

/// The rule for which a mark is of no use, and the line of the mark.
fn told_unused(alloc: Global, source: &Source, report: &Report) -> Result<String, NoMemory> {
    let text = report.text.as_str();
    let rule = if text == NO_USE {
        "any"
    } else {
        match text.strip_prefix(NO_USE_FROM) {
            Some(rest) => match rest.strip_suffix("').") {
                Some(rule) => rule,
                None => "no rule",
            },
            None => "no text",
        }
    };
    let told = told_report(alloc, source, report)?;
    let is_plain = report.order == 0 && !report.fatal && report.severity == Severity::Warn;
    let told = if is_plain { told.as_str() } else { "not plain" };
    Ok(format!(in alloc; "{rule}@{told}")?)
}

fn told_all(
    alloc: Global,
    source: &Source,
    reports: &[Report],
    are_unused: bool,
) -> Result<String, NoMemory> {
    let mut told = String::new(alloc);
    for report in reports {
        if !told.is_empty() {
            told.push(' ')?;
        }
        let one = if are_unused {
            told_unused(alloc, source, report)?
        } else {
            told_report(alloc, source, report)?
        };
        told.push_str(one.as_str())?;
    }
    Ok(told)
}

#[test]
fn suppressions(rt: HostRuntime) -> Result<(), Fail> {
    let alloc = rt.alloc();
    for &(case, kept, dropped, unused) in &REPORTS {
        let text = text_of(alloc, case)?;
        let source = Source::from_text(alloc, text.as_str())?;
        let (comments, reports) = scan(alloc, source.text())?;
        let (_, same) = scan(alloc, source.text())?;
        assert!(rt; comments_fit(source.text(), &comments), "in {case}");
        let list = directives(alloc, &source, &comments)?;
        let marks = list.marks.as_slice();
        assert!(rt; reports_fit(source.text(), reports.as_slice()), "in {case}");
        assert!(rt; reports_fit(source.text(), same.as_slice()), "in {case}");
        let all = suppress(alloc, &source, reports, marks, Some(Severity::Warn))?;
        let told = told_all(alloc, &source, all.kept.as_slice(), false)?;
        assert_eq!(rt; told.as_str(), kept, "in {case}");
        let told = told_all(alloc, &source, all.dropped.as_slice(), false)?;
        assert_eq!(rt; told.as_str(), dropped, "in {case}");
        let told = told_all(alloc, &source, all.unused.as_slice(), true)?;
        assert_eq!(rt; told.as_str(), unused, "in {case}");
        let all = suppress(alloc, &source, same, marks, None)?;
        assert_eq!(rt; all.unused.len(), 0, "in {case}");
    }
    Ok(())
}

#[test]
fn coverings(rt: HostRuntime) -> Result<(), Fail> {
    let alloc = rt.alloc();
    for &(case, want) in &COVERED {
        let text = text_of(alloc, case)?;
        let source = Source::from_text(alloc, text.as_str())?;
        let (comments, reports) = scan(alloc, source.text())?;
        assert!(rt; comments_fit(source.text(), &comments), "in {case}");
        let list = directives(alloc, &source, &comments)?;
        let mut told = String::new(alloc);
        for mark in list.marks.as_slice() {
            for report in &reports {
                assert!(rt; fits(source.text(), report.span), "in {case}");
                told.push(if covers(mark, &source, report) {
                    'Y'
                } else {
                    'N'
                })?;
            }
        }
        assert_eq!(rt; told.as_str(), want, "in {case}");
    }
    Ok(())
}

fn fixes_of(alloc: Global, changes: &[Change]) -> Result<Vec<Fix>, NoMemory> {
    let mut fixes = Vec::new(alloc);
    for &(start, end, text) in changes {
        let text = Txt::new(alloc, text)?;
        let span = Span { start, end };
        fixes.push(Fix { span, text })?;
    }
    Ok(fixes)
}

fn told_taken(alloc: Global, taken: &[bool]) -> Result<String, NoMemory> {
    let mut told = String::new(alloc);
    for one in taken {
        told.push(if *one { 'Y' } else { 'N' })?;
    }
    Ok(told)
}

#[test]
fn passes(rt: HostRuntime) -> Result<(), Fail> {
    let alloc = rt.alloc();
    for (text, changes, want, taken) in &FIXES {
        let source = Source::from_text(alloc, text)?;
        let fixes = fixes_of(alloc, changes)?;
        assert!(rt; fixes_fit(source.text(), &fixes), "in {text}");
        let applied = apply(alloc, &source, &fixes)?;
        assert_eq!(rt; applied.text.as_str(), *want, "in {text}");
        let told = told_taken(alloc, applied.taken.as_slice())?;
        assert_eq!(rt; told.as_str(), *taken, "in {text}");
    }
    Ok(())
}

/// How often a text of one byte is doubled, so that it has the most bytes that a file may have.
const DOUBLINGS: usize = 21;

#[test]
fn long_texts(rt: HostRuntime) -> Result<(), Fail> {
    let alloc = rt.alloc();
    let mut text = String::from_str(alloc, "a")?;
    for _ in 0..DOUBLINGS {
        let half = String::from_str(alloc, text.as_str())?;
        text.push_str(half.as_str())?;
    }
    let source = Source::from_text(alloc, text.as_str())?;
    for (changes, begin, taken) in &LONG {
        let fixes = fixes_of(alloc, changes)?;
        assert!(rt; fixes_fit(source.text(), &fixes), "at {taken}");
        let applied = apply(alloc, &source, &fixes)?;
        assert_eq!(rt; applied.text.as_str().len(), MOST_BYTES, "at {taken}");
        assert!(rt; applied.text.as_str().starts_with(*begin), "at {taken}");
        let told = told_taken(alloc, applied.taken.as_slice())?;
        assert_eq!(rt; told.as_str(), *taken);
    }
    Ok(())
}

fn message_of(alloc: Global, with: bool) -> Result<Message, NoMemory> {
    let text = Txt::new(alloc, "größer")?;
    let fix = UnitFix {
        start: 4,
        end: 5,
        text: Txt::new(alloc, ";")?,
    };
    Ok(Message {
        rule: if with {
            Some(Txt::new(alloc, "semi")?)
        } else {
            None
        },
        severity: Severity::Warn,
        text,
        line: 1,
        column: 2,
        end_line: 3,
        end_column: 4,
        fix: if with { Some(fix) } else { None },
        fatal: !with,
    })
}

/// A message in one line.
fn told_message(alloc: Global, message: &Message) -> Result<String, NoMemory> {
    let rule = match &message.rule {
        Some(rule) => rule.as_str(),
        None => "none",
    };
    let fix = match &message.fix {
        Some(fix) => format!(in alloc; "{}-{} {}", fix.start, fix.end, fix.text.as_str())?,
        None => String::from_str(alloc, "none")?,
    };
    let severity = severity_text(Some(message.severity));
    let (text, fix, fatal) = (message.text.as_str(), fix.as_str(), message.fatal);
    let (line, column) = (message.line, message.column);
    let (end_line, end_column) = (message.end_line, message.end_column);
    Ok(format!(in alloc;
        "{rule} {severity} {text} {line}:{column} {end_line}:{end_column} {fix} {fatal}"
    )?)
}

#[test]
fn copies(rt: HostRuntime) -> Result<(), Fail> {
    let alloc = rt.alloc();
    let mut messages = Items::new(alloc);
    messages.push(message_of(alloc, true)?)?;
    messages.push(message_of(alloc, false)?)?;
    let result = FileResult {
        messages,
        suppressed: Items::new(alloc),
        output: Some(Txt::new(alloc, "a;")?),
    };
    let copy = result.copy(alloc)?;
    let [first, second] = copy.messages.as_slice() else {
        panic!(rt; "two messages");
    };
    let told = told_message(alloc, first)?;
    assert_eq!(rt; told.as_str(), "semi warn größer 1:2 3:4 4-5 ; false");
    let told = told_message(alloc, second)?;
    assert_eq!(rt; told.as_str(), "none warn größer 1:2 3:4 none true");
    assert_eq!(rt; copy.suppressed.len(), 0);
    assert_eq!(rt;
        copy.output.as_ref().map(|output| output.as_str()),
        Some("a;")
    );
    Ok(())
}
