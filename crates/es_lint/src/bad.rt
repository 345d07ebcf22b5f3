//! The reports of parts of comments that set nothing.
ghost use Rattle.std.specs.Prelude.{◌≡◌, [], ◌∷◌, ◌++◌, IfOk, IsTrue, MatchOption, OnOk, slice_range};
ghost use Rattle.std.specs.Str.{chars};
ghost use Rattle.es_text.specs.Spans.{LiesIn};
ghost use Rattle.es_text.specs.Texts.{text_bytes};
ghost use Rattle.es_messages.specs.Directives.{comments_fit};
ghost use Rattle.es_lint.specs.Bad.{bad_in, bad_of, bad_report, bad_text, misshapen_in, quoted, unknown_in};

use es_messages::{BadEntry, Entry, directives, lists};
use es_text::{Comment, NoMemory, Report, Severity, Source, Span, Txt, parts_lie};
use std::alloc::Global;

/// What is told of this part.
fn bad_text(alloc: Global, part: &str) -> Result<Txt, NoMemory>
    ensures { IfOk result (λ text. text ≡ bad_text (chars part.now)) }
{
    let mut text = String::from_str(alloc, BAD)?;
    text.push_str(part)?;
    text.push_str(BAD_END)?;
    Txt::new(alloc, text.as_str())
}

const BAD: &str = "Bad inline entry '";

const BAD_END: &str = "'.";

/// The report of this part of the comment at this span.
fn bad_report(alloc: Global, span: Span, part: &str) -> Result<Report, NoMemory>
    ensures { IfOk result (λ report. report ≡ bad_report span (chars part.now)) }
{
    Ok(Report {
        rule: None,
        order: 0,
        severity: Severity::Error,
        text: bad_text(alloc, part)?,
        span,
        fix: None,
        fatal: false,
    })
}

/// The part of the text at the span, if the span lies in it.
fn part_at(text: &str, span: Span) -> Option<&str>
    ensures { MatchOption result (LiesIn text.now span → ⊥)
        (λ part. LiesIn text.now span × (part.now ≡ slice_range text.now span.start span.end)) }
{
    let start = span.start as usize;
    let end = span.end as usize;
    if start > end {
        return None;
    }
    if !text.is_char_boundary(start) {
        return None;
    }
    if !text.is_char_boundary(end) {
        return None;
    }
    Some(&text[start..end])
}

/// The part of the text at the span.
fn quoted(source: &Source, span: Span) -> &str
    ensures { chars result.now ≡ quoted (text_bytes source.now) span }
{
    parts_lie();
    match part_at(source.text(), span) {
        Some(part) => part,
        None => "",
    }
}

/// Puts the reports of parts of another form behind the others.
fn add_misshapen(
    alloc: Global,
    span: Span,
    parts: &[BadEntry],
    reports: &mut Vec<Report>,
) -> Result<(), NoMemory>
    ensures { OnOk result (reports.new.items ≡ reports.old.items ++ misshapen_in span parts.now) }
{
    for part in parts {
        reports.push(bad_report(alloc, span, part.text.as_str())?)?;
    }
    Ok(())
}

/// Puts the report of an entry for none of the rules with these ids behind the others.
fn add_if_unknown(
    alloc: Global,
    source: &Source,
    ids: &[Txt],
    span: Span,
    entry: &Entry,
    reports: &mut Vec<Report>,
) -> Result<(), NoMemory>
    ensures { OnOk result (reports.new.items
        ≡ reports.old.items ++ unknown_in ids.now (text_bytes source.now) span (entry.now ∷ [])) }
{
    if lists(ids, &entry.rule) {
        return Ok(());
    }
    reports.push(bad_report(alloc, span, quoted(source, entry.span))?)?;
    Ok(())
}

/// Puts the reports of entries for none of the rules with these ids behind the others.
fn add_unknown(
    alloc: Global,
    source: &Source,
    ids: &[Txt],
    span: Span,
    entries: &[Entry],
    reports: &mut Vec<Report>,
) -> Result<(), NoMemory>
    ensures { OnOk result (reports.new.items
        ≡ reports.old.items ++ unknown_in ids.now (text_bytes source.now) span entries.now) }
{
    for entry in entries {
        add_if_unknown(alloc, source, ids, span, entry, reports)?;
    }
    Ok(())
}

/// Puts the reports of parts of a comment that set nothing, where the rules have these ids, behind the others.
fn add_bad_of(
    alloc: Global,
    source: &Source,
    ids: &[Txt],
    comment: Comment,
    reports: &mut Vec<Report>,
) -> Result<(), NoMemory>
    requires { IsTrue (comments_fit (text_bytes source.now) (comment ∷ [])) }
    ensures { OnOk result (reports.new.items ≡ reports.old.items ++ bad_of ids.now source.now comment) }
{
    let list = directives(alloc, source, &[comment])?;
    let bad = list.bad.as_slice();
    let entries = list.entries.as_slice();
    add_misshapen(alloc, comment.span, bad, reports)?;
    add_unknown(alloc, source, ids, comment.span, entries, reports)?;
    Ok(())
}

/// Puts the reports of parts that set nothing, of each comment and where the rules have these ids, behind the
/// others.
pub fn add_bad(
    alloc: Global,
    source: &Source,
    ids: &[Txt],
    comments: &[Comment],
    reports: &mut Vec<Report>,
) -> Result<(), NoMemory>
    requires { IsTrue (comments_fit (text_bytes source.now) comments.now) }
    ensures { OnOk result
        (reports.new.items ≡ reports.old.items ++ bad_in ids.now source.now comments.now) }
{
    for comment in comments {
        add_bad_of(alloc, source, ids, *comment, reports)?;
    }
    Ok(())
}
