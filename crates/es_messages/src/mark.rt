//! Comments that suppress reports or let them stand again.
ghost use Rattle.std.specs.Prelude.{◌≡◌, ◌+◌, IfOk, IsTrue, OnOk, map};
ghost use Rattle.es_text.specs.Spans.{is_part};
ghost use Rattle.es_text.specs.Texts.{text_bytes};
ghost use Rattle.es_messages.specs.Directives.{line_at, mark_kind, mark_of, marks_of, one_line};
ghost use Rattle.es_messages.specs.Joined.{joined};
ghost use Rattle.es_messages.specs.Seen.{seen};
ghost use Rattle.es_messages.specs.Stretches.{listed};

use crate::character::text_of;
use crate::comment::Directive;
use crate::directive::{DirectiveList, Mark, MarkKind};
use crate::part::next_part;
use crate::stretch::Stretch;
use es_text::{Items, NoMemory, Source, Span, Txt, parts_lie};
use std::alloc::Global;

/// What a comment with the directive does to the reports that it names, if it is a mark.
fn mark_kind(source: &Source, span: Span, directive: Directive) -> Option<MarkKind>
    requires { IsTrue (is_part (text_bytes source.now) span) }
    ensures { result ≡ mark_kind source.now.characters span directive }
{
    match directive {
        Directive::Disabling => Some(MarkKind::Disable),
        Directive::Enabling => Some(MarkKind::Enable),
        Directive::DisablingLine => line_of(source, span).map(MarkKind::Line),
        Directive::DisablingNextLine => Some(MarkKind::Line(next_line(source, span))),
        Directive::Setting | Directive::Globals => None,
    }
}

/// The line behind that on which a comment ends. There are no more lines than bytes and one.
fn next_line(source: &Source, span: Span) -> u32
    requires { IsTrue (is_part (text_bytes source.now) span) }
    ensures { result ≡ line_at source.now.characters span.end + 1 }
{
    parts_lie();
    let _text = source.text();
    source.place(span.end).line + 1
}

/// The line of a comment that stands on one.
fn line_of(source: &Source, span: Span) -> Option<u32>
    requires { IsTrue (is_part (text_bytes source.now) span) }
    ensures { result ≡ one_line source.now.characters span }
{
    parts_lie();
    let line = source.place(span.start).line;
    if line == source.place(span.end).line {
        Some(line)
    } else {
        None
    }
}

/// The ids that a list names.
fn rules_in(alloc: Global, rest: Stretch) -> Result<Items<Txt>, NoMemory>
    ensures { IfOk result (λ rules. rules ≡ map (λ one. one.list) (listed (seen rest.entry))) }
{
    let mut rules = Items::new(alloc);
    let mut left = Some(rest);
    while let Some((part, behind)) = next_part(left) {
        rules.push(text_of(alloc, part.list)?)?;
        left = behind;
    }
    Ok(rules)
}

/// Puts the mark behind the earlier ones, if the directive makes one.
pub fn add_mark(
    alloc: Global,
    source: &Source,
    span: Span,
    directive: Directive,
    rest: Stretch,
    list: &mut DirectiveList,
) -> Result<(), NoMemory>
    requires { IsTrue (is_part (text_bytes source.now) span) }
    ensures { OnOk result (list.new
        ≡ joined list.old (marks_of (mark_of source.now.characters span (seen rest.entry) directive))) }
{
    let Some(kind) = mark_kind(source, span, directive) else {
        return Ok(());
    };
    let rules = rules_in(alloc, rest)?;
    list.marks.push(Mark { kind, rules, span })?;
    Ok(())
}
