//! Reads the directives in the comments of a text.
ghost use Rattle.std.specs.Prelude.{◌≡◌, IfOk, IsTrue, OnOk};
ghost use Rattle.es_text.specs.Spans.{is_part};
ghost use Rattle.es_text.specs.Texts.{text_bytes};
ghost use Rattle.es_messages.specs.Directives.{comments_fit, directives, said, says};
ghost use Rattle.es_messages.specs.Joined.{joined};
ghost use Rattle.es_messages.specs.Seen.{seen};

use crate::character::{Class, characters_of, run};
use crate::comment::{Directive, directive_of, text_in};
use crate::directive::DirectiveList;
use crate::entry::add_settings;
use crate::global::add_globals;
use crate::mark::add_mark;
use crate::stretch::Stretch;
use es_text::{Comment, Items, NoMemory, Source, Span, parts_lie};
use std::alloc::Global;

/// Puts what a directive says behind what earlier ones do, where this follows its word.
fn add_said(
    alloc: Global,
    source: &Source,
    span: Span,
    directive: Directive,
    rest: Stretch,
    list: &mut DirectiveList,
) -> Result<(), NoMemory>
    requires { IsTrue (is_part (text_bytes source.now) span) }
    ensures { OnOk result (list.new
        ≡ joined list.old (says source.now.characters span (seen rest.entry) directive)) }
{
    match directive {
        Directive::Setting => add_settings(alloc, span, rest, list),
        Directive::Globals => add_globals(alloc, span, rest.list, list),
        _ => add_mark(alloc, source, span, directive, rest, list),
    }
}

/// Puts what a comment says behind what earlier ones do.
fn read_comment(
    alloc: Global,
    source: &Source,
    comment: Comment,
    list: &mut DirectiveList,
) -> Result<(), NoMemory>
    requires { IsTrue (is_part (text_bytes source.now) comment.span) }
    ensures { OnOk result (list.new ≡ joined list.old (said source.now comment)) }
{
    parts_lie();
    let text = source.text();
    let span = comment.span;
    let characters = characters_of(alloc, &text[span.start as usize..span.end as usize])?;
    let whole = Stretch {
        at: span.start,
        list: &characters,
    };
    let text = text_in(comment.block, whole);
    let n = run(Class::NoBlank, text.list);
    match directive_of(comment.block, &text.list[..n]) {
        Some(directive) => add_said(alloc, source, comment.span, directive, text.behind(n), list),
        None => Ok(()),
    }
}

/// What the comments of a text say, each list in their order.
///
/// It takes time and memory in the length of the comments, and for each mark for a line the search for a
/// place.
pub fn directives(
    alloc: Global,
    source: &Source,
    comments: &[Comment],
) -> Result<DirectiveList, NoMemory>
    requires { IsTrue (comments_fit (text_bytes source.now) comments.now) }
    ensures { IfOk result (λ list. list ≡ directives source.now comments.now) }
{
    let mut list = DirectiveList {
        marks: Items::new(alloc),
        entries: Items::new(alloc),
        bad: Items::new(alloc),
        globals: Items::new(alloc),
    };
    for comment in comments {
        read_comment(alloc, source, *comment, &mut list)?;
    }
    Ok(list)
}
