//! Comments that set how serious the reports of rules are.
ghost use Rattle.std.specs.Prelude.{◌≡◌, [], ◌∷◌, IfOk, OnOk};
ghost use Rattle.es_messages.specs.Directives.{ends_in, entry_of, is_quote, settings_of, severity_of, stripped, unquoted};
ghost use Rattle.es_messages.specs.Stretches.{listed};
ghost use Rattle.es_messages.specs.Joined.{joined};
ghost use Rattle.es_messages.specs.Seen.{seen};

use crate::character::{Class, is_word, len_without_end, run, text_of};
use crate::directive::{BadEntry, DirectiveList, Entry};
use crate::part::next_part;
use crate::stretch::Stretch;
use es_text::{NoMemory, Severity, Span};
use std::alloc::Global;

/// The characters without white space at their ends.
fn stripped(text: &[char]) -> &[char]
    ensures { result.now ≡ stripped text.now }
{
    let rest = &text[run(Class::Blank, text)..];
    &rest[..len_without_end(rest)]
}

/// The characters without one pair of equal quotes around them.
fn unquoted(text: &[char]) -> &[char]
    ensures { result.now ≡ unquoted text.now }
{
    let [quote, rest @ ..] = text else {
        return text;
    };
    if is_quote(*quote) && ends_in(*quote, rest) {
        &rest[..rest.len() - 1]
    } else {
        text
    }
}

fn is_quote(c: char) -> bool
    ensures { result ≡ is_quote c }
{
    c == '"' || c == '\''
}

/// Whether the character stands at the end.
fn ends_in(c: char, text: &[char]) -> bool
    ensures { result ≡ ends_in c text.now }
{
    !text.is_empty() && text[text.len() - 1] == c
}

/// The severity that the word is: `Some(None)` for `off`.
fn severity_of(word: &[char]) -> Option<Option<Severity>>
    ensures { result ≡ severity_of word.now }
{
    if is_word(word, b"off") || is_word(word, b"0") {
        Some(None)
    } else if is_word(word, b"warn") || is_word(word, b"1") {
        Some(Some(Severity::Warn))
    } else if is_word(word, b"error") || is_word(word, b"2") {
        Some(Some(Severity::Error))
    } else {
        None
    }
}

/// What the part sets, if it is a rule and a severity with a colon between them.
fn entry_of(alloc: Global, part: Stretch) -> Result<Option<Entry>, NoMemory>
    ensures { IfOk result (λ entry. entry ≡ entry_of (seen part.entry)) }
{
    let n = run(Class::NoColon, part.list);
    if n == part.list.len() {
        return Ok(None);
    }
    let Some(severity) = severity_of(unquoted(stripped(&part.list[n + 1..]))) else {
        return Ok(None);
    };
    Ok(Some(Entry {
        rule: text_of(alloc, unquoted(stripped(&part.list[..n])))?,
        severity,
        span: part.span(),
    }))
}

/// Puts what a part sets behind what earlier ones do, or the part behind those of other forms.
fn add_setting(
    alloc: Global,
    span: Span,
    part: Stretch,
    list: &mut DirectiveList,
) -> Result<(), NoMemory>
    ensures { OnOk result (list.new ≡ joined list.old (settings_of span (seen part.entry ∷ []))) }
{
    match entry_of(alloc, part)? {
        Some(entry) => list.entries.push(entry)?,
        None => list.bad.push(BadEntry {
            text: text_of(alloc, part.list)?,
            span,
        })?,
    }
    Ok(())
}

/// Puts what the parts of a list set behind what earlier ones do, and those of another form behind earlier
/// ones; `span` is the comment's.
pub fn add_settings(
    alloc: Global,
    span: Span,
    rest: Stretch,
    list: &mut DirectiveList,
) -> Result<(), NoMemory>
    ensures { OnOk result (list.new ≡ joined list.old (settings_of span (listed (seen rest.entry)))) }
{
    let mut left = Some(rest);
    while let Some((part, behind)) = next_part(left) {
        add_setting(alloc, span, part, list)?;
        left = behind;
    }
    Ok(())
}
