//! Comments that set which names are global variables.
ghost use Rattle.std.specs.Prelude.{◌≡◌, [], ◌∷◌, false, IfOk, OnOk, option_map};
ghost use Rattle.es_messages.specs.Directives.{around_colons, behind_colons, global_of, globals_of, use_of, words};
ghost use Rattle.es_messages.specs.Joined.{joined};

use crate::character::{Class, is_blank, is_word, run, text_of};
use crate::directive::{BadEntry, DirectiveList};
use crate::part::next_word;
use es_settings::GlobalUse;
use es_text::{NoMemory, Span};
use std::alloc::Global;

/// The characters without the white space behind each colon.
fn behind_colons(alloc: Global, text: &[char]) -> Result<Vec<char>, NoMemory>
    ensures { IfOk result (λ kept. kept.items ≡ behind_colons false text.now) }
{
    let mut kept = Vec::new(alloc);
    let mut after = false;
    for c in text {
        if !(after && is_blank(*c)) {
            kept.push(*c)?;
            after = *c == ':';
        }
    }
    Ok(kept)
}

/// The characters without the white space on either side of each colon.
fn around_colons(alloc: Global, text: &[char]) -> Result<Vec<char>, NoMemory>
    ensures { IfOk result (λ kept. kept.items ≡ around_colons text.now) }
{
    let mut kept = behind_colons(alloc, text)?;
    kept.reverse();
    let mut kept = behind_colons(alloc, &kept)?;
    kept.reverse();
    Ok(kept)
}

/// How a name is used.
fn use_of(word: &[char]) -> Option<GlobalUse>
    ensures { result ≡ use_of word.now }
{
    if is_word(word, b"off") {
        Some(GlobalUse::Off)
    } else if is_word(word, b"readonly") || is_word(word, b"readable") {
        Some(GlobalUse::On)
    } else if is_word(word, b"writable") || is_word(word, b"writeable") {
        Some(GlobalUse::On)
    } else if is_word(word, b"true") || is_word(word, b"false") {
        Some(GlobalUse::On)
    } else {
        None
    }
}

/// The name that the part sets, and how it is used, if it is `name` or `name:value`.
fn global_of(part: &[char]) -> Option<(&[char], GlobalUse)>
    ensures { option_map (λ found. (found.0.now, found.1)) result ≡ global_of part.now }
{
    let n = run(Class::NoColon, part);
    if n == 0 {
        return None;
    }
    if n == part.len() {
        return Some((part, GlobalUse::On));
    }
    match use_of(&part[n + 1..]) {
        Some(value) => Some((&part[..n], value)),
        None => None,
    }
}

/// Puts what a part sets behind what earlier ones do, or the part behind those of other forms.
fn add_global(
    alloc: Global,
    span: Span,
    part: &[char],
    list: &mut DirectiveList,
) -> Result<(), NoMemory>
    ensures { OnOk result (list.new ≡ joined list.old (globals_of span (part.now ∷ []))) }
{
    match global_of(part) {
        Some((name, value)) => list.globals.push((text_of(alloc, name)?, value))?,
        None => list.bad.push(BadEntry {
            text: text_of(alloc, part)?,
            span,
        })?,
    }
    Ok(())
}

/// Puts what the parts set behind what earlier ones do, and those of another form behind earlier ones; `span`
/// is the comment's.
pub fn add_globals(
    alloc: Global,
    span: Span,
    text: &[char],
    list: &mut DirectiveList,
) -> Result<(), NoMemory>
    ensures { OnOk result (list.new ≡ joined list.old (globals_of span (words (around_colons text.now)))) }
{
    let text = around_colons(alloc, text)?;
    let mut rest = text.as_slice();
    while let Some((part, behind)) = next_word(rest) {
        add_global(alloc, span, part, list)?;
        rest = behind;
    }
    Ok(())
}
