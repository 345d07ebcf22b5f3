//! White space at the ends of lines.
ghost use Rattle.std.specs.Prelude.{◌≡◌, ◌+◌, ◌<◌, ◌≤◌, ◌++◌, [], drop, false, if◌then◌else◌, length, All, IfOk, IsTrue, OnOk};
ghost use Rattle.std.specs.Char.{encode_utf8, len_utf8};
ghost use Rattle.std.specs.Str.{IsCharBoundary, chars};
ghost use Rattle.es_text.specs.Characters.{is_line_terminator, is_white_space};
ghost use Rattle.es_text.specs.Spans.{is_part};
ghost use Rattle.es_text.specs.declared.source.TheConstants.{MOST_TEXT_BYTES};
ghost use Rattle.es_rules_plain.specs.TrailingSpaces.{blank_between, trailing};

use es_text::{NoMemory, Span, parts_lie};
use std::alloc::Global;

/// The white space at the ends of the lines of the text, in the order of the text.
///
/// It takes time in the length of the text.
pub fn trailing(alloc: Global, text: &str) -> Result<Vec<Span>, NoMemory>
    requires { length text.now ≤ MOST_TEXT_BYTES }
    ensures spans { IfOk result (λ spans. spans.items ≡ trailing (chars text.now)) }
    ensures parts { IfOk result (λ spans. All (λ span. IsTrue (is_part text.now span)) spans.items) }
{
    parts_lie();
    let mut spans = Vec::new(alloc);
    // Where the white space begins that ends at `at`; `at` itself where none does.
    let mut from = 0;
    let mut at = 0;
    while at < text.len() {
        let c = char_at(text, at);
        let behind = at + c.len_utf8();
        from = step(c, from, at, behind, &mut spans)?;
        at = behind;
    }
    put_blank(from, at, &mut spans)?;
    Ok(spans)
}

/// The character that begins at an offset.
fn char_at(text: &str, at: usize) -> char
    requires boundary { IsCharBoundary text.now at }
    requires inside { at < length text.now }
    ensures { drop at text.now ≡ encode_utf8 result ++ drop (at + len_utf8 result) text.now }
{
    let byte = text.as_bytes()[at];
    if byte < 128 {
        byte as char
    } else {
        decoded_at(text, at)
    }
}

/// The same, of whichever length it is.
fn decoded_at(text: &str, at: usize) -> char
    requires boundary { IsCharBoundary text.now at }
    requires inside { at < length text.now }
    ensures { drop at text.now ≡ encode_utf8 result ++ drop (at + len_utf8 result) text.now }
{
    match text[at..].chars().next() {
        Some(c) => c,
        None => unreachable!(),
    }
}

/// Where the white space begins that ends behind the character. That before it is put behind the spans, if the
/// character ends a line.
fn step(
    c: char,
    from: usize,
    at: usize,
    behind: usize,
    spans: &mut Vec<Span>,
) -> Result<usize, NoMemory>
    requires order { from ≤ at }
    requires bound { at ≤ MOST_TEXT_BYTES }
    ensures start { IfOk result (λ start. start ≡ (if is_white_space c then from else behind)) }
    ensures spans { OnOk result (spans.new.items
        ≡ spans.old.items ++ (if is_line_terminator c then blank_between from at else [])) }
{
    if is_visible(c) {
        return Ok(behind);
    }
    end_line(c, from, at, spans)?;
    Ok(start_of_blank(c, from, behind))
}

/// Whether the character is one of ASCII that is seen, which most are.
#[tactic(auto, unfolding(es_text::specs::Characters::is_white_space))]
fn is_visible(c: char) -> bool
    ensures blank { IsTrue result → is_white_space c ≡ false }
    ensures end { IsTrue result → is_line_terminator c ≡ false }
{
    matches!(c, '!'..='~')
}

/// Puts the white space between two offsets behind the spans, if there is any.
fn put_blank(from: usize, at: usize, spans: &mut Vec<Span>) -> Result<(), NoMemory>
    requires order { from ≤ at }
    requires bound { at ≤ MOST_TEXT_BYTES }
    ensures { OnOk result (spans.new.items ≡ spans.old.items ++ blank_between from at) }
{
    if from < at {
        spans.push(Span {
            start: from as u32,
            end: at as u32,
        })?;
    }
    Ok(())
}

/// The same, if the character behind it ends a line.
fn end_line(c: char, from: usize, at: usize, spans: &mut Vec<Span>) -> Result<(), NoMemory>
    requires order { from ≤ at }
    requires bound { at ≤ MOST_TEXT_BYTES }
    ensures { OnOk result (spans.new.items
        ≡ spans.old.items ++ (if is_line_terminator c then blank_between from at else [])) }
{
    if is_line_terminator(c) {
        put_blank(from, at, spans)?;
    }
    Ok(())
}

/// Where the white space begins that ends behind a character.
fn start_of_blank(c: char, from: usize, behind: usize) -> usize
    ensures { result ≡ (if is_white_space c then from else behind) }
{
    if is_white_space(c) { from } else { behind }
}

/// Whether the character ends a line (ECMA-262, 12.3).
fn is_line_terminator(c: char) -> bool
    ensures { result ≡ is_line_terminator c }
{
    matches!(c, '\n' | '\r' | '\u{2028}' | '\u{2029}')
}

/// Whether the character is white space (ECMA-262, 12.2).
#[tactic(auto, unfolding(es_text::specs::Characters::is_white_space))]
fn is_white_space(c: char) -> bool
    ensures { result ≡ is_white_space c }
{
    matches!(
        c,
        '\t' | '\u{b}'
            | '\u{c}'
            | '\u{feff}'
            | ' '
            | '\u{a0}'
            | '\u{1680}'
            | '\u{2000}'..='\u{200a}' | '\u{202f}' | '\u{205f}' | '\u{3000}'
    )
}
