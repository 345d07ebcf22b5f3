//! One pass of fixes over a text.
ghost use Rattle.std.specs.Prelude.{ℕ, ◌≡◌, ◌≤◌, ◌<◌, All, IfOk, IsTrue, MatchOption, length, map, string_bytes};
ghost use Rattle.es_text.specs.SourceFaults.{most_bytes};
ghost use Rattle.es_text.specs.Texts.{text_bytes};
ghost use Rattle.es_messages.specs.Fixes.{Gives, IsInOrder, IsPass, Tells, fixes_fit, numbered_cmp, replaced, taken_of};
ghost use Rattle.es_messages.specs.NumberedFixes.{CanReplace, Joins, may_start, seen};
ghost use Rattle.std.specs.List.{enumerate_from};

use es_text::{Fix, Items, MOST_BYTES, NoMemory, Source, Txt, parts_lie};
use std::alloc::Global;
use std::cmp::Ordering;

/// What a pass of fixes gives.
#[derive(Drop)]
pub struct Applied {
    /// The text afterwards.
    pub text: Txt,
    /// Whether each fix was taken, by its position in the list that was given.
    pub taken: Items<bool>,
}

/// A fix, and its position in the list that was given.
#[derive(Clone, Copy)]
pub struct NumberedFix<'a> {
    pub position: usize,
    pub fix: &'a Fix,
}

/// Which of two fixes goes first: by start, then by end, then by position.
fn compare(a: &NumberedFix, b: &NumberedFix) -> Ordering
    ensures { result ≡ numbered_cmp (seen a.now) (seen b.now) }
{
    let start = a.fix.span.start.cmp(&b.fix.span.start);
    let end = a.fix.span.end.cmp(&b.fix.span.end);
    let position = a.position.cmp(&b.position);
    start.then(end.then(position))
}

/// The fixes with their positions.
fn numbered<'a>(alloc: Global, fixes: &'a [Fix]) -> Result<Vec<NumberedFix<'a>>, NoMemory>
    ensures { IfOk result (λ all. map seen all.items ≡ enumerate_from 0 fixes.now) }
{
    let mut all = Vec::new(alloc);
    for (position, fix) in fixes.iter().enumerate() {
        all.push(NumberedFix { position, fix })?;
    }
    Ok(all)
}

/// The fixes in order, with their positions.
fn in_order<'a>(alloc: Global, fixes: &'a [Fix]) -> Result<Vec<NumberedFix<'a>>, NoMemory>
    ensures { IfOk result (λ order. IsInOrder fixes.now (map seen order.items)) }
{
    let mut order = numbered(alloc, fixes)?;
    order.sort_by(|a, b| compare(a, b))?;
    Ok(order)
}

/// Whether a fix that starts at this offset may be taken behind one that ends there, if any was taken.
fn may_start(last: Option<u32>, start: u32) -> bool
    ensures { result ≡ may_start last start }
{
    match last {
        Some(end) => end < start,
        None => true,
    }
}

/// Those of the fixes, which stand in order, that are taken.
fn take<'a>(alloc: Global, order: &[NumberedFix<'a>]) -> Result<Vec<NumberedFix<'a>>, NoMemory>
    requires { All (λ one. one.fix.now.span.start ≤ one.fix.now.span.end) order.now }
    ensures { IfOk result (λ taken. map seen taken.items ≡ taken_of (map seen order.now)) }
{
    let mut taken = Vec::new(alloc);
    let mut last = None;
    for one in order {
        if may_start(last, one.fix.span.start) {
            taken.push(*one)?;
            last = Some(one.fix.span.end);
        }
    }
    Ok(taken)
}

/// Puts a piece behind the text, if the whole isn't longer than a file may be. Else it answers `false`, and
/// the text stays.
fn push_within(text: &mut String, piece: &str) -> Result<bool, NoMemory>
    requires { length (string_bytes text.old) ≤ most_bytes }
    ensures { IfOk result (Joins (string_bytes text.old) piece.now (string_bytes text.new)) }
{
    if piece.len() > MOST_BYTES - text.len() {
        return Ok(false);
    }
    text.push_str(piece)?;
    Ok(true)
}

/// The text with the spans of the fixes replaced, which stand in order, or `None` where it would be longer
/// than a file may be.
fn replace(alloc: Global, text: &str, taken: &[NumberedFix]) -> Result<Option<String>, NoMemory>
    requires { CanReplace text.now 0 (map seen taken.now) }
    ensures { IfOk result (λ made. MatchOption made
        (most_bytes < length (replaced text.now 0 (map seen taken.now)))
        (λ made. (length (replaced text.now 0 (map seen taken.now)) ≤ most_bytes)
        × (string_bytes made ≡ replaced text.now 0 (map seen taken.now)))) }
{
    let mut made = String::new(alloc);
    let mut at = 0;
    for one in taken {
        let span = one.fix.span;
        if !push_within(&mut made, &text[at..span.start as usize])? {
            return Ok(None);
        }
        if !push_within(&mut made, one.fix.text.as_str())? {
            return Ok(None);
        }
        at = span.end as usize;
    }
    if push_within(&mut made, &text[at..])? {
        Ok(Some(made))
    } else {
        Ok(None)
    }
}

/// Whether each fix was taken, by its position.
fn flags(alloc: Global, count: usize, taken: &[NumberedFix]) -> Result<Vec<bool>, NoMemory>
    requires { All (λ one. one.position < count) taken.now }
    ensures { IfOk result (λ flags. Tells (map seen taken.now) count flags.items) }
{
    let mut flags = vec![in alloc; false; count]?;
    for one in taken {
        flags[one.position] = true;
    }
    Ok(flags)
}

/// What a pass gives that takes these fixes, of so many.
fn give(alloc: Global, text: &str, count: usize, taken: &[NumberedFix]) -> Result<Applied, NoMemory>
    requires spans { CanReplace text.now 0 (map seen taken.now) }
    requires positions { All (λ one. one.position < count) taken.now }
    ensures { IfOk result (Gives text.now count (map seen taken.now)) }
{
    match replace(alloc, text, taken)? {
        Some(made) => Ok(Applied {
            text: Txt::new(alloc, made.as_str())?,
            taken: Items::from_vec(flags(alloc, count, taken)?),
        }),
        None => Ok(Applied {
            text: Txt::new(alloc, text)?,
            taken: Items::from_vec(flags(alloc, count, &[])?),
        }),
    }
}

/// One pass of the fixes, which stand in the order of their messages, over the text.
///
/// They are gone through by start, then by end, then by position. One is taken where it starts behind the
/// end of each that was taken before it. Where the new text would have more than `MOST_BYTES` bytes, it is
/// the old one and none is taken. It sorts the fixes, and makes the text in one go.
pub fn apply(alloc: Global, source: &Source, fixes: &[Fix]) -> Result<Applied, NoMemory>
    requires { IsTrue (fixes_fit (text_bytes source.now) fixes.now) }
    ensures { IfOk result (IsPass (text_bytes source.now) fixes.now) }
{
    parts_lie();
    let order = in_order(alloc, fixes)?;
    let taken = take(alloc, order.as_slice())?;
    give(alloc, source.text(), fixes.len(), taken.as_slice())
}
