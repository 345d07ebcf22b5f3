//! What stands in brackets.
ghost use Rattle.std.specs.Prelude.{◌≡◌, ◌<◌, IfOk, IfSome, length, option_map};
ghost use Rattle.es_selectors.specs.Refusals.{RefusesNames};
ghost use Rattle.es_selectors.specs.Spelling.{SpellsNames, bracketed_number, bracketed_value};
ghost use Rattle.es_selectors.specs.Spelling.{compared, comparison, condition};
ghost use Rattle.es_selectors.specs.Told.{Gives, Tells};

use crate::fault::SelectorFault;
use crate::lexical::{after, name, number, past_blanks, text_of, value};
use crate::selector::{Comparison, Condition};
use es_text::{Items, Txt};
use std::alloc::Global;

/// The names that dots separate, and what follows them.
pub fn names(alloc: Global, text: &[char]) -> Result<(Items<Txt>, &[char]), SelectorFault>
    ensures told { Tells (SpellsNames text.now) (RefusesNames text.now) result }
    ensures shorter { IfOk result (λ read. length read.1.now < length text.now) }
{
    let mut names = Items::new(alloc);
    let mut rest = text;
    loop {
        let Some((word, behind)) = name(rest) else {
            return Err(SelectorFault::Unread);
        };
        names.push(text_of(alloc, word)?)?;
        match after(b".", behind) {
            Some(next) => rest = next,
            None => return Ok((names, behind)),
        }
    }
}

/// What is asked of an attribute, behind its names, with the bracket that closes, and what follows it.
pub fn condition(alloc: Global, text: &[char]) -> Result<(Condition, &[char]), SelectorFault>
    ensures value { Gives (condition text.now) result }
    ensures shorter { IfOk result (λ read. length read.1.now < length text.now) }
{
    match after(b"]", text) {
        Some(rest) => Ok((Condition::IsThere, rest)),
        None => compared(alloc, past_blanks(text)),
    }
}

/// What an attribute is compared with, from the operator on.
fn compared(alloc: Global, text: &[char]) -> Result<(Condition, &[char]), SelectorFault>
    ensures value { Gives (compared text.now) result }
    ensures shorter { IfOk result (λ read. length read.1.now < length text.now) }
{
    if let Some(behind) = after(b"=", text) {
        let (text, rest) = bracketed_value(alloc, behind)?;
        return Ok((Condition::Is(text), rest));
    }
    if let Some(behind) = after(b"!=", text) {
        let (text, rest) = bracketed_value(alloc, behind)?;
        return Ok((Condition::IsNot(text), rest));
    }
    let Some((comparison, behind)) = comparison(text) else {
        return Err(SelectorFault::Unread);
    };
    let Some((number, rest)) = bracketed_number(behind) else {
        return Err(SelectorFault::Unread);
    };
    Ok((Condition::Compares(comparison, number), rest))
}

/// A value and the bracket that closes, behind the operator.
fn bracketed_value(alloc: Global, text: &[char]) -> Result<(Txt, &[char]), SelectorFault>
    ensures value { Gives (bracketed_value text.now) result }
    ensures shorter { IfOk result (λ read. length read.1.now < length text.now) }
{
    let (value, behind) = value(alloc, past_blanks(text))?;
    match after(b"]", behind) {
        Some(rest) => Ok((value, rest)),
        None => Err(SelectorFault::Unread),
    }
}

/// A number and the bracket that closes, behind the operator.
fn bracketed_number(text: &[char]) -> Option<(u32, &[char])>
    ensures value { option_map (λ read. (read.0, read.1.now)) result ≡ bracketed_number text.now }
    ensures shorter { IfSome result (λ read. length read.1.now < length text.now) }
{
    let (number, behind) = number(past_blanks(text))?;
    let rest = after(b"]", behind)?;
    Some((number, rest))
}

/// How a length is compared, and what follows.
fn comparison(text: &[char]) -> Option<(Comparison, &[char])>
    ensures value { option_map (λ read. (read.0, read.1.now)) result ≡ comparison text.now }
    ensures shorter { IfSome result (λ read. length read.1.now < length text.now) }
{
    if let Some(rest) = after(b"<=", text) {
        return Some((Comparison::LessOrEqual, rest));
    }
    if let Some(rest) = after(b"<", text) {
        return Some((Comparison::Less, rest));
    }
    if let Some(rest) = after(b">=", text) {
        return Some((Comparison::GreaterOrEqual, rest));
    }
    let rest = after(b">", text)?;
    Some((Comparison::Greater, rest))
}
