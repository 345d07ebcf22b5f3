//! The words of selectors, which stand at the front of a text.
ghost use Rattle.std.specs.Prelude.{◌≡◌, ◌+◌, ◌<◌, ◌≤◌, ◌++◌, false, IfOk, IfSome, OnOk, length, option_map, string_bytes};
ghost use Rattle.std.specs.Char.{IsScalar, encode_utf8};
ghost use Rattle.std.specs.List.{list_all};
ghost use Rattle.es_text.specs.Characters.{is_decimal, is_white_space};
ghost use Rattle.es_text.specs.Rest.{begins, drop_while};
ghost use Rattle.es_selectors.specs.Classes.{is_in};
ghost use Rattle.es_selectors.specs.Lexical.{after, bare, decimal_of, is_bare, is_name_part, is_refused, name};
ghost use Rattle.es_selectors.specs.Lexical.{number, number_in_parentheses, number_of, past_blanks};
ghost use Rattle.es_selectors.specs.Lexical.{quoted_from, run_of, value, with_digit};
ghost use Rattle.es_selectors.specs.Told.{Gives};

use crate::fault::SelectorFault;
use es_text::{NoMemory, Txt};
use std::alloc::Global;

/// A class of characters.
#[derive(Clone, Copy)]
pub enum Class {
    /// What names are made of.
    NamePart,
    /// White space.
    Blank,
    /// What bare values are made of.
    Bare,
    Digit,
}

pub fn is_in(class: Class, c: char) -> bool
    ensures { result ≡ is_in class c }
{
    match class {
        Class::NamePart => is_name_part(c),
        Class::Blank => is_white_space(c),
        Class::Bare => is_bare(c),
        Class::Digit => c.is_ascii_digit(),
    }
}

fn is_name_part(c: char) -> bool
    ensures { result ≡ is_name_part c }
{
    c.is_ascii_digit() || c.is_ascii_uppercase() || c.is_ascii_lowercase() || c == '_' || c == '$'
}

#[tactic(auto, unfolding(es_text::specs::Characters::is_white_space))]
fn is_white_space(c: char) -> bool
    ensures { result ≡ is_white_space c }
{
    match c {
        '\t' | '\u{b}' | '\u{c}' | '\u{feff}' => true,
        ' ' | '\u{a0}' | '\u{1680}' | '\u{2000}'..='\u{200a}' => true,
        '\u{202f}' | '\u{205f}' | '\u{3000}' => true,
        _ => false,
    }
}

fn is_bare(c: char) -> bool
    ensures { result ≡ is_bare c }
{
    !(is_white_space(c)
        || c == '"'
        || c == '\''
        || c == ']'
        || c == '='
        || c == '!'
        || c == '<'
        || c == '>')
}

/// Whether a character of the class stands at the front.
pub fn begins(class: Class, text: &[char]) -> bool
    ensures { result ≡ begins (is_in class) text.now }
{
    match text {
        [c, ..] => is_in(class, *c),
        [] => false,
    }
}

/// What follows the longest front of characters of the class.
fn past(class: Class, text: &[char]) -> &[char]
    ensures value { result.now ≡ drop_while (is_in class) text.now }
    ensures no_longer { length result.now ≤ length text.now }
{
    let mut rest = text;
    while let [c, behind @ ..] = rest
        && is_in(class, *c)
    {
        rest = behind;
    }
    rest
}

/// What follows white space, of which there may be none.
pub fn past_blanks(text: &[char]) -> &[char]
    ensures value { result.now ≡ past_blanks text.now }
    ensures no_longer { length result.now ≤ length text.now }
{
    past(Class::Blank, text)
}

/// The longest front of characters of the class, one at least, and what follows it.
#[tactic(auto, using(crate::proofs::LexicalLemmas::shorter_behind))]
pub fn run_of(class: Class, text: &[char]) -> Option<(&[char], &[char])>
    ensures value { option_map (λ read. (read.0.now, read.1.now)) result ≡ run_of (is_in class) text.now }
    ensures shorter { IfSome result (λ read. length read.1.now < length text.now) }
{
    if !begins(class, text) {
        return None;
    }
    let rest = past(class, text);
    Some((&text[..text.len() - rest.len()], rest))
}

/// What follows this word of ASCII, if it stands at the front.
pub fn after<'a>(word: &[u8], text: &'a [char]) -> Option<&'a [char]>
    ensures value { option_map (λ rest. rest.now) result ≡ after word.now text.now }
    ensures no_longer { IfSome result (λ rest. length rest.now + length word.now ≡ length text.now) }
{
    let mut rest = text;
    for byte in word {
        let [c, behind @ ..] = rest else {
            return None;
        };
        if *c != char::from(*byte) {
            return None;
        }
        rest = behind;
    }
    Some(rest)
}

fn with_digit(number: u32, digit: u32) -> u32
    ensures { result ≡ with_digit number digit }
{
    number
        .saturating_mul(10)
        .saturating_add(digit.saturating_sub(48))
}

/// The number that the digits spell, or the greatest one where it is greater.
fn number_of(digits: &[char]) -> u32
    ensures { result ≡ number_of digits.now }
{
    digits
        .iter()
        .fold(0, |number, digit| with_digit(number, u32::from(*digit)))
}

fn are_digits(text: &[u8]) -> bool
    ensures { result ≡ list_all is_decimal text.now }
{
    text.iter().all(|c| c.is_ascii_digit())
}

/// The number that the digits spell, or the greatest one where it is greater.
fn number_in(digits: &[u8]) -> u32
    ensures { result ≡ number_of digits.now }
{
    digits
        .iter()
        .fold(0, |number, digit| with_digit(number, u32::from(*digit)))
}

/// The number that the whole text is in decimal, if it is one, or the greatest one where it is greater.
pub fn decimal_of(text: &[u8]) -> Option<u32>
    ensures { result ≡ decimal_of text.now }
{
    if text.is_empty() {
        return None;
    }
    if are_digits(text) {
        Some(number_in(text))
    } else {
        None
    }
}

/// A decimal number, and what follows it.
pub fn number(text: &[char]) -> Option<(u32, &[char])>
    ensures value { option_map (λ read. (read.0, read.1.now)) result ≡ number text.now }
    ensures shorter { IfSome result (λ read. length read.1.now < length text.now) }
{
    let (digits, rest) = run_of(Class::Digit, text)?;
    Some((number_of(digits), rest))
}

/// A decimal number in parentheses, behind the one that opens, and what follows it.
pub fn number_in_parentheses(text: &[char]) -> Option<(u32, &[char])>
    ensures value { option_map (λ read. (read.0, read.1.now)) result ≡ number_in_parentheses text.now }
    ensures shorter { IfSome result (λ read. length read.1.now < length text.now) }
{
    let (number, behind) = number(past_blanks(text))?;
    let rest = after(b")", past_blanks(behind))?;
    Some((number, rest))
}

/// Puts a character at the end.
fn push_character(text: &mut String, c: char) -> Result<(), NoMemory>
    ensures scalar { IsScalar c }
    ensures ok { OnOk result (string_bytes text.new ≡ string_bytes text.old ++ encode_utf8 c) }
{
    text.push(c)?;
    Ok(())
}

/// The characters as a text of its own memory.
pub fn text_of(alloc: Global, characters: &[char]) -> Result<Txt, NoMemory>
    ensures { IfOk result (λ text. text ≡ characters.now) }
{
    let mut text = String::new(alloc);
    for c in characters {
        push_character(&mut text, *c)?;
    }
    Txt::new(alloc, text.as_str())
}

/// A text in quotes without them, behind the one that opens, and what follows it.
fn quoted(alloc: Global, quote: char, text: &[char]) -> Result<(Txt, &[char]), SelectorFault>
    ensures value { Gives (quoted_from quote false text.now) result }
    ensures shorter { IfOk result (λ read. length read.1.now < length text.now) }
{
    let mut characters = Vec::new(alloc);
    let mut escaped = false;
    let mut rest = text;
    while let [c, behind @ ..] = rest {
        rest = behind;
        if !escaped && *c == quote {
            return Ok((text_of(alloc, &characters)?, rest));
        }
        if !escaped && *c == '\\' {
            escaped = true;
        } else {
            characters.push(*c)?;
            escaped = false;
        }
    }
    Err(SelectorFault::Unread)
}

/// Whether a bare run is a regular expression or a type, which aren't read.
fn is_refused(run: &[char]) -> bool
    ensures { result ≡ is_refused run.now }
{
    if after(b"type(", run).is_some() {
        return true;
    }
    match run {
        ['/', behind @ ..] => behind.contains(&'/'),
        _ => false,
    }
}

/// A bare value, and what follows it.
fn bare(alloc: Global, text: &[char]) -> Result<(Txt, &[char]), SelectorFault>
    ensures value { Gives (bare text.now) result }
    ensures shorter { IfOk result (λ read. length read.1.now < length text.now) }
{
    let Some((run, rest)) = run_of(Class::Bare, text) else {
        return Err(SelectorFault::Unread);
    };
    if is_refused(run) {
        return Err(SelectorFault::Unread);
    }
    Ok((text_of(alloc, run)?, rest))
}

/// The value that an attribute is compared with, and what follows it.
pub fn value(alloc: Global, text: &[char]) -> Result<(Txt, &[char]), SelectorFault>
    ensures value { Gives (value text.now) result }
    ensures shorter { IfOk result (λ read. length read.1.now < length text.now) }
{
    match text {
        [quote @ ('"' | '\''), behind @ ..] => quoted(alloc, *quote, behind),
        _ => bare(alloc, text),
    }
}

/// A name, and what follows it.
pub fn name(text: &[char]) -> Option<(&[char], &[char])>
    ensures value { option_map (λ read. (read.0.now, read.1.now)) result ≡ name text.now }
    ensures shorter { IfSome result (λ read. length read.1.now < length text.now) }
{
    run_of(Class::NamePart, text)
}
