//! Characters of comments.
ghost use Rattle.std.specs.Prelude.{◌≡◌, ◌≤◌, ◌-◌, ◌++◌, IfOk, OnOk, length, string_bytes};
ghost use Rattle.std.specs.Char.{IsScalar, encode_utf8};
ghost use Rattle.std.specs.List.{list_any, prefix_len, suffix_len};
ghost use Rattle.std.specs.Str.{bytes_eq, chars};
ghost use Rattle.es_messages.specs.Classes.{is_blank, is_colon, is_in};

use es_text::{NoMemory, Txt};
use std::alloc::Global;

/// A class of characters.
#[derive(Clone, Copy)]
pub enum Class {
    /// White space, and line terminators.
    Blank,
    NoBlank,
    NoColon,
    NoComma,
    Hyphen,
    /// What stands between the names of global variables.
    Separator,
    NoSeparator,
}

#[tactic(auto, unfolding(es_text::specs::Characters::is_white_space))]
pub fn is_blank(c: char) -> bool
    ensures { result ≡ is_blank c }
{
    match c {
        '\t' | '\n' | '\u{b}' | '\u{c}' | '\r' | '\u{feff}' => true,
        ' ' | '\u{a0}' | '\u{1680}' | '\u{2000}'..='\u{200a}' => true,
        '\u{2028}' | '\u{2029}' | '\u{202f}' | '\u{205f}' | '\u{3000}' => true,
        _ => false,
    }
}

fn is_in(class: Class, c: char) -> bool
    ensures { result ≡ is_in class c }
{
    match class {
        Class::Blank => is_blank(c),
        Class::NoBlank => !is_blank(c),
        Class::NoColon => c != ':',
        Class::NoComma => c != ',',
        Class::Hyphen => c == '-',
        Class::Separator => c == ',' || is_blank(c),
        Class::NoSeparator => c != ',' && !is_blank(c),
    }
}

/// How many characters of the class stand at the front.
pub fn run(class: Class, text: &[char]) -> usize
    ensures value { result ≡ prefix_len (is_in class) text.now }
    ensures bound { result ≤ length text.now }
{
    for (i, c) in text.iter().enumerate() {
        if !is_in(class, *c) {
            return i;
        }
    }
    text.len()
}

/// How many characters stand in front of the white space at the end.
pub fn len_without_end(text: &[char]) -> usize
    ensures value { result ≡ length text.now - suffix_len is_blank text.now }
    ensures bound { result ≤ length text.now }
{
    let mut n = text.len();
    while n > 0 && is_blank(text[n - 1]) {
        n -= 1;
    }
    n
}

/// Whether the characters are this word of ASCII.
pub fn is_word(text: &[char], word: &[u8]) -> bool
    ensures { result ≡ bytes_eq text.now word.now }
{
    let mut rest = text;
    for byte in word {
        let [c, behind @ ..] = rest else {
            return false;
        };
        if *c != char::from(*byte) {
            return false;
        }
        rest = behind;
    }
    rest.is_empty()
}

/// The characters of the text.
pub fn characters_of(alloc: Global, text: &str) -> Result<Vec<char>, NoMemory>
    ensures { IfOk result (λ characters. characters.items ≡ chars text.now) }
{
    Ok(text.chars().collect(alloc)?)
}

/// Puts a character at the end.
fn push_character(text: &mut String, c: char) -> Result<(), NoMemory>
    ensures scalar { IsScalar c }
    ensures ok { OnOk result (string_bytes text.new ≡ string_bytes text.old ++ encode_utf8 c) }
{
    text.push(c)?;
    Ok(())
}

/// The characters as a text of its own memory.
pub fn text_of(alloc: Global, characters: &[char]) -> Result<Txt, NoMemory>
    ensures { IfOk result (λ text. text ≡ characters.now) }
{
    let mut text = String::new(alloc);
    for c in characters {
        push_character(&mut text, *c)?;
    }
    Txt::new(alloc, text.as_str())
}
