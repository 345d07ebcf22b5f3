//! Globs.
ghost use Rattle.std.specs.Prelude.{◌≡◌, None, Some, IfErr, IfOk, map, option_map};
ghost use Rattle.std.specs.Str.{chars};
ghost use Rattle.es_globs.specs.Globs.{body_of, glob_of, has_group, is_group_mark, is_negated, matches, plain_matches, without_here};
ghost use Rattle.es_globs.specs.Spelling.{parts_of};
ghost use Rattle.es_globs.specs.declared.fault.GlobFault.TheVariants as fault;

use crate::fault::GlobFault;
use crate::path::pattern_matches;
use crate::piece::Piece;
use crate::reading::pieces_of;
use crate::spelling::{parts_of, patterns_of};
use es_text::{Items, NoMemory};
use std::alloc::Global;
use std::marker::Model;

/// The most characters of a glob.
pub const MOST_CHARACTERS: usize = 1000;

/// A pattern for names of files, which are lists of parts between slashes, as ESLint's `files` and `ignores`.
///
/// A leading `!` negates it; of what is left a leading `./` is dropped. Braces `{a,b}` stand for each of
/// their choices. `*` takes any characters of a part, `?` one, `[abc]`, `[a-z]` and `[!a-z]` one of a class,
/// `\x` x, and `**` as a whole part any number of parts. A slash at the end takes every name below a folder.
#[derive(Drop)]
pub struct Glob {
    negated: bool,
    patterns: Items<Items<Items<Piece>>>,
}

impl Model for Glob {
    ghost use Rattle.es_globs.specs.Globs.{Patterns};

    ghost Value = { Patterns };

    ghost view = { λ glob. record { negated = glob.negated; patterns = glob.patterns } };
}

fn is_negated(text: &[char]) -> bool
    ensures { result ≡ is_negated text.now }
{
    match text {
        [c, ..] => *c == '!',
        [] => false,
    }
}

/// The characters without a leading `./`.
fn without_here(text: &[char]) -> &[char]
    ensures { result.now ≡ without_here text.now }
{
    match text {
        [c, next, others @ ..] if *c == '.' && *next == '/' => others,
        _ => text,
    }
}

/// The characters without one leading `!`, and then without a leading `./`.
fn body_of(text: &[char]) -> &[char]
    ensures { result.now ≡ body_of text.now }
{
    match text {
        [c, others @ ..] if *c == '!' => without_here(others),
        _ => without_here(text),
    }
}

fn is_group_mark(c: char) -> bool
    ensures { result ≡ is_group_mark c }
{
    c == '@' || c == '+' || c == '!' || c == '?' || c == '*'
}

/// Whether a parenthesis stands behind a character that makes a group of it.
fn has_group(text: &[char]) -> bool
    ensures { result ≡ has_group text.now }
{
    let mut rest = text;
    while let [c, others @ ..] = rest {
        if let [next, ..] = others {
            if is_group_mark(*c) && *next == '(' {
                return true;
            }
        }
        rest = others;
    }
    false
}

/// The parts of each pattern.
fn all_parts(
    alloc: Global,
    patterns: &[Items<Piece>],
) -> Result<Items<Items<Items<Piece>>>, NoMemory>
    ensures { IfOk result (λ parts. parts ≡ map parts_of patterns.now) }
{
    let mut parts = Items::new(alloc);
    for pattern in patterns {
        parts.push(parts_of(alloc, pattern.as_slice())?)?;
    }
    Ok(parts)
}

/// The glob that the characters are.
fn glob_of(alloc: Global, text: &[char]) -> Result<Option<Glob>, NoMemory>
    ensures { IfOk result (λ glob. glob ≡ glob_of text.now) }
{
    let body = body_of(text);
    if text.len() > MOST_CHARACTERS || has_group(text) || body.is_empty() {
        return Ok(None);
    }
    let Some(pieces) = pieces_of(alloc, body)? else {
        return Ok(None);
    };
    let Some(patterns) = patterns_of(alloc, pieces.as_slice())? else {
        return Ok(None);
    };
    Ok(Some(Glob {
        negated: is_negated(text),
        patterns: all_parts(alloc, patterns.as_slice())?,
    }))
}

/// The characters of the text.
fn characters_of(alloc: Global, text: &str) -> Result<Vec<char>, NoMemory>
    ensures { IfOk result (λ characters. characters.items ≡ chars text.now) }
{
    Ok(text.chars().collect(alloc)?)
}

impl Glob {
    /// The glob that the text is.
    ///
    /// `BadGlob` where it is empty behind its `!` and `./`, has more than `MOST_CHARACTERS` characters, an
    /// unclosed `[` or `{`, an empty class, braces in braces, more than 64 patterns, a `\` at its end, or a `(`
    /// right behind one of `@ + ! ? *`.
    pub fn read(alloc: Global, text: &str) -> Result<Glob, GlobFault>
        ensures value { IfOk result (λ glob. Some glob ≡ glob_of (chars text.now)) }
        ensures bad { IfErr result (λ cause. cause ≡ fault.BadGlob → glob_of (chars text.now) ≡ None) }
    {
        let characters = characters_of(alloc, text)?;
        match glob_of(alloc, characters.as_slice())? {
            Some(glob) => Ok(glob),
            None => Err(GlobFault::BadGlob),
        }
    }

    /// Whether a `!` stands in front.
    pub fn is_negated(&self) -> bool
        ensures { result ≡ self.now.negated }
    {
        self.negated
    }

    /// Whether the glob without its `!` matches the whole name. It takes time in the product of their lengths.
    pub fn plain_matches(&self, name: &str) -> bool
        ensures { result ≡ plain_matches self.now (chars name.now) }
    {
        for pattern in self.patterns.as_slice() {
            if pattern_matches(pattern.as_slice(), name) {
                return true;
            }
        }
        false
    }
}

/// Whether the glob matches the whole name; a negated one matches what the rest doesn't.
pub fn glob_matches(glob: &Glob, name: &str) -> bool
    ensures { result ≡ matches glob.now (chars name.now) }
{
    glob.plain_matches(name) != glob.negated
}
