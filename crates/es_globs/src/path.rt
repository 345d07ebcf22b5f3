//! Patterns against names, as lists of parts.
ghost use Rattle.std.specs.Prelude.{◌≡◌, false, true, [], ◌∷◌, ◌++◌, ◌≤◌, ◌<◌, IfSome, IfNone, length, option_map};
ghost use Rattle.std.specs.List.{list_any};
ghost use Rattle.std.specs.Str.{chars};
ghost use Rattle.es_globs.specs.Fitting.{begins_wide, behind, earliest, only_whole};
ghost use Rattle.es_globs.specs.Parts.{parts_in, size_in};
ghost use Rattle.es_globs.specs.Patterns.{behind_slash, is_folders, pattern_matches, takes_part, up_to_slash};

use crate::part::{is_folders, split_first, takes_part};
use crate::piece::Piece;
use es_text::Items;

/// What stands behind the first slash; `None` where there is none.
fn behind_slash(text: &str) -> Option<&str>
    ensures value { option_map (λ rest. chars rest.now) result ≡ behind_slash (chars text.now) }
    ensures shorter { IfSome result (λ rest. length rest.now < length text.now) }
{
    let mut rest = text;
    while let Some((c, left)) = split_first(rest) {
        if c == '/' {
            return Some(left);
        }
        rest = left;
    }
    None
}

/// The text at which the next part of a name begins, and what is left behind that part.
fn next_part<'a>(left: Option<&'a str>) -> Option<(&'a str, Option<&'a str>)>
    ensures some { IfSome result
        (λ found. parts_in left.entry ≡ up_to_slash (chars found.0.now) ∷ parts_in found.1) }
    ensures none { IfNone result (parts_in left.entry ≡ []) }
    ensures shorter { IfSome result (λ found. size_in found.1 < size_in left.entry) }
{
    let text = left?;
    Some((text, behind_slash(text)))
}

/// What is left of a name where each part of a pattern took one.
fn behind<'a>(parts: &[Items<Piece>], name: Option<&'a str>) -> Option<Option<&'a str>>
    ensures { option_map parts_in result ≡ behind takes_part parts.now (parts_in name.entry) }
{
    let mut rest = name;
    for part in parts {
        let Some((text, left)) = next_part(rest) else {
            return None;
        };
        if !takes_part(part.as_slice(), text) {
            return None;
        }
        rest = left;
    }
    Some(rest)
}

/// The same, where nothing may be left behind the last parts.
fn behind_whole<'a>(
    parts: &[Items<Piece>],
    last: bool,
    name: Option<&'a str>,
) -> Option<Option<&'a str>>
    ensures { option_map parts_in result
        ≡ only_whole last (behind takes_part parts.now (parts_in name.entry)) }
{
    let rest = behind(parts, name)?;
    if last && next_part(rest).is_some() {
        None
    } else {
        Some(rest)
    }
}

/// What is left where the parts took those of a name as early as they can.
fn earliest<'a>(
    parts: &[Items<Piece>],
    last: bool,
    name: Option<&'a str>,
) -> Option<Option<&'a str>>
    ensures { option_map parts_in result
        ≡ earliest takes_part parts.now last (parts_in name.entry) }
{
    let mut rest = name;
    while let Some((_, left)) = next_part(rest) {
        let found = behind_whole(parts, last, rest);
        if found.is_some() {
            return found;
        }
        rest = left;
    }
    behind_whole(parts, last, rest)
}

/// The parts in front of the first `**`, and the others.
fn split_at_folders(parts: &[Items<Piece>]) -> (&[Items<Piece>], &[Items<Piece>])
    ensures whole { parts.now ≡ result.0.now ++ result.1.now }
    ensures plain { list_any is_folders result.0.now ≡ false }
    ensures folders { begins_wide is_folders result.1.now ≡ true }
    ensures shorter { length result.1.now ≤ length parts.now }
{
    let mut n = 0;
    while n < parts.len() && !is_folders(parts[n].as_slice()) {
        n += 1;
    }
    parts.split_at(n)
}

/// Whether the pattern matches the whole name. It takes time in the product of their lengths.
pub fn pattern_matches(parts: &[Items<Piece>], name: &str) -> bool
    ensures { result ≡ pattern_matches (chars name.now) parts.now }
{
    let (front, others) = split_at_folders(parts);
    let Some(behind_front) = behind(front, Some(name)) else {
        return false;
    };
    let mut rest = behind_front;
    let mut left = others;
    while let [_, parts @ ..] = left {
        let (plain, others) = split_at_folders(parts);
        let Some(found) = earliest(plain, others.is_empty(), rest) else {
            return false;
        };
        rest = found;
        left = others;
    }
    next_part(rest).is_none()
}
