//! Parts of patterns against parts of names, which end in front of a slash.
ghost use Rattle.std.specs.Prelude.{◌≡◌, false, true, [], ◌∷◌, ◌++◌, ◌≤◌, ◌<◌, IfSome, IfNone, length, option_map};
ghost use Rattle.std.specs.List.{list_any};
ghost use Rattle.std.specs.Str.{chars};
ghost use Rattle.es_globs.specs.Fitting.{begins_wide, behind, earliest, only_whole};
ghost use Rattle.es_globs.specs.Patterns.{is_folders, is_star, takes, takes_part, up_to_slash};

use crate::piece::Piece;

/// The first character, and what follows it.
pub fn split_first(text: &str) -> Option<(char, &str)>
    ensures some { IfSome result (λ parts. chars text.now ≡ parts.0 ∷ chars parts.1.now) }
    ensures none { IfNone result (chars text.now ≡ []) }
    ensures shorter { IfSome result (λ parts. length parts.1.now < length text.now) }
{
    let mut rest = text.chars();
    let first = rest.next()?;
    Some((first, rest.as_str()))
}

/// The next character of a part, and what follows it.
fn next(text: &str) -> Option<(char, &str)>
    ensures some { IfSome result
        (λ parts. up_to_slash (chars text.now) ≡ parts.0 ∷ up_to_slash (chars parts.1.now)) }
    ensures none { IfNone result (up_to_slash (chars text.now) ≡ []) }
    ensures shorter { IfSome result (λ parts. length parts.1.now < length text.now) }
{
    match split_first(text) {
        Some((c, rest)) if c != '/' => Some((c, rest)),
        _ => None,
    }
}

/// What is left of a part where each piece took a character.
fn behind<'a>(pieces: &[Piece], text: &'a str) -> Option<&'a str>
    ensures { option_map (λ rest. up_to_slash (chars rest.now)) result
        ≡ behind takes pieces.now (up_to_slash (chars text.now)) }
{
    let mut rest = text;
    for piece in pieces {
        let Some((c, left)) = next(rest) else {
            return None;
        };
        if !piece.takes(c) {
            return None;
        }
        rest = left;
    }
    Some(rest)
}

/// The same, where nothing may be left behind the last pieces.
fn behind_whole<'a>(pieces: &[Piece], last: bool, text: &'a str) -> Option<&'a str>
    ensures { option_map (λ rest. up_to_slash (chars rest.now)) result
        ≡ only_whole last (behind takes pieces.now (up_to_slash (chars text.now))) }
{
    let rest = behind(pieces, text)?;
    if last && next(rest).is_some() {
        None
    } else {
        Some(rest)
    }
}

/// What is left where the pieces took characters as early as they can.
fn earliest<'a>(pieces: &[Piece], last: bool, text: &'a str) -> Option<&'a str>
    ensures { option_map (λ rest. up_to_slash (chars rest.now)) result
        ≡ earliest takes pieces.now last (up_to_slash (chars text.now)) }
{
    let mut rest = text;
    while let Some((_, left)) = next(rest) {
        let found = behind_whole(pieces, last, rest);
        if found.is_some() {
            return found;
        }
        rest = left;
    }
    behind_whole(pieces, last, rest)
}

/// The pieces in front of the first `*`, and the others.
fn split_at_star(pieces: &[Piece]) -> (&[Piece], &[Piece])
    ensures whole { pieces.now ≡ result.0.now ++ result.1.now }
    ensures plain { list_any is_star result.0.now ≡ false }
    ensures star { begins_wide is_star result.1.now ≡ true }
    ensures shorter { length result.1.now ≤ length pieces.now }
{
    let mut n = 0;
    while n < pieces.len() && !pieces[n].is_star() {
        n += 1;
    }
    pieces.split_at(n)
}

/// Whether the part takes any number of parts of a name.
pub fn is_folders(part: &[Piece]) -> bool
    ensures { result ≡ is_folders part.now }
{
    match part {
        [a, b] => a.is_star() && b.is_star(),
        _ => false,
    }
}

/// Whether the part takes the characters up to the first slash. It takes time in the product of their
/// numbers.
pub fn takes_part(part: &[Piece], text: &str) -> bool
    ensures { result ≡ takes_part part.now (up_to_slash (chars text.now)) }
{
    if part.is_empty() {
        return false;
    }
    let (front, others) = split_at_star(part);
    let Some(behind_front) = behind(front, text) else {
        return false;
    };
    let mut rest = behind_front;
    let mut left = others;
    while let [_, pieces @ ..] = left {
        let (plain, others) = split_at_star(pieces);
        let Some(found) = earliest(plain, others.is_empty(), rest) else {
            return false;
        };
        rest = found;
        left = others;
    }
    next(rest).is_none()
}
