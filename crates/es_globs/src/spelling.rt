//! The plain patterns that the pieces of a glob spell.
ghost use Rattle.std.specs.Prelude.{◌≡◌, ◌*◌, ◌++◌, ◌∷◌, ◌≤◌, ◌<◌, IfOk, OnOk, false, length, map, nat_lt};
ghost use Rattle.std.specs.List.{position_or_len, slice_split};
ghost use Rattle.es_globs.specs.Spelling.{ends_in_slash, is_mark, joined, parts_of, patterns_of, segment_patterns};
ghost use Rattle.es_globs.specs.Segments.{segments_in, size_in};
ghost use Rattle.es_globs.specs.declared.spelling.TheConstants.{MOST_PATTERNS};

use crate::piece::Piece;
use es_text::{Items, NoMemory};
use std::alloc::Global;

/// What parts pieces from one another.
#[derive(Clone, Copy)]
pub enum Mark {
    /// `{`
    Open,
    /// `}`
    Close,
    /// `,`
    Comma,
    /// `/`, also behind a backslash.
    Slash,
}

/// The most patterns that a glob stands for.
pub const MOST_PATTERNS: usize = 64;

impl Mark {
    /// Whether the piece is it.
    fn is(self, piece: &Piece) -> bool
        ensures { result ≡ is_mark self piece.now }
    {
        match self {
            Mark::Open => piece.is_plain('{'),
            Mark::Close => piece.is_plain('}'),
            Mark::Comma => piece.is_plain(','),
            Mark::Slash => piece.stands_for('/'),
        }
    }

    /// Where it stands first, or how many pieces there are.
    fn at(self, pieces: &[Piece]) -> usize
        ensures value { result ≡ position_or_len (is_mark self) pieces.now }
        ensures bound { result ≤ length pieces.now }
    {
        for (i, piece) in pieces.iter().enumerate() {
            if self.is(piece) {
                return i;
            }
        }
        pieces.len()
    }

    /// The pieces up to it, and those behind it, if it is there.
    fn split_first<'a>(self, pieces: &'a [Piece]) -> (&'a [Piece], Option<&'a [Piece]>)
        ensures value { slice_split (is_mark self) pieces.now
            ≡ result.0.now ∷ segments_in (is_mark self) result.1 }
        ensures shorter { size_in result.1 ≤ length pieces.now }
    {
        let n = self.at(pieces);
        if n < pieces.len() {
            (&pieces[..n], Some(&pieces[n + 1..]))
        } else {
            (pieces, None)
        }
    }

    /// The pieces between it, in memory of their own.
    fn split(self, alloc: Global, pieces: &[Piece]) -> Result<Items<Items<Piece>>, NoMemory>
        ensures { IfOk result (λ parts. parts ≡ slice_split (is_mark self) pieces.now) }
    {
        let mut parts = Items::new(alloc);
        let mut left = Some(pieces);
        while let Some(rest) = left {
            let (part, others) = self.split_first(rest);
            parts.push(copied(alloc, part)?)?;
            left = others;
        }
        Ok(parts)
    }
}

/// The pieces in memory of their own.
fn copied(alloc: Global, pieces: &[Piece]) -> Result<Items<Piece>, NoMemory>
    ensures { IfOk result (λ copy. copy ≡ pieces.now) }
{
    let mut copy = Vec::with_capacity(alloc, pieces.len())?;
    for piece in pieces {
        copy.push(piece.copy(alloc)?)?;
    }
    Ok(Items::from_vec(copy))
}

/// The first pieces, with the others behind them.
fn one_joined(alloc: Global, first: &[Piece], other: &[Piece]) -> Result<Items<Piece>, NoMemory>
    ensures { IfOk result (λ both. both ≡ first.now ++ other.now) }
{
    let mut both = copied(alloc, first)?;
    for piece in other {
        both.push(piece.copy(alloc)?)?;
    }
    Ok(both)
}

/// Puts the first pieces, with each of the others behind them, at the end.
fn add_joined(
    alloc: Global,
    first: &[Piece],
    others: &[Items<Piece>],
    patterns: &mut Items<Items<Piece>>,
) -> Result<(), NoMemory>
    ensures { OnOk result (patterns.new ≡ patterns.old ++ map (λ other. first.now ++ other) others.now) }
{
    for other in others {
        patterns.push(one_joined(alloc, first, other.as_slice())?)?;
    }
    Ok(())
}

/// Each of the first lists, with each of the others behind it.
fn joined(
    alloc: Global,
    firsts: &[Items<Piece>],
    others: &[Items<Piece>],
) -> Result<Items<Items<Piece>>, NoMemory>
    ensures { IfOk result (λ patterns. patterns ≡ joined firsts.now others.now) }
{
    let mut patterns = Items::new(alloc);
    for first in firsts {
        add_joined(alloc, first.as_slice(), others, &mut patterns)?;
    }
    Ok(patterns)
}

/// What stands behind an opening brace, up to the next one: each choice, with what follows the braces.
/// `None` where they aren't closed.
#[tactic(auto, using(crate::proofs::SpellingLemmas::closed_at, crate::proofs::SpellingLemmas::closed_nowhere))]
fn segment_patterns(
    alloc: Global,
    segment: &[Piece],
) -> Result<Option<Items<Items<Piece>>>, NoMemory>
    ensures { IfOk result (λ patterns. patterns ≡ segment_patterns segment.now) }
{
    let n = Mark::Close.at(segment);
    if n == segment.len() {
        return Ok(None);
    }
    let choices = Mark::Comma.split(alloc, &segment[..n])?;
    let mut behind = Items::new(alloc);
    behind.push(copied(alloc, &segment[n + 1..])?)?;
    Ok(Some(joined(alloc, choices.as_slice(), behind.as_slice())?))
}

/// Whether so many patterns, each with so many others behind it, are more than `MOST_PATTERNS`.
fn is_too_many(count: usize, others: usize) -> bool
    requires some { 0 < count }
    requires few { count ≤ MOST_PATTERNS }
    ensures { result ≡ nat_lt MOST_PATTERNS (count * others) }
{
    others > MOST_PATTERNS || count * others > MOST_PATTERNS
}

/// The plain patterns that pieces spell; `None` where braces aren't closed or stand in others, or there
/// are more than `MOST_PATTERNS`.
pub fn patterns_of(alloc: Global, pieces: &[Piece]) -> Result<Option<Items<Items<Piece>>>, NoMemory>
    ensures { IfOk result (λ patterns. patterns ≡ patterns_of pieces.now) }
{
    let (front, others) = Mark::Open.split_first(pieces);
    let mut patterns = Items::new(alloc);
    patterns.push(copied(alloc, front)?)?;
    let mut left = others;
    while let Some(rest) = left {
        let (segment, others) = Mark::Open.split_first(rest);
        let Some(more) = segment_patterns(alloc, segment)? else {
            return Ok(None);
        };
        if is_too_many(patterns.len(), more.len()) {
            return Ok(None);
        }
        patterns = joined(alloc, patterns.as_slice(), more.as_slice())?;
        left = others;
    }
    Ok(Some(patterns))
}

/// Whether the last piece is a slash.
fn ends_in_slash(pattern: &[Piece]) -> bool
    ensures { result ≡ ends_in_slash false pattern.now }
{
    let mut ends = false;
    for piece in pattern {
        ends = Mark::Slash.is(piece);
    }
    ends
}

/// The parts of a pattern. A slash at the end stands for any name below the folder.
pub fn parts_of(alloc: Global, pattern: &[Piece]) -> Result<Items<Items<Piece>>, NoMemory>
    ensures { IfOk result (λ parts. parts ≡ parts_of pattern.now) }
{
    if pattern.len() > 0 && ends_in_slash(pattern) {
        let mut parts = Mark::Slash.split(alloc, &pattern[..pattern.len() - 1])?;
        let mut name = Items::new(alloc);
        name.push(Piece::Plain('*'))?;
        let mut below = Items::new(alloc);
        below.push(Piece::Plain('*'))?;
        below.push(Piece::Plain('*'))?;
        parts.push(name)?;
        parts.push(below)?;
        Ok(parts)
    } else {
        Mark::Slash.split(alloc, pattern)
    }
}
