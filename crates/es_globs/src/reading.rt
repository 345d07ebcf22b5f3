//! The pieces that a glob is written in.
ghost use Rattle.std.specs.Prelude.{◌≡◌, ◌≤◌, ◌<◌, IfOk, IfSome, length};
ghost use Rattle.std.specs.List.{position_or_len};
ghost use Rattle.es_globs.specs.Reading.{class_in, class_of, is_right_bracket, piece_at, pieces_of};

use crate::piece::{Piece, copied};
use es_text::{Items, NoMemory};
use std::alloc::Global;

/// A piece, and how many characters it takes behind its first one.
#[derive(Drop)]
pub struct Taken {
    pub piece: Piece,
    pub more: usize,
}

/// Where the first `]` stands, or how many characters there are.
fn bracket_at(text: &[char]) -> usize
    ensures value { result ≡ position_or_len is_right_bracket text.now }
    ensures bound { result ≤ length text.now }
{
    for (i, c) in text.iter().enumerate() {
        if *c == ']' {
            return i;
        }
    }
    text.len()
}

/// What the characters between brackets stand for, if there is one behind a `!`.
fn class_of(alloc: Global, inside: &[char]) -> Result<Option<Piece>, NoMemory>
    ensures { IfOk result (λ class. class ≡ class_of inside.now) }
{
    let [first, others @ ..] = inside else {
        return Ok(None);
    };
    let negated = *first == '!';
    let members = if negated { others } else { inside };
    if members.is_empty() {
        return Ok(None);
    }
    Ok(Some(Piece::Class {
        negated,
        members: copied(alloc, members)?,
    }))
}

/// Behind `[`: the class up to the first `]`.
#[tactic(auto, using(crate::proofs::ReadingLemmas::class_ends, crate::proofs::ReadingLemmas::class_ends_nowhere))]
fn class_in(alloc: Global, behind: &[char]) -> Result<Option<Taken>, NoMemory>
    ensures value { IfOk result (λ taken. taken ≡ class_in behind.now) }
    ensures within { IfOk result (λ taken. IfSome taken (λ taken. taken.more ≤ length behind.now)) }
{
    let n = bracket_at(behind);
    if n == behind.len() {
        return Ok(None);
    }
    let Some(piece) = class_of(alloc, &behind[..n])? else {
        return Ok(None);
    };
    Ok(Some(Taken { piece, more: n + 1 }))
}

/// The piece that begins with this character, and how many of those behind it belong to it; `None`
/// where it doesn't end.
fn piece_at(alloc: Global, c: char, behind: &[char]) -> Result<Option<Taken>, NoMemory>
    ensures value { IfOk result (λ taken. taken ≡ piece_at c behind.now) }
    ensures within { IfOk result (λ taken. IfSome taken (λ taken. taken.more ≤ length behind.now)) }
{
    match c {
        '\\' => Ok(match behind {
            [escaped, ..] => Some(Taken {
                piece: Piece::Escaped(*escaped),
                more: 1,
            }),
            [] => None,
        }),
        '[' => class_in(alloc, behind),
        _ => Ok(Some(Taken {
            piece: Piece::Plain(c),
            more: 0,
        })),
    }
}

/// The pieces of a text; `None` where a class or an escape doesn't end, or a class is empty.
pub fn pieces_of(alloc: Global, text: &[char]) -> Result<Option<Items<Piece>>, NoMemory>
    ensures { IfOk result (λ pieces. pieces ≡ pieces_of text.now) }
{
    let mut pieces = Items::new(alloc);
    let mut rest = text;
    while let [c, behind @ ..] = rest {
        let Some(taken) = piece_at(alloc, *c, behind)? else {
            return Ok(None);
        };
        let Taken { piece, more } = taken;
        pieces.push(piece)?;
        rest = &behind[more..];
    }
    Ok(Some(pieces))
}
