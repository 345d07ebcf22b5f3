ghost use Rattle.std.specs.Prelude.{◌≡◌, IfOk};
ghost use Rattle.es_globs.specs.Patterns.{is_member, is_star, takes};
ghost use Rattle.es_globs.specs.Spelling.{is_plain, stands_for};

use es_text::{Items, NoMemory};
use std::alloc::Global;

/// What stands for characters in a plain pattern.
#[derive(Drop)]
pub enum Piece {
    /// A character as it stands in the glob: `*` takes any characters of a part, `?` one character, and
    /// another one itself.
    Plain(char),
    /// A character behind a backslash, which takes itself.
    Escaped(char),
    /// What stands between brackets, without a `!` in front.
    Class { negated: bool, members: Items<char> },
}

/// Whether the character is one of the members, or between two of them with a hyphen between.
fn is_member(c: char, members: &[char]) -> bool
    ensures { result ≡ is_member c members.now }
{
    let mut rest = members;
    while let [low, next, high, behind @ ..] = rest {
        if *next == '-' {
            if *low <= c && c <= *high {
                return true;
            }
            rest = behind;
        } else {
            if c == *low {
                return true;
            }
            rest = &rest[1..];
        }
    }
    match rest {
        [low, next] => c == *low || c == *next,
        [member] => c == *member,
        _ => false,
    }
}

impl Piece {
    /// Whether it takes any number of characters.
    pub fn is_star(&self) -> bool
        ensures { result ≡ is_star self.now }
    {
        match self {
            Piece::Plain(c) => *c == '*',
            Piece::Escaped(_) | Piece::Class { .. } => false,
        }
    }

    /// Whether it takes the character.
    pub fn takes(&self, c: char) -> bool
        ensures { result ≡ takes self.now c }
    {
        match self {
            Piece::Plain(p) => *p == '?' || c == *p,
            Piece::Escaped(p) => c == *p,
            Piece::Class { negated, members } => is_member(c, members.as_slice()) != *negated,
        }
    }

    /// Whether it is this character as it stands.
    pub fn is_plain(&self, mark: char) -> bool
        ensures { result ≡ is_plain mark self.now }
    {
        match self {
            Piece::Plain(c) => *c == mark,
            Piece::Escaped(_) | Piece::Class { .. } => false,
        }
    }

    /// Whether it is this character, also behind a backslash.
    pub fn stands_for(&self, mark: char) -> bool
        ensures { result ≡ stands_for mark self.now }
    {
        match self {
            Piece::Plain(c) | Piece::Escaped(c) => *c == mark,
            Piece::Class { .. } => false,
        }
    }

    /// An equal piece in memory of its own.
    pub fn copy(&self, alloc: Global) -> Result<Piece, NoMemory>
        ensures { IfOk result (λ copy. copy ≡ self.now) }
    {
        Ok(match self {
            Piece::Plain(c) => Piece::Plain(*c),
            Piece::Escaped(c) => Piece::Escaped(*c),
            Piece::Class { negated, members } => Piece::Class {
                negated: *negated,
                members: copied(alloc, members.as_slice())?,
            },
        })
    }
}

/// The characters in memory of their own.
pub fn copied(alloc: Global, characters: &[char]) -> Result<Items<char>, NoMemory>
    ensures { IfOk result (λ copy. copy ≡ characters.now) }
{
    let mut copy = Vec::with_capacity(alloc, characters.len())?;
    for c in characters {
        copy.push(*c)?;
    }
    Ok(Items::from_vec(copy))
}
