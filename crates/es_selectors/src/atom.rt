//! Atoms that hold no selector, and the words behind a colon.
ghost use Rattle.std.specs.Prelude.{◌≡◌, ◌<◌, ◌≤◌, IfOk, IfSome, length, map, option_and_then, option_map};
ghost use Rattle.std.specs.Prelude.{find};
ghost use Rattle.es_selectors.specs.KindAtoms.{kind_named};
ghost use Rattle.std.specs.Str.{str_eq_ignore_ascii_case};
ghost use Rattle.es_selectors.specs.Lexical.{name};
ghost use Rattle.es_selectors.specs.Spelling.{begins_atom, combinator, descendant, field, inner_field};
ghost use Rattle.es_selectors.specs.Spelling.{kind_atom, nest_at};
ghost use Rattle.es_selectors.specs.Spelling.{nested, plain_word};
ghost use Rattle.es_selectors.specs.Spelling.{plain_atom, word_among, word_at, words};
ghost use Rattle.es_selectors.specs.Told.{Gives};

use crate::fault::SelectorFault;
use crate::lexical::{Class, after, begins, name, number_in_parentheses, past_blanks, text_of};
use crate::selector::{Atom, Chain, Combinator, Group};
use crate::word::{Nest, Word};
use es_tables::{Row, node_kinds};
use es_text::Items;
use std::alloc::Global;

/// A word behind a colon, as it is written, with what it stands for.
struct WordRow {
    text: &'static [u8],
    word: Word,
}

static WORDS: [WordRow; 13] = [
    WordRow {
        text: b"statement",
        word: Word::Group(Group::Statement),
    },
    WordRow {
        text: b"declaration",
        word: Word::Group(Group::Declaration),
    },
    WordRow {
        text: b"expression",
        word: Word::Group(Group::Expression),
    },
    WordRow {
        text: b"pattern",
        word: Word::Group(Group::Pattern),
    },
    WordRow {
        text: b"function",
        word: Word::Group(Group::Function),
    },
    WordRow {
        text: b"not(",
        word: Word::Nest(Nest::Not),
    },
    WordRow {
        text: b"is(",
        word: Word::Nest(Nest::Is),
    },
    WordRow {
        text: b"matches(",
        word: Word::Nest(Nest::Is),
    },
    WordRow {
        text: b"has(",
        word: Word::Nest(Nest::Has),
    },
    WordRow {
        text: b"first-child",
        word: Word::FirstChild,
    },
    WordRow {
        text: b"last-child",
        word: Word::LastChild,
    },
    WordRow {
        text: b"nth-child(",
        word: Word::NthChild,
    },
    WordRow {
        text: b"nth-last-child(",
        word: Word::NthLastChild,
    },
];

/// The words behind a colon.
fn words() -> &'static [WordRow]
    ensures { map (λ row. (row.text.now, row.word)) result.now ≡ words }
{
    &WORDS
}

/// The first of these words that stands here, and what follows it.
fn word_among<'a>(rows: &[WordRow], text: &'a [char]) -> Option<(Word, &'a [char])>
    ensures value { option_map (λ read. (read.0, read.1.now)) result
        ≡ word_among (map (λ row. (row.text.now, row.word)) rows.now) text.now }
    ensures no_longer { IfSome result (λ read. length read.1.now ≤ length text.now) }
{
    for row in rows {
        if let Some(rest) = after(row.text, text) {
            return Some((row.word, rest));
        }
    }
    None
}

/// The word that stands here, and what follows it.
#[tactic(auto, unfolding(crate::specs::Spelling::word_at))]
fn word_at(text: &[char]) -> Option<(Word, &[char])>
    ensures value { option_map (λ read. (read.0, read.1.now)) result ≡ word_at text.now }
    ensures no_longer { IfSome result (λ read. length read.1.now ≤ length text.now) }
{
    word_among(words(), text)
}

/// The word here that takes a selector in parentheses, with its colon, and what follows it.
#[tactic(auto, unfolding(crate::specs::Spelling::nest_at))]
pub fn nest_at(text: &[char]) -> Option<(Nest, &[char])>
    ensures value { option_map (λ read. (read.0, read.1.now)) result ≡ nest_at text.now }
    ensures shorter { IfSome result (λ read. length read.1.now < length text.now) }
{
    let [':', behind @ ..] = text else {
        return None;
    };
    match word_at(behind)? {
        (Word::Nest(nest), rest) => Some((nest, rest)),
        _ => None,
    }
}

/// What the word says of a selector.
pub fn nested(nest: Nest, chains: Items<Chain<Atom>>) -> Atom
    ensures { result ≡ nested nest chains }
{
    match nest {
        Nest::Not => Atom::Not(chains),
        Nest::Is => Atom::Is(chains),
        Nest::Has => Atom::Has(chains),
    }
}

/// The kind that the word names, in any case of ASCII.
fn kind_named(word: &[char]) -> Option<u16>
    ensures { result ≡ kind_named word.now }
{
    let kinds = node_kinds();
    code_named(kinds.rows, word)
}

/// The code of the first row whose text is the word in any case of ASCII.
fn code_named(rows: &[Row], word: &[char]) -> Option<u16>
    ensures { result ≡ option_map (λ row. row.code)
        (find (λ row. str_eq_ignore_ascii_case word.now row.text.now) rows.now) }
{
    match rows.iter().find(|row| is_alike(word, row.text)) {
        Some(row) => Some(row.code),
        None => None,
    }
}

/// Whether the texts are the same in any case of ASCII.
fn is_alike(word: &[char], text: &str) -> bool
    ensures { result ≡ str_eq_ignore_ascii_case word.now text.now }
{
    let mut rest = word;
    for byte in text.as_bytes() {
        let [c, behind @ ..] = rest else {
            return false;
        };
        if !c.eq_ignore_ascii_case(&char::from(*byte)) {
            return false;
        }
        rest = behind;
    }
    rest.is_empty()
}

/// A field of a node or of a node above it, behind the first dot, and what follows it.
fn field(alloc: Global, text: &[char]) -> Result<(Atom, &[char]), SelectorFault>
    ensures value { Gives (field text.now) result }
    ensures shorter { IfOk result (λ read. length read.1.now < length text.now) }
{
    let Some((outer, behind)) = name(text) else {
        return Err(SelectorFault::Unread);
    };
    let outer = text_of(alloc, outer)?;
    match inner_field(behind) {
        Some((inner, rest)) => Ok((Atom::FieldOf(outer, text_of(alloc, inner)?), rest)),
        None => Ok((Atom::Field(outer), behind)),
    }
}

/// A further dot with a name, and what follows it.
fn inner_field(text: &[char]) -> Option<(&[char], &[char])>
    ensures value { option_map (λ read. (read.0.now, read.1.now)) result
        ≡ inner_field text.now }
    ensures shorter { IfSome result (λ read. length read.1.now < length text.now) }
{
    name(after(b".", text)?)
}

/// What a word stands for that takes no selector, and what follows it.
fn plain_word(word: Word, text: &[char]) -> Option<(Atom, &[char])>
    ensures value { option_map (λ read. (read.0, read.1.now)) result ≡ plain_word (word, text.now) }
    ensures no_longer { IfSome result (λ read. length read.1.now ≤ length text.now) }
{
    match word {
        Word::Group(group) => Some((Atom::Group(group), text)),
        Word::FirstChild => Some((Atom::NthChild(1), text)),
        Word::LastChild => Some((Atom::NthLastChild(1), text)),
        Word::NthChild => {
            let (number, rest) = number_in_parentheses(text)?;
            Some((Atom::NthChild(number), rest))
        }
        Word::NthLastChild => {
            let (number, rest) = number_in_parentheses(text)?;
            Some((Atom::NthLastChild(number), rest))
        }
        Word::Nest(_) => None,
    }
}

/// A word that takes no selector, with its colon behind it, and what follows it.
fn colon_atom(text: &[char]) -> Option<(Atom, &[char])>
    ensures value { option_map (λ read. (read.0, read.1.now)) result
        ≡ option_and_then plain_word (word_at text.now) }
    ensures no_longer { IfSome result (λ read. length read.1.now ≤ length text.now) }
{
    let (word, behind) = word_at(text)?;
    plain_word(word, behind)
}

/// A word for a kind, and what follows it.
fn kind_atom(text: &[char]) -> Option<(Atom, &[char])>
    ensures value { option_map (λ read. (read.0, read.1.now)) result
        ≡ option_map kind_atom (name text.now) }
    ensures shorter { IfSome result (λ read. length read.1.now < length text.now) }
{
    let (word, rest) = name(text)?;
    Some((Atom::Kind(kind_named(word)), rest))
}

/// An atom that holds no selector, but for those in brackets, and what follows it.
#[tactic(auto, unfolding(crate::specs::Spelling::plain_atom))]
pub fn plain_atom(alloc: Global, text: &[char]) -> Result<(Atom, &[char]), SelectorFault>
    ensures value { Gives (plain_atom text.now) result }
    ensures shorter { IfOk result (λ read. length read.1.now < length text.now) }
{
    let [c, behind @ ..] = text else {
        return Err(SelectorFault::Unread);
    };
    match *c {
        '*' => Ok((Atom::Any, behind)),
        '.' => field(alloc, behind),
        ':' => colon_atom(behind).ok_or(SelectorFault::Unread),
        _ => kind_atom(text).ok_or(SelectorFault::Unread),
    }
}

/// Whether an atom begins here.
#[tactic(auto, unfolding(crate::specs::Spelling::begins_atom))]
pub fn begins_atom(text: &[char]) -> bool
    ensures { result ≡ begins_atom text.now }
{
    let begins = match text {
        ['*' | '.' | '[' | ':', ..] => true,
        _ => begins(Class::NamePart, text),
    };
    begins && after(b":exit", text).is_none()
}

/// White space in front of an atom, which is a combinator, with what follows it.
#[tactic(auto, using(crate::proofs::LexicalLemmas::shorter_behind))]
fn descendant(text: &[char]) -> Option<(Combinator, &[char])>
    ensures value { option_map (λ read. (read.0, read.1.now)) result ≡ descendant text.now }
    ensures shorter { IfSome result (λ read. length read.1.now < length text.now) }
{
    if !begins(Class::Blank, text) {
        return None;
    }
    let behind = past_blanks(text);
    if begins_atom(behind) {
        Some((Combinator::Descendant, behind))
    } else {
        None
    }
}

/// The combinator here, with the white space around it, and what follows it.
#[tactic(auto, unfolding(crate::specs::Spelling::combinator))]
pub fn combinator(text: &[char]) -> Option<(Combinator, &[char])>
    ensures value { option_map (λ read. (read.0, read.1.now)) result ≡ combinator text.now }
    ensures shorter { IfSome result (λ read. length read.1.now < length text.now) }
{
    match past_blanks(text) {
        ['>', rest @ ..] => Some((Combinator::Child, past_blanks(rest))),
        ['+', rest @ ..] => Some((Combinator::Next, past_blanks(rest))),
        ['~', rest @ ..] => Some((Combinator::Later, past_blanks(rest))),
        _ => descendant(text),
    }
}
