//! Stretches of a text.
ghost use Rattle.std.specs.Prelude.{◌≡◌, ◌+◌, ◌≤◌, length};
ghost use Rattle.es_text.specs.declared.source.TheConstants.{MOST_TEXT_BYTES};
ghost use Rattle.es_messages.specs.Stretches.{width};

use crate::character::{Class, len_without_end, run};
use es_text::Span;

/// Characters of a text, and the offset at which they stand.
#[derive(Clone, Copy)]
pub struct Stretch<'a> {
    pub at: u32,
    pub list: &'a [char],
    ghost fits: { at + width list.now ≤ MOST_TEXT_BYTES },
}

/// How many bytes the characters take in UTF-8.
fn width(characters: &[char]) -> u32
    requires { width characters.now ≤ MOST_TEXT_BYTES }
    ensures { result ≡ width characters.now }
{
    let mut bytes = 0;
    for c in characters {
        bytes += c.len_utf8() as u32;
    }
    bytes
}

impl<'a> Stretch<'a> {
    ghost use Rattle.es_messages.specs.Stretches.{behind, front, trimmed};
    ghost use Rattle.es_messages.specs.Directives.{span_of};
    ghost use Rattle.es_messages.specs.Seen.{seen};

    /// The first so many of the characters.
    pub fn front(self, n: usize) -> Stretch<'a>
        requires { n ≤ length self.list.now }
        ensures { seen result ≡ front n (seen self.entry) }
    {
        Stretch {
            at: self.at,
            list: &self.list[..n],
        }
    }

    /// What follows the first so many of them.
    pub fn behind(self, n: usize) -> Stretch<'a>
        requires { n ≤ length self.list.now }
        ensures { seen result ≡ behind n (seen self.entry) }
    {
        Stretch {
            at: self.at + width(&self.list[..n]),
            list: &self.list[n..],
        }
    }

    /// The stretch without white space at its ends.
    pub fn trimmed(self) -> Stretch<'a>
        ensures { seen result ≡ trimmed (seen self.entry) }
    {
        let rest = self.behind(run(Class::Blank, self.list));
        rest.front(len_without_end(rest.list))
    }

    /// What it takes of the text.
    pub fn span(self) -> Span
        ensures { result ≡ span_of (seen self.entry) }
    {
        Span {
            start: self.at,
            end: self.at + width(self.list),
        }
    }
}
