ghost use Rattle.std.specs.Str.{IsCharBoundary};

use crate::class::{Class, is_in};

/// A text, and an offset in it at which a character begins or the text ends.
#[derive(Clone, Copy)]
pub struct Cursor<'a> {
    pub text: &'a str,
    pub offset: usize,
    ghost on_boundary: { IsCharBoundary text.now offset },
}

impl<'a> Cursor<'a> {
    ghost use Rattle.std.specs.Prelude.{◌≡◌, [], drop, IfNone, IfSome, length};
    ghost use Rattle.std.specs.Option.{option_map};
    ghost use Rattle.es_text.specs.Productions.{just, one_of};
    ghost use Rattle.es_text.specs.Rest.{begins, begins_with, drop_while};
    ghost use Rattle.es_lexer.specs.Classes.{is_in};
    ghost use Rattle.es_lexer.specs.Cursors.{GoesOn, rest_of, StandsAt, StepsOn, StepsOver};

    /// The cursor at this offset of the text.
    pub fn at(text: &'a str, offset: usize) -> Cursor<'a>
        requires { IsCharBoundary text.now offset }
        ensures text { result.text.now ≡ text.now }
        ensures offset { result.offset ≡ offset }
    {
        Cursor { text, offset }
    }

    /// The text from here on.
    pub fn rest(self) -> &'a str
        ensures { result.now ≡ drop self.entry.offset self.entry.text.now }
    {
        &self.text[self.offset..]
    }

    /// The character that begins here and the cursor behind it, or `None` at the text's end.
    pub fn next(self) -> Option<(char, Cursor<'a>)>
        ensures step { IfSome result (λ step. StepsOver self.entry step.0 step.1) }
        ensures end { IfNone result (rest_of self.entry ≡ []) }
    {
        let bytes = self.text.as_bytes();
        if self.offset < bytes.len() && bytes[self.offset] < 128 {
            let c = bytes[self.offset] as char;
            let next = Cursor {
                text: self.text,
                offset: self.offset + 1,
            };
            return Some((c, next));
        }
        self.next_wide()
    }

    /// The same, of a character of any width.
    fn next_wide(self) -> Option<(char, Cursor<'a>)>
        ensures step { IfSome result (λ step. StepsOver self.entry step.0 step.1) }
        ensures end { IfNone result (rest_of self.entry ≡ []) }
    {
        let c = self.rest().chars().next()?;
        Some((
            c,
            Cursor {
                text: self.text,
                offset: self.offset + c.len_utf8(),
            },
        ))
    }

    /// Whether this character stands here.
    pub fn begins_with(self, x: char) -> bool
        ensures { result ≡ begins_with x (rest_of self.entry) }
    {
        match self.next() {
            Some((c, _)) => c == x,
            None => false,
        }
    }

    /// Whether a character of the class stands here.
    pub fn begins(self, class: Class) -> bool
        ensures { result ≡ begins (is_in class) (rest_of self.entry) }
    {
        match self.next() {
            Some((c, _)) => is_in(class, c),
            None => false,
        }
    }

    /// The cursor behind a character of the class, if one stands here.
    pub fn one_of(self, class: Class) -> Option<Cursor<'a>>
        ensures value { option_map rest_of result ≡ one_of (is_in class) (rest_of self.entry) }
        ensures moves { IfSome result (StepsOn self.entry) }
    {
        let (c, next) = self.next()?;
        if is_in(class, c) { Some(next) } else { None }
    }

    /// The cursor behind this character, if it stands here.
    pub fn just(self, x: char) -> Option<Cursor<'a>>
        ensures value { option_map rest_of result ≡ just x (rest_of self.entry) }
        ensures moves { IfSome result (StepsOn self.entry) }
    {
        let (c, next) = self.next()?;
        if c == x { Some(next) } else { None }
    }

    /// The cursor behind this word of ASCII, which stands here.
    pub fn past_word(self, word: &str) -> Cursor<'a>
        requires { StandsAt word.now self }
        ensures value { rest_of result ≡ drop (length word.now) (rest_of self.entry) }
        ensures moves { GoesOn self.entry result }
    {
        Cursor {
            text: self.text,
            offset: self.offset + word.len(),
        }
    }

    /// The first cursor from here on whose character is not of the class.
    pub fn past(self, class: Class) -> Cursor<'a>
        ensures value { rest_of result ≡ drop_while (is_in class) (rest_of self.entry) }
        ensures moves { GoesOn self.entry result }
    {
        let mut end = self;
        while let Some(next) = end.one_of(class) {
            end = next;
        }
        end
    }
}
