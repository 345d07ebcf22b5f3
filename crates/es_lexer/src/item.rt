//! Pieces of a token of which there may be many.
ghost use Rattle.std.specs.Prelude.{◌≡◌, ℕ, List, Option, IfSome};
ghost use Rattle.std.specs.Option.{option_map};
ghost use Rattle.es_text.specs.Rest.{many};
ghost use Rattle.es_lexer.specs.Cursors.{GoesOn, rest_of, StepsOn};
ghost use Rattle.es_lexer.specs.Items.{Shrinks};

use crate::cursor::Cursor;

/// A piece of a token, such as a character of a text.
pub trait Item {
    ghost behind: { Self → List ℕ → Option (List ℕ) };

    /// The cursor behind an item, if one begins here.
    fn end<'a>(&self, start: Cursor<'a>) -> Option<Cursor<'a>>
        ensures value { option_map rest_of result ≡ behind self.now (rest_of start.entry) }
        ensures moves { IfSome result (StepsOn start.entry) };
}

/// The cursor behind as many items as there are.
pub fn past_many<'a, I: Item>(item: &I, start: Cursor<'a>) -> Cursor<'a>
    requires { Shrinks (I.behind item.now) }
    ensures value { rest_of result ≡ many (I.behind item.now) (rest_of start.entry) }
    ensures moves { GoesOn start.entry result }
{
    let mut end = start;
    while let Some(next) = item.end(end) {
        end = next;
    }
    end
}
