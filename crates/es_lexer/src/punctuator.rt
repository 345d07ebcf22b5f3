ghost use Rattle.std.specs.Prelude.{◌≡◌, ◌==◌, ◌&&◌, IfSome, IfNone};
ghost use Rattle.std.specs.Option.{option_map};
ghost use Rattle.es_text.specs.Characters.{is_decimal};
ghost use Rattle.es_text.specs.Rest.{begins};
ghost use Rattle.es_text.specs.Tokens.{punctuator};
ghost use Rattle.es_lexer.specs.Cursors.{GoesOn, rest_of};
ghost use Rattle.es_lexer.specs.Forms.{form_of};
ghost use Rattle.es_lexer.specs.Longest.{HasNone, IsLongest};

use crate::class::Class;
use crate::cursor::Cursor;
use crate::form::Form;
use es_tables::{Row, punctuators};
use es_text::TokenKind;

/// The code of `?`.
const QUESTION_MARK: u16 = 37;

/// The code of `?.`.
const OPTIONAL_CHAIN: u16 = 38;

/// The longest punctuator that begins here.
pub fn punctuator(start: Cursor<'_>) -> Option<Form<'_>>
    ensures value { option_map form_of result ≡ punctuator (rest_of start.entry) }
    ensures moves { IfSome result (λ form. GoesOn start.entry form.end) }
{
    let row = row_at(start.rest())?;
    let end = start.past_word(row.text);
    if is_chain_before_digit(row.code, end) {
        return Some(Form {
            kind: TokenKind::Punctuator(QUESTION_MARK),
            end: start.past_word("?"),
        });
    }
    Some(Form {
        kind: TokenKind::Punctuator(row.code),
        end,
    })
}

/// Whether `?.` is no punctuator here, since a digit follows it: `a?.5:b` has `?` and `.5`.
fn is_chain_before_digit(code: u16, end: Cursor<'_>) -> bool
    ensures { result ≡ ((code == OPTIONAL_CHAIN) && begins is_decimal (rest_of end.entry)) }
{
    code == OPTIONAL_CHAIN && end.begins(Class::Decimal)
}

/// The row of the longest punctuator with which the text begins. The table looks for it among the
/// rows that begin with the text's first character, to which a binary search leads.
fn row_at(text: &str) -> Option<Row>
    ensures longest { IfSome result (λ row. IsLongest text.now row.code row.text.now) }
    ensures none { IfNone result (HasNone text.now) }
{
    let table = punctuators();
    match table.longest(text.as_bytes()) {
        Some(row) => Some(*row),
        None => None,
    }
}
