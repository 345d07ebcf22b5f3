ghost use Rattle.std.specs.Prelude.{◌≡◌, IfSome};
ghost use Rattle.std.specs.Option.{option_map};
ghost use Rattle.es_text.specs.Characters.{right_brace, slash};
ghost use Rattle.es_text.specs.Tokens.{by_mode, form, name, of_kind};
ghost use Rattle.es_lexer.specs.Cursors.{GoesOn, rest_of, StepsOver};
ghost use Rattle.es_lexer.specs.Forms.{form_of, number_or_punctuator};

use crate::class::{Class, is_start};
use crate::cursor::Cursor;
use crate::literal::{regexp_end, template_end, text_end};
use crate::number::number_end;
use crate::punctuator::punctuator;
use es_text::{LexMode, TokenKind};

/// A token's kind, and the cursor behind it.
#[derive(Clone, Copy)]
pub struct Form<'a> {
    pub kind: TokenKind,
    pub end: Cursor<'a>,
}

/// The form that begins here, or `None` where no form fits.
pub fn form_at(start: Cursor<'_>, mode: LexMode) -> Option<Form<'_>>
    ensures value { option_map form_of result ≡ form mode (rest_of start.entry) }
    ensures moves { IfSome result (λ form. GoesOn start.entry form.end) }
{
    let Some((c, next)) = start.next() else {
        return Some(Form {
            kind: TokenKind::End,
            end: start,
        });
    };
    if is_start(c) {
        return Some(Form {
            kind: TokenKind::Word,
            end: next.past(Class::Part),
        });
    }
    match c {
        '#' => of_kind(TokenKind::Private, name_end(next)),
        '"' | '\'' => of_kind(TokenKind::Text, text_end(next, c)),
        '`' => template_end(next, TokenKind::Full, TokenKind::Head),
        '/' => slash_form(start, next, mode),
        '}' => brace_form(start, next, mode),
        _ => number_or_punctuator(start),
    }
}

/// What a scan found, with its kind.
fn of_kind(kind: TokenKind, end: Option<Cursor<'_>>) -> Option<Form<'_>>
    ensures value { option_map form_of result ≡ of_kind kind (option_map rest_of end.entry) }
    ensures end { option_map (λ form. form.end) result ≡ end.entry }
{
    let end = end?;
    Some(Form { kind, end })
}

/// The end of the name that begins here.
fn name_end(start: Cursor<'_>) -> Option<Cursor<'_>>
    ensures value { option_map rest_of result ≡ name (rest_of start.entry) }
    ensures moves { IfSome result (GoesOn start.entry) }
{
    let (c, next) = start.next()?;
    if is_start(c) {
        Some(next.past(Class::Part))
    } else {
        None
    }
}

/// What begins with a slash, behind which `next` is.
#[tactic(auto, unfolding(es_text::specs::Tokens::by_mode, es_text::specs::Tokens::regular_expression))]
fn slash_form<'a>(start: Cursor<'a>, next: Cursor<'a>, mode: LexMode) -> Option<Form<'a>>
    requires { StepsOver start slash next }
    ensures value { option_map form_of result ≡ by_mode mode (rest_of start.entry) }
    ensures moves { IfSome result (λ form. GoesOn start.entry form.end) }
{
    match mode {
        LexMode::RegExp => of_kind(TokenKind::RegExp, regexp_end(next)),
        LexMode::Division | LexMode::TemplateTail => punctuator(start),
    }
}

/// What begins with a right brace, behind which `next` is.
#[tactic(auto, unfolding(es_text::specs::Tokens::by_mode, es_text::specs::Tokens::template_tail))]
fn brace_form<'a>(start: Cursor<'a>, next: Cursor<'a>, mode: LexMode) -> Option<Form<'a>>
    requires { StepsOver start right_brace next }
    ensures value { option_map form_of result ≡ by_mode mode (rest_of start.entry) }
    ensures moves { IfSome result (λ form. GoesOn start.entry form.end) }
{
    match mode {
        LexMode::TemplateTail => template_end(next, TokenKind::Tail, TokenKind::Middle),
        LexMode::Division | LexMode::RegExp => punctuator(start),
    }
}

/// A number, or a punctuator where no number stands.
fn number_or_punctuator(start: Cursor<'_>) -> Option<Form<'_>>
    ensures value { option_map form_of result ≡ number_or_punctuator (rest_of start.entry) }
    ensures moves { IfSome result (λ form. GoesOn start.entry form.end) }
{
    match number_end(start) {
        Some(end) => Some(Form {
            kind: TokenKind::Number,
            end,
        }),
        None => punctuator(start),
    }
}
