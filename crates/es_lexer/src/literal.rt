//! Texts, regular expressions and templates.
ghost use Rattle.std.specs.Prelude.{◌≡◌, IfSome};
ghost use Rattle.std.specs.Option.{option_map};
ghost use Rattle.es_text.specs.Tokens.{after_class, after_regexp, after_template, after_text};
ghost use Rattle.es_text.specs.Tokens.{body_character, class_character, text_character, template_character};
ghost use Rattle.es_text.specs.Tokens.{escaped, escaped_in_line, template_end};
ghost use Rattle.es_lexer.specs.Cursors.{GoesOn, rest_of, StepsOn};
ghost use Rattle.es_lexer.specs.Forms.{form_of};

use crate::class::{Class, is_line_terminator};
use crate::cursor::Cursor;
use crate::form::Form;
use crate::item::{Item, past_many};
use es_text::TokenKind;

/// A character of a text in these quotes.
#[derive(Clone, Copy)]
struct TextCharacter {
    quote: char,
}

impl Item for TextCharacter {
    ghost behind = { λ item. text_character item.quote };

    #[tactic(auto, unfolding(es_text::specs::Tokens::text_character))]
    fn end<'a>(&self, start: Cursor<'a>) -> Option<Cursor<'a>> {
        let (c, next) = start.next()?;
        if c == '\\' {
            return escaped_end(next);
        }
        if c == self.quote || c == '\n' || c == '\r' {
            return None;
        }
        Some(next)
    }
}

/// A character or a class of a regular expression's body.
#[derive(Clone, Copy)]
struct BodyCharacter;

impl Item for BodyCharacter {
    ghost behind = { λ item. body_character };

    #[tactic(auto, unfolding(es_text::specs::Tokens::body_character))]
    fn end<'a>(&self, start: Cursor<'a>) -> Option<Cursor<'a>> {
        let (c, next) = start.next()?;
        if c == '\\' {
            return escaped_in_line_end(next);
        }
        if c == '[' {
            return class_end(next);
        }
        if c == '/' || is_line_terminator(c) {
            return None;
        }
        Some(next)
    }
}

/// A character of a class in a regular expression.
#[derive(Clone, Copy)]
struct ClassCharacter;

impl Item for ClassCharacter {
    ghost behind = { λ item. class_character };

    #[tactic(auto, unfolding(es_text::specs::Tokens::class_character))]
    fn end<'a>(&self, start: Cursor<'a>) -> Option<Cursor<'a>> {
        let (c, next) = start.next()?;
        if c == '\\' {
            return escaped_in_line_end(next);
        }
        if c == ']' || is_line_terminator(c) {
            return None;
        }
        Some(next)
    }
}

/// A character of a template.
#[derive(Clone, Copy)]
struct TemplateCharacter;

impl Item for TemplateCharacter {
    ghost behind = { λ item. template_character };

    #[tactic(auto, unfolding(es_text::specs::Tokens::template_character))]
    fn end<'a>(&self, start: Cursor<'a>) -> Option<Cursor<'a>> {
        let (c, next) = start.next()?;
        if c == '\\' {
            return escaped_end(next);
        }
        if c == '`' || c == '$' && next.begins_with('{') {
            return None;
        }
        Some(next)
    }
}

/// The end of a text, from behind the quote that begins it.
#[tactic(auto, using(crate::proofs::ItemLemmas::text_character_shrinks))]
pub fn text_end(start: Cursor<'_>, quote: char) -> Option<Cursor<'_>>
    ensures value { option_map rest_of result ≡ after_text quote (rest_of start.entry) }
    ensures moves { IfSome result (GoesOn start.entry) }
{
    past_many(&TextCharacter { quote }, start).just(quote)
}

/// The cursor behind what a backslash takes with it.
#[tactic(auto, unfolding(es_text::specs::Tokens::escaped))]
fn escaped_end(start: Cursor<'_>) -> Option<Cursor<'_>>
    ensures value { option_map rest_of result ≡ escaped (rest_of start.entry) }
    ensures moves { IfSome result (StepsOn start.entry) }
{
    let (c, next) = start.next()?;
    if c == '\r'
        && let Some(feed) = next.just('\n')
    {
        return Some(feed);
    }
    Some(next)
}

/// The cursor behind what a backslash takes with it in a regular expression.
#[tactic(auto, unfolding(es_text::specs::Tokens::escaped_in_line))]
fn escaped_in_line_end(start: Cursor<'_>) -> Option<Cursor<'_>>
    ensures value { option_map rest_of result ≡ escaped_in_line (rest_of start.entry) }
    ensures moves { IfSome result (StepsOn start.entry) }
{
    let (c, next) = start.next()?;
    if is_line_terminator(c) {
        None
    } else {
        Some(next)
    }
}

/// The end of a regular expression with its flags, from behind the slash that begins it.
#[tactic(auto, using(crate::proofs::ItemLemmas::body_character_shrinks), unfolding(es_text::specs::Tokens::after_regexp))]
pub fn regexp_end(start: Cursor<'_>) -> Option<Cursor<'_>>
    ensures value { option_map rest_of result ≡ after_regexp (rest_of start.entry) }
    ensures moves { IfSome result (GoesOn start.entry) }
{
    if start.begins_with('/') || start.begins_with('*') {
        return None;
    }
    let end = past_many(&BodyCharacter, start).just('/')?;
    Some(end.past(Class::Part))
}

/// The end of a class, from behind the bracket that begins it.
#[tactic(auto, using(crate::proofs::ItemLemmas::class_character_shrinks))]
fn class_end(start: Cursor<'_>) -> Option<Cursor<'_>>
    ensures value { option_map rest_of result ≡ after_class (rest_of start.entry) }
    ensures moves { IfSome result (StepsOn start.entry) }
{
    past_many(&ClassCharacter, start).just(']')
}

/// A template or a part of it, from behind the character that begins it: `closed` where a backtick
/// ends it, and `opened` where `${` does.
#[tactic(auto, using(crate::proofs::ItemLemmas::template_character_shrinks))]
pub fn template_end(start: Cursor<'_>, closed: TokenKind, opened: TokenKind) -> Option<Form<'_>>
    ensures value { option_map form_of result ≡ after_template closed opened (rest_of start.entry) }
    ensures moves { IfSome result (λ form. GoesOn start.entry form.end) }
{
    part_end(past_many(&TemplateCharacter, start), closed, opened)
}

/// What ends a template or a part of it here.
#[tactic(auto, unfolding(es_text::specs::Tokens::template_end))]
fn part_end(start: Cursor<'_>, closed: TokenKind, opened: TokenKind) -> Option<Form<'_>>
    ensures value { option_map form_of result ≡ template_end closed opened (rest_of start.entry) }
    ensures moves { IfSome result (λ form. GoesOn start.entry form.end) }
{
    let (c, next) = start.next()?;
    if c == '`' {
        return Some(Form {
            kind: closed,
            end: next,
        });
    }
    if c != '$' {
        return None;
    }
    let end = next.just('{')?;
    Some(Form { kind: opened, end })
}
