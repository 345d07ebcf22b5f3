//! Numbers.
ghost use Rattle.std.specs.Prelude.{◌≡◌, ◌∷◌, IfSome, Some, true};
ghost use Rattle.std.specs.Option.{option_map};
ghost use Rattle.es_text.specs.Characters.{is_decimal, letter_n, zero_digit};
ghost use Rattle.es_text.specs.Numbers.{after_number, digits, exponent, fraction, further_digit};
ghost use Rattle.es_text.specs.Numbers.{nondecimal_literal, numeric_literal};
ghost use Rattle.es_text.specs.Productions.{just, optional};
ghost use Rattle.es_text.specs.Rest.{begins, many};
ghost use Rattle.es_lexer.specs.Classes.{is_in};
ghost use Rattle.es_lexer.specs.Cursors.{GoesOn, rest_of};
ghost use Rattle.es_lexer.specs.Integers.{after_integer, after_letter, after_point, fraction_and_exponent};

use crate::class::{Class, is_decimal, is_start};
use crate::cursor::Cursor;
use crate::item::{Item, past_many};

/// A digit that follows a digit, with the `_` that may stand before it.
#[derive(Clone, Copy)]
struct FurtherDigit {
    digit: Class,
}

impl Item for FurtherDigit {
    ghost behind = { λ item. further_digit (is_in item.digit) };

    #[tactic(auto, unfolding(es_text::specs::Numbers::further_digit))]
    fn end<'a>(&self, start: Cursor<'a>) -> Option<Cursor<'a>> {
        match start.just('_') {
            Some(next) => next.one_of(self.digit),
            None => start.one_of(self.digit),
        }
    }
}

/// The end of the number that begins here, with nothing joined to it.
pub fn number_end(start: Cursor<'_>) -> Option<Cursor<'_>>
    ensures value { option_map rest_of result ≡ after_number (rest_of start.entry) }
    ensures moves { IfSome result (GoesOn start.entry) }
{
    let end = literal_end(start)?;
    match end.next() {
        Some((c, _)) if is_start(c) || is_decimal(c) => None,
        _ => Some(end),
    }
}

/// The end of the longest numeric literal that begins here.
fn literal_end(start: Cursor<'_>) -> Option<Cursor<'_>>
    ensures value { option_map rest_of result ≡ numeric_literal (rest_of start.entry) }
    ensures moves { IfSome result (GoesOn start.entry) }
{
    let (c, next) = start.next()?;
    match c {
        '.' => point_end(next),
        '0' => Some(zero_end(next)),
        '1'..='9' => Some(whole_end(past_further(next, Class::Decimal))),
        _ => None,
    }
}

/// The end of a numeric literal that begins with a point, from behind that point.
fn point_end(start: Cursor<'_>) -> Option<Cursor<'_>>
    ensures value { option_map rest_of result ≡ after_point (rest_of start.entry) }
    ensures moves { IfSome result (GoesOn start.entry) }
{
    let end = digits_end(start, Class::Decimal)?;
    Some(past_exponent(end))
}

/// The end of a numeric literal that begins with 0, from behind that 0.
fn zero_end(start: Cursor<'_>) -> Cursor<'_>
    ensures value { Some (rest_of result) ≡ numeric_literal (zero_digit ∷ rest_of start.entry) }
    ensures moves { GoesOn start.entry result }
{
    if start.begins(Class::Decimal) {
        return leading_zero_end(start);
    }
    match nondecimal_end(start) {
        Some(end) => end,
        None => whole_end(start),
    }
}

/// The end of a numeric literal that begins with 0 and a digit, from behind that 0.
fn leading_zero_end(start: Cursor<'_>) -> Cursor<'_>
    requires { begins is_decimal (rest_of start) ≡ true }
    ensures value { Some (rest_of result) ≡ numeric_literal (zero_digit ∷ rest_of start.entry) }
    ensures moves { GoesOn start.entry result }
{
    let octal = start.past(Class::Octal);
    if !octal.begins(Class::Decimal) {
        return octal;
    }
    past_parts(start.past(Class::Decimal))
}

/// The end of a numeric literal with a base, from behind its 0.
fn nondecimal_end(start: Cursor<'_>) -> Option<Cursor<'_>>
    ensures value { option_map rest_of result
        ≡ nondecimal_literal (zero_digit ∷ rest_of start.entry) }
    ensures moves { IfSome result (GoesOn start.entry) }
{
    let (c, next) = start.next()?;
    match c {
        'x' | 'X' => based_end(next, Class::Hex),
        'o' | 'O' => based_end(next, Class::Octal),
        'b' | 'B' => based_end(next, Class::Binary),
        _ => None,
    }
}

/// The end of a numeric literal with a base, from behind the letter of the base.
fn based_end(start: Cursor<'_>, digit: Class) -> Option<Cursor<'_>>
    ensures value { option_map rest_of result ≡ after_letter (is_in digit) (rest_of start.entry) }
    ensures moves { IfSome result (GoesOn start.entry) }
{
    let end = digits_end(start, digit)?;
    Some(past_suffix(end))
}

/// The cursor behind what follows the digits in front of a point: a suffix, or a fraction and an
/// exponent.
#[tactic(auto, using(crate::proofs::NumberLemmas::integer_big))]
fn whole_end(start: Cursor<'_>) -> Cursor<'_>
    ensures value { Some (rest_of result) ≡ after_integer (rest_of start.entry) }
    ensures moves { GoesOn start.entry result }
{
    match start.just('n') {
        Some(end) => end,
        None => past_parts(start),
    }
}

/// The cursor behind a fraction and an exponent, where they stand here.
fn past_parts(start: Cursor<'_>) -> Cursor<'_>
    ensures value { Some (rest_of result) ≡ fraction_and_exponent (rest_of start.entry) }
    ensures moves { GoesOn start.entry result }
{
    match fraction_end(start) {
        Some(point) => past_exponent(point),
        None => past_exponent(start),
    }
}

/// The cursor behind an exponent, where one stands here.
fn past_exponent(start: Cursor<'_>) -> Cursor<'_>
    ensures value { Some (rest_of result) ≡ optional exponent (rest_of start.entry) }
    ensures moves { GoesOn start.entry result }
{
    match exponent_end(start) {
        Some(end) => end,
        None => start,
    }
}

/// The cursor behind a suffix, where one stands here.
fn past_suffix(start: Cursor<'_>) -> Cursor<'_>
    ensures value { Some (rest_of result) ≡ optional (just letter_n) (rest_of start.entry) }
    ensures moves { GoesOn start.entry result }
{
    match start.just('n') {
        Some(end) => end,
        None => start,
    }
}

/// The cursor behind a fraction.
#[tactic(auto, unfolding(es_text::specs::Numbers::fraction))]
fn fraction_end(start: Cursor<'_>) -> Option<Cursor<'_>>
    ensures value { option_map rest_of result ≡ fraction (rest_of start.entry) }
    ensures moves { IfSome result (GoesOn start.entry) }
{
    let point = start.just('.')?;
    match digits_end(point, Class::Decimal) {
        Some(end) => Some(end),
        None => Some(point),
    }
}

/// The cursor behind an exponent.
#[tactic(auto, unfolding(es_text::specs::Numbers::exponent))]
fn exponent_end(start: Cursor<'_>) -> Option<Cursor<'_>>
    ensures value { option_map rest_of result ≡ exponent (rest_of start.entry) }
    ensures moves { IfSome result (GoesOn start.entry) }
{
    let letter = start.one_of(Class::LetterE)?;
    match letter.one_of(Class::Sign) {
        Some(sign) => digits_end(sign, Class::Decimal),
        None => digits_end(letter, Class::Decimal),
    }
}

/// The cursor behind digits, of which there is one at least.
#[tactic(auto, unfolding(es_text::specs::Numbers::digits))]
fn digits_end(start: Cursor<'_>, digit: Class) -> Option<Cursor<'_>>
    ensures value { option_map rest_of result ≡ digits (is_in digit) (rest_of start.entry) }
    ensures moves { IfSome result (GoesOn start.entry) }
{
    let first = start.one_of(digit)?;
    Some(past_further(first, digit))
}

/// The cursor behind the further digits, from behind a digit.
#[tactic(auto, using(crate::proofs::ProductionLemmas::further_digit_shrinks))]
fn past_further(start: Cursor<'_>, digit: Class) -> Cursor<'_>
    ensures value { rest_of result ≡ many (further_digit (is_in digit)) (rest_of start.entry) }
    ensures moves { GoesOn start.entry result }
{
    past_many(&FurtherDigit { digit }, start)
}
