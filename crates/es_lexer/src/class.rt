ghost use Rattle.std.specs.Prelude.{◌≡◌};
ghost use Rattle.es_text.specs.Characters.{is_line_terminator};
ghost use Rattle.es_text.specs.Characters.{is_decimal, is_letter_e, is_part, is_sign, is_start, is_white_space};
ghost use Rattle.es_lexer.specs.Classes.{is_in, is_wide_space};

/// A class of characters that a scan goes over.
#[derive(Clone, Copy)]
pub enum Class {
    /// What goes on in a name.
    Part,
    /// All but line terminators.
    InLine,
    Decimal,
    Octal,
    Binary,
    Hex,
    /// `+` and `-`.
    Sign,
    /// `e` and `E`.
    LetterE,
}

#[tactic(auto, unfolding(es_text::specs::Characters::is_part))]
pub fn is_in(class: Class, c: char) -> bool
    ensures { result ≡ is_in class c }
{
    match class {
        Class::Part => is_part(c),
        Class::InLine => !is_line_terminator(c),
        Class::Decimal => is_decimal(c),
        Class::Octal => matches!(c, '0'..='7'),
        Class::Binary => matches!(c, '0'..='1'),
        Class::Hex => c.is_ascii_hexdigit(),
        Class::Sign => matches!(c, '+' | '-'),
        Class::LetterE => matches!(c, 'e' | 'E'),
    }
}

pub fn is_line_terminator(c: char) -> bool
    ensures { result ≡ is_line_terminator c }
{
    matches!(c, '\n' | '\r' | '\u{2028}' | '\u{2029}')
}

#[tactic(auto, unfolding(es_text::specs::Characters::is_white_space))]
pub fn is_white_space(c: char) -> bool
    ensures { result ≡ is_white_space c }
{
    match c {
        '\t' | '\u{b}' | '\u{c}' | ' ' => true,
        _ => !c.is_ascii() && is_wide_space(c),
    }
}

/// The white space beyond ASCII.
fn is_wide_space(c: char) -> bool
    ensures { result ≡ is_wide_space c }
{
    match c {
        '\u{a0}' | '\u{1680}' | '\u{2000}'..='\u{200a}' => true,
        '\u{202f}' | '\u{205f}' | '\u{3000}' | '\u{feff}' => true,
        _ => false,
    }
}

pub fn is_decimal(c: char) -> bool
    ensures { result ≡ is_decimal c }
{
    c.is_ascii_digit()
}

#[tactic(auto, unfolding(es_text::specs::Characters::is_start))]
pub fn is_start(c: char) -> bool
    ensures { result ≡ is_start c }
{
    unicode_ident::is_xid_start(c) || c == '$' || c == '_'
}

#[tactic(auto, unfolding(es_text::specs::Characters::is_part))]
pub fn is_part(c: char) -> bool
    ensures { result ≡ is_part c }
{
    unicode_ident::is_xid_continue(c) || c == '$' || c == '\u{200c}' || c == '\u{200d}'
}
