//! What reads one token.
ghost use Rattle.std.specs.Prelude.{◌≡◌, map, option_map, slice_get};
ghost use Rattle.std.specs.List.{list_any};
ghost use Rattle.std.specs.Str.{bytes_eq};
ghost use Rattle.es_grammar.specs.Terminals.{is_reserved, kind_index, reads_kind, spellings, texts_of};
ghost use Rattle.es_grammar.specs.declared.part.Terminal.{Terminal as TerminalOf};
ghost use Rattle.es_tables.specs.Words.{keyword_words};

use crate::{Context, Terminal};
use es_text::TokenKind;

static SPELLINGS: [&str; 105] = [
    "{",
    "}",
    "(",
    ")",
    "[",
    "]",
    ".",
    "...",
    ";",
    ",",
    "<",
    ">",
    "<=",
    ">=",
    "==",
    "!=",
    "===",
    "!==",
    "+",
    "-",
    "*",
    "/",
    "%",
    "**",
    "++",
    "--",
    "<<",
    ">>",
    ">>>",
    "&",
    "|",
    "^",
    "!",
    "~",
    "&&",
    "||",
    "??",
    "?",
    "?.",
    ":",
    "=",
    "=>",
    "+=",
    "-=",
    "*=",
    "/=",
    "%=",
    "**=",
    "<<=",
    ">>=",
    ">>>=",
    "&=",
    "|=",
    "^=",
    "&&=",
    "||=",
    "??=",
    "break",
    "case",
    "catch",
    "class",
    "const",
    "continue",
    "debugger",
    "default",
    "delete",
    "do",
    "else",
    "enum",
    "export",
    "extends",
    "false",
    "finally",
    "for",
    "function",
    "if",
    "import",
    "in",
    "instanceof",
    "let",
    "new",
    "null",
    "return",
    "super",
    "switch",
    "this",
    "throw",
    "true",
    "try",
    "typeof",
    "var",
    "void",
    "while",
    "with",
    "yield",
    "await",
    "async",
    "static",
    "get",
    "set",
    "of",
    "from",
    "as",
    "target",
    "meta",
];

/// How many of these are punctuators, and how many reserved words stand behind those.
const PUNCTUATORS: usize = 57;

const KEYWORDS: usize = 38;

/// The texts of single tokens, in the order of their codes.
fn texts() -> &'static [&'static str]
    ensures { map (λ text. text.now) result.now ≡ spellings }
{
    &SPELLINGS
}

/// The words that are reserved everywhere.
fn reserved() -> &'static [&'static str]
    ensures { map (λ text. text.now) result.now ≡ keyword_words }
{
    &SPELLINGS[PUNCTUATORS..PUNCTUATORS + KEYWORDS]
}

/// Whether the text is one of these.
fn is_one_of(text: &str, texts: &[&str]) -> bool
    ensures { result ≡ list_any (λ other. bytes_eq text.now other.now) texts.now }
{
    texts.iter().any(|other| text == *other)
}

#[tactic(auto, unfolding(crate::specs::Terminals::kind_index))]
fn index(kind: TokenKind) -> u32
    ensures { result ≡ kind_index kind }
{
    match kind {
        TokenKind::Word => 0,
        TokenKind::Private => 1,
        TokenKind::Punctuator(_) => 2,
        TokenKind::Number => 3,
        TokenKind::Text => 4,
        TokenKind::RegExp => 5,
        TokenKind::Full => 6,
        TokenKind::Head => 7,
        TokenKind::Middle => 8,
        TokenKind::Tail => 9,
        TokenKind::End => 10,
    }
}

/// Whether the word is reserved everywhere.
fn is_keyword(text: &str) -> bool
    ensures { result ≡ list_any (bytes_eq text.now) keyword_words }
{
    is_one_of(text, reserved())
}

/// Whether the word is reserved here.
fn is_reserved_in(context: Context, text: &str) -> bool
    ensures { result ≡ is_reserved context text.now }
{
    let is_await = text == "await" && (context.in_module || context.await_operator);
    let is_keyword = is_keyword(text);
    is_keyword || is_await
}

/// The text at this index.
fn text_at(texts: &'static [&'static str], index: usize) -> Option<&'static str>
    ensures { result ≡ slice_get texts.now index }
{
    texts.get(index).copied()
}

/// The text of the token with this code.
fn spelling(code: u8) -> Option<&'static str>
    ensures { option_map (λ text. text.now) result ≡ slice_get spellings code }
{
    text_at(texts(), code as usize)
}

/// Whether the text is the spelling with this code.
fn is_spelled(code: u8, text: &str) -> bool
    ensures { result ≡ list_any (bytes_eq text.now) (texts_of (TerminalOf.Spelled code)) }
{
    match spelling(code) {
        Some(spelling) => text == spelling,
        None => false,
    }
}

impl Terminal {
    /// Whether the terminal reads a token of this kind and text, where the context allows it.
    #[tactic(auto, unfolding(crate::specs::Terminals::kind_index, crate::specs::Terminals::reads_kind, crate::specs::Terminals::texts_of))]
    pub fn reads(self, context: Context, kind: TokenKind, text: &str) -> bool
        ensures { result ≡ reads_kind context self kind text.now }
    {
        match self {
            Terminal::Word => index(kind) == 0,
            Terminal::Name => index(kind) == 0 && !is_reserved_in(context, text),
            Terminal::Private => index(kind) == 1,
            Terminal::Number => index(kind) == 3,
            Terminal::Text => index(kind) == 4,
            Terminal::RegExp => index(kind) == 5,
            Terminal::Full => index(kind) == 6,
            Terminal::Head => index(kind) == 7,
            Terminal::Middle => index(kind) == 8,
            Terminal::Tail => index(kind) == 9,
            Terminal::Spelled(code) => is_spelled(code, text),
            Terminal::AccessorWord => is_one_of(text, &["get", "set"]),
            Terminal::DeclarationWord => is_one_of(text, &["var", "let", "const"]),
            Terminal::AssignmentOperator => is_one_of(
                text,
                &[
                    "=", "+=", "-=", "*=", "/=", "%=", "**=", "<<=", ">>=", ">>>=", "&=", "|=",
                    "^=", "&&=", "||=", "??=",
                ],
            ),
            Terminal::EqualityOperator => is_one_of(text, &["==", "!=", "===", "!=="]),
            Terminal::RelationalOperator => is_one_of(text, &["<", ">", "<=", ">=", "instanceof"]),
            Terminal::ShiftOperator => is_one_of(text, &["<<", ">>", ">>>"]),
            Terminal::AdditiveOperator => is_one_of(text, &["+", "-"]),
            Terminal::MultiplicativeOperator => is_one_of(text, &["*", "/", "%"]),
            Terminal::UnaryOperator => {
                is_one_of(text, &["delete", "void", "typeof", "+", "-", "~", "!"])
            }
            Terminal::UpdateOperator => is_one_of(text, &["++", "--"]),
        }
    }
}
