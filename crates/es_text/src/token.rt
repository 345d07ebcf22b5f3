use crate::span::Span;

/// What a token is (ECMA-262, 12.5 to 12.8).
#[derive(Clone, Copy, Debug, PartialEq, Eq)]
pub enum TokenKind {
    /// A name, reserved or not (12.6).
    Word,
    /// `#` and a name (12.6).
    Private,
    /// A punctuator, with its index in the list of punctuators (12.7): its code in `es_tables`.
    Punctuator(u16),
    /// A numeric literal (12.8.3).
    Number,
    /// A string literal, in single or double quotes (12.8.4).
    Text,
    /// A regular expression literal, with its flags (12.8.5).
    RegExp,
    /// A template without substitutions (12.8.6).
    Full,
    /// A template's part up to its first `${`.
    Head,
    /// A template's part from a `}` up to the next `${`.
    Middle,
    /// A template's part from a `}` up to its end.
    Tail,
    /// The end of the text.
    End,
}

/// A token of a text, without the trivia in front of it.
#[derive(Clone, Copy, Debug, PartialEq, Eq)]
pub struct Token {
    /// What it is.
    pub kind: TokenKind,
    /// What it takes of the text; that of the end is empty.
    pub span: Span,
    /// Whether a line ends between the token before and this one, also inside of a block comment.
    pub line_before: bool,
}

/// A comment of a text, with its delimiters: `/*` to `*/`, or `//` or `#!` up to the line's end.
#[derive(Clone, Copy, Debug, PartialEq, Eq)]
pub struct Comment {
    /// Whether it is `/* */`.
    pub block: bool,
    /// What it takes of the text, without the line end behind it.
    pub span: Span,
}

/// How a token is read where `/` or `}` begins more than one form; the grammar fixes it, as it does
/// the goal symbols of ECMA-262, 12.
#[derive(Clone, Copy, Debug, PartialEq, Eq)]
pub enum LexMode {
    /// `/` and `}` are punctuators.
    Division,
    /// `/` begins a regular expression: an operand may begin here.
    RegExp,
    /// `}` goes on with a template.
    TemplateTail,
}

/// What kind of program a text is read as, as ESLint's `sourceType` names it.
#[derive(Clone, Copy, Debug, PartialEq, Eq)]
pub enum SourceType {
    /// A module of ECMAScript (16.2), strict throughout.
    Module,
    /// A CommonJS module: the body of a function, as Node.js reads it.
    Commonjs,
    /// A script (16.1).
    Script,
}
