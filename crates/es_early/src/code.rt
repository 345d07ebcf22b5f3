use es_text::Span;

/// An early error: its code, from 1 to 8, and where it is.
///
/// 1 is a `return` outside of a function, 2 a `break` and 3 a `continue` without its target, 4 a
/// label inside of a statement of the same label, 5 a name that is declared twice, 6 a private name
/// that no class declares, 7 a `super` without a meaning, and 8 a second `default` of a switch.
#[derive(Clone, Copy, Debug, PartialEq, Eq)]
pub struct Early {
    pub code: u8,
    pub span: Span,
}

/// A `return` outside of a function.
pub const STRAY_RETURN: u8 = 1;

/// A `break` without its target.
pub const STRAY_BREAK: u8 = 2;

/// A `continue` without its target.
pub const STRAY_CONTINUE: u8 = 3;

/// A label inside of a statement of the same label.
pub const DOUBLED_LABEL: u8 = 4;

/// A name that is declared twice in a scope.
pub const REDECLARED: u8 = 5;

/// A private name that no class around it declares.
pub const UNDECLARED_PRIVATE: u8 = 6;

/// A `super` without a meaning.
pub const STRAY_SUPER: u8 = 7;

/// A second `default` of a switch.
pub const SECOND_DEFAULT: u8 = 8;
