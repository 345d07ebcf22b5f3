//! Reads the tokens and the comments of a text.
#![tactic(auto)]

mod class;
mod comment;
mod cursor;
mod form;
mod item;
mod lexer;
mod literal;
mod number;
mod punctuator;
mod skip;
#[cfg(test)]
mod tests;

pub use comment::comments;
pub use es_text::LexMode;
pub use lexer::{LexFault, has_line, next};
