//! The words that every layer above speaks in: texts, offsets and places in them, tokens, findings,
//! lists, and the answer of a call that is out of memory.
#![tactic(auto)]

mod finding;
mod items;
mod law;
mod memory;
mod source;
mod span;
mod steps;
#[cfg(test)]
mod tests;
mod token;
mod txt;
mod unit_counts;

pub use finding::{Finding, Fix, Report, Severity};
pub use items::{Items, push_at};
pub use law::{parts_lie, tokens_lie};
pub use memory::NoMemory;
pub use source::{MOST_BYTES, MOST_TEXT_BYTES, Source, SourceFault};
pub use span::{Place, Span};
pub use steps::Steps;
pub use token::{Comment, LexMode, SourceType, Token, TokenKind};
pub use txt::Txt;
