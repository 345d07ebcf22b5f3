//! Directives in comments, the reports that they suppress, fixes that are made, and messages.
#![tactic(auto)]

mod character;
mod comment;
#[cfg(test)]
mod comment_texts;
mod covering;
mod directive;
mod entry;
#[cfg(test)]
mod fix_texts;
mod fixing;
mod global;
mod mark;
mod message;
mod part;
mod reading;
mod stretch;
mod suppression;
#[cfg(test)]
mod tests;
mod unused;

pub use covering::{covers, is_same, lists};
pub use directive::{BadEntry, DirectiveList, Entry, Mark, MarkKind};
pub use fixing::{Applied, apply};
pub use message::{FileResult, Message, UnitFix};
pub use reading::directives;
pub use suppression::{Suppressed, suppress};
