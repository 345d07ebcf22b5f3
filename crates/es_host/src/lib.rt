//! Rules over files, kits of them, and the one walk that all rules of a kit hear.
#![tactic(auto)]

mod begin;
mod file;
mod files;
mod kit;
mod listeners;
mod nodes;
mod order;
mod report;
mod rule;
mod simple;
mod tokens;
mod walk;
mod words;

pub use file::{Ctx, FileView};
pub use files::{EachFile, FileRule};
pub use kit::{Kit, listen};
pub use nodes::{EachNode, NodeRule};
pub use rule::Rule;
pub use simple::{SimpleFileRule, SimpleNodeRule};
pub use words::{count_places, no_options, of_kind, of_kinds, plain};
