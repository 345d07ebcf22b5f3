//! Globs: patterns for names of files.
#![tactic(auto)]

mod fault;
mod glob;
mod part;
mod path;
mod piece;
mod reading;
mod spelling;
#[cfg(test)]
mod tests;

pub use fault::GlobFault;
pub use glob::{Glob, MOST_CHARACTERS, glob_matches};
pub use part::split_first;
