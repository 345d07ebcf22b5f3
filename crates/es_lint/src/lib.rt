//! Lints one file: parses its text, takes its directives, listens to the rules, sorts out what they say, and makes
//! passes of fixes over it.
#![tactic(auto)]

mod bad;
mod fatal;
mod globals;
mod linting;
mod message;
mod order;
mod pass;
mod passes;
mod result;
mod settings;

pub use result::lint;
