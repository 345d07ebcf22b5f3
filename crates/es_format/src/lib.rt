//! Reports of what linting gave, file by file, in ESLint's formats.
#![tactic(auto)]

mod lines;
mod message;
mod numbers;
mod objects;
mod tally;
#[cfg(test)]
mod tests;

pub use lines::stylish;
pub use message::message_value;
pub use objects::json;
