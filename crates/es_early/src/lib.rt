//! The early errors of a tree (ECMA-262, 13th edition), of which the first is found.
#![tactic(auto)]

mod binding;
mod code;
mod declarations;
mod defaults;
mod first_error;
mod firsts;
mod jumps;
mod labels;
mod law;
mod notes;
mod private_names;
mod returns;
mod scopes;
mod supers;
#[cfg(test)]
mod tests;

pub use code::Early;
pub use first_error::early;
pub use law::one_first;
