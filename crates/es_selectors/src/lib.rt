//! Selectors of ESLint's rules, as esquery has them: reading them, and telling which nodes of a tree
//! they match.
#![tactic(auto)]

mod atom;
mod attribute;
mod chain;
mod fault;
mod found;
mod group;
mod law;
mod lexical;
mod matching;
mod reader;
mod selector;
#[cfg(test)]
mod spelling_texts;
mod spot;
mod standing;
#[cfg(test)]
mod tests;
#[cfg(test)]
mod tree_texts;
mod word;

pub use fault::SelectorFault;
pub use law::one_spelling;
pub use matching::Selector;
pub use reader::read;
pub use selector::{Atom, Chain, Combinator, Comparison, Condition, Group, Link, Spelling};
