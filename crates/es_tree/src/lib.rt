//! Trees in the form of ESTree: nodes that are being made, and a finished tree whose nodes have
//! numbers.
#![tactic(auto)]

mod ancestors;
mod around;
mod attribute;
mod child_lists;
pub mod field;
pub mod kind;
pub mod kinds;
mod law;
mod node;
mod number;
mod parsed;
mod part;
mod rows;
mod shape;
mod sizes;
#[cfg(test)]
mod tests;
mod tree;

pub use ancestors::Ancestors;
pub use around::{
    child, has_words, is_one_of, is_set, parent, same_name, stands_as, stands_in, words,
};
pub use attribute::Attribute;
pub use law::{heights, parts_pass};
pub use node::Node;
pub use parsed::Parsed;
pub use shape::{AttributeValue, SetAttribute, Shape};
pub use tree::Tree;
