//! Constant tables: the reserved words, the punctuators, the kinds of nodes with their fields, and
//! the look-ups in them.
#![tactic(auto)]

mod fields;
mod kinds;
mod row;
mod table;
#[cfg(test)]
mod tests;
mod words;

pub use fields::{Holds, child_field, count_child_fields, field_of};
pub use kinds::node_kinds;
pub use row::Row;
pub use table::Table;
pub use words::{keywords, punctuators};
