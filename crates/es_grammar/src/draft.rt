//! What reading gives.
use crate::part::Field;
use es_text::{Items, Token};
use es_tree::{AttributeValue, Node};

/// A node, or a hole, for a field of the node around.
#[derive(Drop)]
pub struct Child {
    /// The field, where a rule has said it.
    pub field: Option<Field>,
    pub shape: Option<Node>,
}

/// The value of an attribute of the node around.
#[derive(Drop)]
pub struct Setting {
    pub field: Field,
    pub value: AttributeValue,
}

/// What was read and isn't yet in a node.
#[derive(Drop)]
pub struct Draft {
    pub children: Items<Child>,
    pub settings: Items<Setting>,
    /// The tokens of all that was read.
    pub tokens: Items<Token>,
    /// The kind of the node that the symbol around makes, where a part says so.
    pub becomes: Option<u16>,
}

/// What reading gives: it isn't there; it is nested too deeply; or what was read, and the offset behind it.
#[derive(Drop)]
pub enum Outcome {
    Not,
    Deep,
    Read(Draft, u32),
}
