use crate::tree::Tree;
use es_text::{Comment, Items, Token};

/// What is read from a text.
#[derive(Drop)]
pub struct Parsed {
    pub tree: Tree,
    /// In their order; the last is the end of the text.
    pub tokens: Items<Token>,
    /// In their order.
    pub comments: Items<Comment>,
}
