//! What stands around a node, and what a node is.
ghost use Rattle.std.specs.Prelude.{◌≡◌, option_map};
ghost use Rattle.es_tree.specs.Rows.{IsNumbered};
ghost use Rattle.es_tree.specs.Around.{child, is_one_of, is_set, is_some, is_some_of, is_text};
ghost use Rattle.es_tree.specs.Around.{parent};
ghost use Rattle.es_tree.specs.Around.{same_name, stands_as, stands_in, words_of};

use crate::attribute::Attribute;
use crate::field::NAME;
use crate::tree::Tree;

/// The node's parent, or `None` for the root and for what is no node's number.
pub fn parent(tree: &Tree, node: u32) -> Option<u32>
    ensures parent { result ≡ parent tree.now node }
    ensures numbered { IsNumbered tree.now }
{
    if node < tree.count() {
        tree.parent(node)
    } else {
        None
    }
}

/// The one child in a field of the node, or `None` where there is none.
pub fn child(tree: &Tree, node: u32, field: u16) -> Option<u32>
    ensures { result ≡ child tree.now node field }
{
    if node < tree.count() {
        tree.field(node, field, 0)
    } else {
        None
    }
}

/// Whether the node is of one of these kinds.
pub fn is_one_of(tree: &Tree, kinds: &[u16], node: u32) -> bool
    ensures { result ≡ is_one_of kinds.now tree.now node }
{
    node < tree.count() && kinds.contains(&tree.kind(node))
}

/// Whether there is a node, and it is of one of these kinds.
fn is_some_of(tree: &Tree, kinds: &[u16], node: Option<u32>) -> bool
    ensures { result ≡ is_some_of kinds.now tree.now node }
{
    match node {
        Some(node) => is_one_of(tree, kinds, node),
        None => false,
    }
}

/// Whether the node's parent is of one of these kinds.
pub fn stands_in(tree: &Tree, kinds: &[u16], node: u32) -> bool
    ensures { result ≡ stands_in kinds.now tree.now node }
{
    is_some_of(tree, kinds, parent(tree, node))
}

/// Whether there is a node, and it is this one.
fn is_some(found: Option<u32>, node: u32) -> bool
    ensures { result ≡ is_some found node }
{
    match found {
        Some(found) => found == node,
        None => false,
    }
}

/// Whether the node is the one child in this field of a parent of one of these kinds.
pub fn stands_as(tree: &Tree, kinds: &[u16], field: u16, node: u32) -> bool
    ensures { result ≡ stands_as kinds.now field tree.now node }
{
    match parent(tree, node) {
        Some(above) => is_one_of(tree, kinds, above) && is_some(child(tree, above, field), node),
        None => false,
    }
}

/// The text that an attribute of the node has.
pub fn words(tree: &Tree, node: u32, field: u16) -> Option<&str>
    ensures { option_map (λ text. text.now) result ≡ words_of tree.now node field }
{
    if node >= tree.count() {
        return None;
    }
    match tree.attribute(node, field) {
        Attribute::Words(words) => Some(words),
        Attribute::Absent | Attribute::Flag(_) | Attribute::Length(_) => None,
    }
}

/// Whether an attribute of the node is this text.
pub fn has_words(tree: &Tree, node: u32, field: u16, text: &str) -> bool
    ensures { result ≡ is_text (words_of tree.now node field) text.now }
{
    match words(tree, node, field) {
        Some(words) => words == text,
        None => false,
    }
}

/// Whether both nodes have names, and the same.
pub fn same_name(tree: &Tree, a: u32, b: u32) -> bool
    ensures { result ≡ same_name tree.now a b }
{
    match words(tree, b, NAME) {
        Some(name) => match words(tree, a, NAME) {
            Some(other) => other == name,
            None => false,
        },
        None => false,
    }
}

/// Whether an attribute of the node is the flag `true`.
pub fn is_set(tree: &Tree, node: u32, field: u16) -> bool
    ensures { result ≡ is_set tree.now node field }
{
    if node >= tree.count() {
        return false;
    }
    match tree.attribute(node, field) {
        Attribute::Flag(flag) => flag,
        Attribute::Absent | Attribute::Words(_) | Attribute::Length(_) => false,
    }
}
