//! Labels, and a label inside of a statement of the same label.
ghost use Rattle.std.specs.Prelude.{◌≡◌};
ghost use Rattle.std.specs.List.{list_any};
ghost use Rattle.es_early.specs.Labels.{around_in_function, is_around, is_doubled_label};
ghost use Rattle.es_early.specs.Labels.{is_labelled, is_named, label_set};

use es_tree::field::LABEL;
use es_tree::kind::LABELED_STATEMENT;
use es_tree::kinds::FUNCTIONS_AND_STATIC_BLOCKS;
use es_tree::{Ancestors, Tree, child, is_one_of, parent, same_name, stands_as};

/// Whether there is a name, and the node has the same.
fn is_named(tree: &Tree, node: u32, named: Option<u32>) -> bool
    ensures { result ≡ is_named tree.now node named }
{
    match named {
        Some(named) => same_name(tree, named, node),
        None => false,
    }
}

/// Whether the statement is a labelled one, of the same label as this.
pub fn is_labelled(tree: &Tree, label: u32, statement: u32) -> bool
    ensures { result ≡ is_labelled tree.now label statement }
{
    is_one_of(tree, &[LABELED_STATEMENT], statement)
        && is_named(tree, label, child(tree, statement, LABEL))
}

/// Whether the label set of the statement has the label.
pub fn is_in_label_set(tree: &Tree, label: u32, statement: u32) -> bool
    ensures { result ≡ list_any (is_labelled tree.now label) (label_set tree.now statement) }
{
    for around in Ancestors::of(tree, statement) {
        if !is_one_of(tree, &[LABELED_STATEMENT], around) {
            return false;
        }
        if is_labelled(tree, label, around) {
            return true;
        }
    }
    false
}

/// Whether a statement of this label is around the node in its function.
pub fn has_label_around(tree: &Tree, label: u32, node: u32) -> bool
    ensures { result ≡ list_any (is_labelled tree.now label) (around_in_function tree.now node) }
{
    for around in Ancestors::of(tree, node) {
        if is_one_of(tree, &FUNCTIONS_AND_STATIC_BLOCKS, around) {
            return false;
        }
        if is_labelled(tree, label, around) {
            return true;
        }
    }
    false
}

/// Whether a statement of the same label as this one's is around a labelled statement.
fn is_around(tree: &Tree, label: u32, statement: Option<u32>) -> bool
    ensures { result ≡ is_around tree.now label statement }
{
    match statement {
        Some(statement) => has_label_around(tree, label, statement),
        None => false,
    }
}

/// Whether the node is a label of a statement inside of one of the same label.
pub fn is_doubled_label(tree: &Tree, node: u32) -> bool
    ensures { result ≡ is_doubled_label tree.now node }
{
    stands_as(tree, &[LABELED_STATEMENT], LABEL, node) && is_around(tree, node, parent(tree, node))
}
