//! A `break` or a `continue` without its target.
ghost use Rattle.std.specs.Prelude.{◌≡◌};
ghost use Rattle.std.specs.List.{list_any};
ghost use Rattle.es_early.specs.Jumps.{continues_at, ends_break, is_stray_break, is_stray_continue};
ghost use Rattle.es_early.specs.Labels.{around_in_function};

use crate::labels::{is_in_label_set, is_labelled};
use es_tree::field::LABEL;
use es_tree::kind::{BREAK_STATEMENT, CONTINUE_STATEMENT};
use es_tree::kinds::{FUNCTIONS_AND_STATIC_BLOCKS, LOOPS, LOOPS_AND_SWITCHES};
use es_tree::{Ancestors, Tree, child, is_one_of};

/// Whether a `break` with this label, or without one, aims at the statement around it.
fn ends_break(tree: &Tree, label: Option<u32>, statement: u32) -> bool
    ensures { result ≡ ends_break tree.now label statement }
{
    match label {
        Some(label) => is_labelled(tree, label, statement),
        None => is_one_of(tree, &LOOPS_AND_SWITCHES, statement),
    }
}

/// Whether a target of a `break` with this label, or without one, is around the node.
fn has_break_target(tree: &Tree, label: Option<u32>, node: u32) -> bool
    ensures { result ≡ list_any (ends_break tree.now label) (around_in_function tree.now node) }
{
    for around in Ancestors::of(tree, node) {
        if is_one_of(tree, &FUNCTIONS_AND_STATIC_BLOCKS, around) {
            return false;
        }
        if ends_break(tree, label, around) {
            return true;
        }
    }
    false
}

/// Whether the node is a `break` without its target.
pub fn is_stray_break(tree: &Tree, node: u32) -> bool
    ensures { result ≡ is_stray_break tree.now node }
{
    is_one_of(tree, &[BREAK_STATEMENT], node)
        && !has_break_target(tree, child(tree, node, LABEL), node)
}

/// Whether a `continue` with this label, or without one, aims at the statement around it.
fn continues_at(tree: &Tree, label: Option<u32>, statement: u32) -> bool
    ensures { result ≡ continues_at tree.now label statement }
{
    match label {
        Some(label) => {
            is_one_of(tree, &LOOPS, statement) && is_in_label_set(tree, label, statement)
        }
        None => is_one_of(tree, &LOOPS, statement),
    }
}

/// Whether a target of a `continue` with this label, or without one, is around the node.
fn has_continue_target(tree: &Tree, label: Option<u32>, node: u32) -> bool
    ensures { result ≡ list_any (continues_at tree.now label) (around_in_function tree.now node) }
{
    for outer in Ancestors::of(tree, node) {
        if is_one_of(tree, &FUNCTIONS_AND_STATIC_BLOCKS, outer) {
            return false;
        }
        if continues_at(tree, label, outer) {
            return true;
        }
    }
    false
}

/// Whether the node is a `continue` without its target.
pub fn is_stray_continue(tree: &Tree, node: u32) -> bool
    ensures { result ≡ is_stray_continue tree.now node }
{
    is_one_of(tree, &[CONTINUE_STATEMENT], node)
        && !has_continue_target(tree, child(tree, node, LABEL), node)
}
