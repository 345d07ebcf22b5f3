//! A second `default` in a switch.
ghost use Rattle.std.specs.Prelude.{ℕ, ◌≡◌, ◌↔◌, length, nat_eq, IfOk, IsTrue, OnOk};
ghost use Rattle.std.specs.HashMap.{get};
ghost use Rattle.es_early.specs.Lookups.{HasDefaults, is_default_of};
ghost use Rattle.es_early.specs.Defaults.{IsSecondDefault, is_default};
ghost use Rattle.es_early.specs.Notes.{noted};

use crate::notes::{note, was_noted_before};
use es_text::NoMemory;
use es_tree::field::TEST;
use es_tree::kind::SWITCH_CASE;
use es_tree::{Tree, child, is_one_of, parent};
use std::alloc::Global;
use std::collections::HashMap;

/// Whether the node is a case without a test.
fn is_default(tree: &Tree, node: u32) -> bool
    ensures { result ≡ is_default tree.now node }
{
    is_one_of(tree, &[SWITCH_CASE], node) && child(tree, node, TEST).is_none()
}

/// Notes the node at its switch, if it is a `default`, and the first there.
fn note_default(tree: &Tree, notes: &mut HashMap<u32, u32>, node: u32) -> Result<(), NoMemory>
    ensures { OnOk result ((switch : ℕ) → get nat_eq notes.new switch
        ≡ noted (is_default_of tree.now switch node) node (get nat_eq notes.old switch)) }
{
    if is_default(tree, node) {
        if let Some(switch) = parent(tree, node) {
            note(notes, switch, node)?;
        }
    }
    Ok(())
}

/// For each switch its first `default`.
pub fn first_defaults(alloc: Global, tree: &Tree) -> Result<HashMap<u32, u32>, NoMemory>
    ensures { IfOk result (HasDefaults tree.now (length tree.now)) }
{
    let mut notes = HashMap::new(alloc);
    for node in 0..tree.count() {
        note_default(tree, &mut notes, node)?;
    }
    Ok(notes)
}

/// Whether the node is a second `default` of its switch.
pub fn is_second_default(tree: &Tree, firsts: &HashMap<u32, u32>, node: u32) -> bool
    requires { HasDefaults tree.now (length tree.now) firsts.now }
    ensures { IsTrue result ↔ IsSecondDefault tree.now node }
{
    if !is_default(tree, node) {
        return false;
    }
    match parent(tree, node) {
        Some(switch) => was_noted_before(firsts, switch, node),
        None => false,
    }
}
