//! A private name that no class around it declares.
ghost use Rattle.std.specs.Prelude.{ℕ, List, ◌≡◌, ◌&&◌, ◌↔◌, [], ◌∷◌, length, IfOk, IsTrue, OnOk};
ghost use Rattle.std.specs.List.{list_any};
ghost use Rattle.std.specs.Option.{is_some};
ghost use Rattle.es_tree.specs.declared.kind.TheConstants.{CLASS_BODY};
ghost use Rattle.es_early.specs.Lookups.{declares_named};
ghost use Rattle.es_tree.specs.Around.{ancestors, is_one_of};
ghost use Rattle.es_early.specs.Notes.{HasFirsts, noted, noted_at};
ghost use Rattle.es_early.specs.PrivateNames.{IsUndeclaredPrivate, is_private_name};
ghost use Rattle.es_early.specs.PrivateNames.{parent_of_some};

use crate::notes::{note, was_noted};
use es_text::NoMemory;
use es_tree::field::{KEY, NAME};
use es_tree::kind::{CLASS_BODY, PRIVATE_IDENTIFIER};
use es_tree::kinds::MEMBERS;
use es_tree::{Ancestors, Tree, is_one_of, parent, stands_as, words};
use std::alloc::Global;
use std::collections::HashMap;

/// Whether the node is a private name.
fn is_private_name(tree: &Tree, node: u32) -> bool
    ensures { result ≡ is_private_name tree.now node }
{
    is_one_of(tree, &[PRIVATE_IDENTIFIER], node)
}

/// The parent of a node that may be missing.
fn parent_of_some(tree: &Tree, node: Option<u32>) -> Option<u32>
    ensures { result ≡ parent_of_some tree.now node }
{
    match node {
        Some(node) => parent(tree, node),
        None => None,
    }
}

/// Notes the node at its class body and name, if it is the key of a member, and the first there.
fn note_private<'a>(
    tree: &'a Tree,
    notes: &mut HashMap<(u32, &'a str), u32>,
    node: u32,
) -> Result<(), NoMemory>
    ensures { OnOk result ((body : ℕ) (name : List ℕ) → noted_at notes.new body name
        ≡ noted (declares_named tree.now body name node) node (noted_at notes.old body name)) }
{
    if !is_private_name(tree, node) || !stands_as(tree, &MEMBERS, KEY, node) {
        return Ok(());
    }
    let Some(body) = parent_of_some(tree, parent(tree, node)) else {
        return Ok(());
    };
    if let Some(name) = words(tree, node, NAME) {
        note(notes, (body, name), node)?;
    }
    Ok(())
}

/// For each class body and each private name that it declares, the first node that does.
pub fn first_private_names(
    alloc: Global,
    tree: &Tree,
) -> Result<HashMap<(u32, &str), u32>, NoMemory>
    ensures { IfOk result (HasFirsts (declares_named tree.now) (length tree.now)) }
{
    let mut notes = HashMap::new(alloc);
    for node in 0..tree.count() {
        note_private(tree, &mut notes, node)?;
    }
    Ok(notes)
}

/// Whether the body of a class around the node declares the name.
fn is_declared_around<'a>(
    tree: &Tree,
    firsts: &HashMap<(u32, &'a str), u32>,
    name: &'a str,
    node: u32,
) -> bool
    ensures { result ≡ list_any (λ body. is_one_of (CLASS_BODY ∷ []) tree.now body
        && is_some (noted_at firsts.now body name.now)) (ancestors tree.now node) }
{
    for around in Ancestors::of(tree, node) {
        if is_one_of(tree, &[CLASS_BODY], around) && was_noted(firsts, (around, name)) {
            return true;
        }
    }
    false
}

/// Whether the node is a private name that no class around it declares.
pub fn is_undeclared_private<'a>(
    tree: &'a Tree,
    firsts: &HashMap<(u32, &'a str), u32>,
    node: u32,
) -> bool
    requires { HasFirsts (declares_named tree.now) (length tree.now) firsts.now }
    ensures { IsTrue result ↔ IsUndeclaredPrivate tree.now node }
{
    if !is_private_name(tree, node) {
        return false;
    }
    match words(tree, node, NAME) {
        Some(name) => !is_declared_around(tree, firsts, name, node),
        None => true,
    }
}
