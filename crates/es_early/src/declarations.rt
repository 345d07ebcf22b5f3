//! A name that is declared twice in a scope.
ghost use Rattle.std.specs.Prelude.{ℕ, List, ◌≡◌, ◌&&◌, ◌==◌, ◌↔◌, length, nat_eq};
ghost use Rattle.std.specs.Prelude.{IfOk, IsTrue, OnOk};
ghost use Rattle.std.specs.List.{list_any};
ghost use Rattle.std.specs.Option.{is_some};
ghost use Rattle.std.specs.Str.{bytes_eq};
ghost use Rattle.es_early.specs.Lookups.{declares_beside, declares_lexically};
ghost use Rattle.es_early.specs.Declarations.{IsRedeclared, binding_of};
ghost use Rattle.es_early.specs.Declarations.{is_lexical_binding};
ghost use Rattle.es_early.specs.Notes.{HasFirsts, is_noted_before, noted, noted_at};

use crate::binding::{Binding, binding_of};
use crate::notes::{note, was_noted, was_noted_before};
use crate::scopes::{counts_in, scope_around};
use es_text::NoMemory;
use es_tree::field::NAME;
use es_tree::{Tree, words};
use std::alloc::Global;
use std::collections::HashMap;

/// Whether this is `let`, `const`, `class` or `import`.
fn is_lexical_binding(binding: Binding) -> bool
    ensures { result ≡ is_lexical_binding binding }
{
    match binding {
        Binding::Lexical => true,
        Binding::Var | Binding::Function | Binding::Parameter | Binding::Nothing => false,
    }
}

/// Notes the node at its scope and name, if it declares it by `let`, `const`, `class` or `import`,
/// and is the first there.
fn note_lexical<'a>(
    tree: &'a Tree,
    notes: &mut HashMap<(u32, &'a str), u32>,
    node: u32,
) -> Result<(), NoMemory>
    ensures { OnOk result ((scope : ℕ) (name : List ℕ) → noted_at notes.new scope name
        ≡ noted (declares_lexically tree.now scope name node) node
        (noted_at notes.old scope name)) }
{
    if !is_lexical_binding(binding_of(tree, node)) {
        return Ok(());
    }
    let Some(scope) = scope_around(tree, node) else {
        return Ok(());
    };
    if let Some(name) = words(tree, node, NAME) {
        note(notes, (scope, name), node)?;
    }
    Ok(())
}

/// For each scope and each name that `let`, `const`, `class` or `import` declares there, the first
/// node that does.
pub fn first_lexical(alloc: Global, tree: &Tree) -> Result<HashMap<(u32, &str), u32>, NoMemory>
    ensures { IfOk result (HasFirsts (declares_lexically tree.now) (length tree.now)) }
{
    let mut notes = HashMap::new(alloc);
    for node in 0..tree.count() {
        note_lexical(tree, &mut notes, node)?;
    }
    Ok(notes)
}

/// Notes the node at the scope and its name, where one is noted as lexical, and it is the first.
fn note_beside<'a>(
    lexical: &HashMap<(u32, &'a str), u32>,
    notes: &mut HashMap<(u32, &'a str), u32>,
    scope: u32,
    name: &'a str,
    node: u32,
) -> Result<(), NoMemory>
    ensures { OnOk result ((other : ℕ) (given : List ℕ) → noted_at notes.new other given
        ≡ noted (is_some (noted_at lexical.now other given)
        && (nat_eq scope other && bytes_eq name.now given)) node (noted_at notes.old other given)) }
{
    if was_noted(lexical, (scope, name)) {
        note(notes, (scope, name), node)?;
    }
    Ok(())
}

/// Notes the node at these scopes and its name, where one is noted as lexical, and it is the first.
fn note_in<'a>(
    lexical: &HashMap<(u32, &'a str), u32>,
    notes: &mut HashMap<(u32, &'a str), u32>,
    scopes: &[u32],
    name: &'a str,
    node: u32,
) -> Result<(), NoMemory>
    ensures { OnOk result ((scope : ℕ) (given : List ℕ) → noted_at notes.new scope given
        ≡ noted (is_some (noted_at lexical.now scope given)
        && (list_any (λ s. s == scope) scopes.now && bytes_eq name.now given))
        node (noted_at notes.old scope given)) }
{
    for scope in scopes {
        note_beside(lexical, notes, *scope, name, node)?;
    }
    Ok(())
}

/// Notes the node at its scopes and its name, where one is noted as lexical, and it is the first.
fn note_declared<'a>(
    alloc: Global,
    tree: &'a Tree,
    lexical: &HashMap<(u32, &'a str), u32>,
    notes: &mut HashMap<(u32, &'a str), u32>,
    node: u32,
) -> Result<(), NoMemory>
    ensures { OnOk result ((scope : ℕ) (name : List ℕ) → noted_at notes.new scope name
        ≡ noted (declares_beside tree.now lexical.now scope name node) node
        (noted_at notes.old scope name)) }
{
    let binding = binding_of(tree, node);
    if binding == Binding::Nothing {
        return Ok(());
    }
    let scopes = counts_in(alloc, tree, node, binding)?;
    match words(tree, node, NAME) {
        Some(name) => note_in(lexical, notes, &scopes, name, node),
        None => Ok(()),
    }
}

/// For each scope and name that has a lexical declaration, the first node that declares it at all.
pub fn first_declared<'a>(
    alloc: Global,
    tree: &'a Tree,
    lexical: &HashMap<(u32, &'a str), u32>,
) -> Result<HashMap<(u32, &'a str), u32>, NoMemory>
    ensures { IfOk result (HasFirsts (declares_beside tree.now lexical.now) (length tree.now)) }
{
    let mut notes = HashMap::new(alloc);
    for node in 0..tree.count() {
        note_declared(alloc, tree, lexical, &mut notes, node)?;
    }
    Ok(notes)
}

/// Whether a node before this one is noted at one of these scopes and the name.
fn is_noted_in<'a>(
    notes: &HashMap<(u32, &'a str), u32>,
    scopes: &[u32],
    name: &'a str,
    node: u32,
) -> bool
    ensures { result
        ≡ list_any (λ scope. is_noted_before (noted_at notes.now scope name.now) node) scopes.now }
{
    for scope in scopes {
        if was_noted_before(notes, (*scope, name), node) {
            return true;
        }
    }
    false
}

/// Whether the node declares a name again in a scope, where one of both does so lexically.
pub fn is_redeclared<'a>(
    alloc: Global,
    tree: &'a Tree,
    lexical: &HashMap<(u32, &'a str), u32>,
    declared: &HashMap<(u32, &'a str), u32>,
    node: u32,
) -> Result<bool, NoMemory>
    requires lexical { HasFirsts (declares_lexically tree.now) (length tree.now) lexical.now }
    requires declared { HasFirsts (declares_beside tree.now lexical.now) (length tree.now)
        declared.now }
    ensures { IfOk result (λ redeclared. IsTrue redeclared ↔ IsRedeclared tree.now node) }
{
    let binding = binding_of(tree, node);
    if binding == Binding::Nothing {
        return Ok(false);
    }
    let scopes = counts_in(alloc, tree, node, binding)?;
    let Some(name) = words(tree, node, NAME) else {
        return Ok(false);
    };
    if is_lexical_binding(binding) {
        Ok(is_noted_in(declared, &scopes, name, node))
    } else {
        Ok(is_noted_in(lexical, &scopes, name, node))
    }
}
