//! What a module exports.
ghost use Rattle.std.specs.Prelude.{◌≡◌, IfOk};
ghost use Rattle.es_host.specs.Files.{file_in};
ghost use Rattle.es_scopes.specs.Declarations.{some_list};
ghost use Rattle.es_rules_scope.specs.Exports.{is_entry, is_exported, listed, listed_at, listed_by};

use crate::field::{EXPORTED_LOCAL, SOURCE};
use crate::marks::put;
use crate::say::name_at;
use es_host::FileView;
use es_text::NoMemory;
use es_tree::kind::{
    CLASS_DECLARATION, EXPORT_DEFAULT_DECLARATION, EXPORT_NAMED_DECLARATION, EXPORT_SPECIFIER,
    FUNCTION_DECLARATION, IDENTIFIER, VARIABLE_DECLARATION,
};
use es_tree::{Ancestors, Tree, child, is_one_of, parent, stands_in};
use std::alloc::Global;

/// What declares names that can be exported.
const DECLARATIONS: [u16; 3] = [
    VARIABLE_DECLARATION,
    FUNCTION_DECLARATION,
    CLASS_DECLARATION,
];

/// What can export a declaration.
const EXPORTS: [u16; 2] = [EXPORT_NAMED_DECLARATION, EXPORT_DEFAULT_DECLARATION];

/// Whether the innermost declaration around the name is an export's.
pub fn is_exported(tree: &Tree, node: u32) -> bool
    ensures { result ≡ is_exported tree.now node }
{
    for around in Ancestors::of(tree, node) {
        if is_one_of(tree, &DECLARATIONS, around) {
            return stands_in(tree, &EXPORTS, around);
        }
    }
    false
}

/// Whether the node is an entry of a list of exports of this module's own names.
fn is_entry(tree: &Tree, node: u32) -> bool
    ensures { result ≡ is_entry tree.now node }
{
    if !is_one_of(tree, &[EXPORT_SPECIFIER], node) {
        return false;
    }
    match parent(tree, node) {
        Some(above) => child(tree, above, SOURCE).is_none(),
        None => false,
    }
}

/// The variable of the Program that the local name of an entry names.
fn listed_by(file: &FileView, local: u32) -> Option<u32>
    ensures { result ≡ listed_by (file_in file.now) local }
{
    let tree = &file.parsed.tree;
    if is_one_of(tree, &[IDENTIFIER], local) {
        file.scopes.resolve(0, name_at(tree, local))
    } else {
        None
    }
}

/// The variable that the node names, if it is an entry of a list of exports.
fn listed_at(file: &FileView, node: u32) -> Option<u32>
    ensures { some_list result ≡ listed_at (file_in file.now) node }
{
    let tree = &file.parsed.tree;
    if !is_entry(tree, node) {
        return None;
    }
    let local = child(tree, node, EXPORTED_LOCAL)?;
    listed_by(file, local)
}

/// The variables that lists of exports name.
pub fn listed(alloc: Global, file: &FileView) -> Result<Vec<u32>, NoMemory>
    ensures { IfOk result (λ found. found.items ≡ listed (file_in file.now)) }
{
    let mut found = Vec::new(alloc);
    for node in 0..file.parsed.tree.count() {
        put(&mut found, listed_at(file, node))?;
    }
    Ok(found)
}
