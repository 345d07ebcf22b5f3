//! What names and Identifiers refer to.
ghost use Rattle.std.specs.Prelude.{◌≡◌, ◌<◌, ◌++◌, length, IfOk, OnOk};
ghost use Rattle.std.specs.HashMap.{get_by_text};
ghost use Rattle.es_tree.specs.Around.{name_of};
ghost use Rattle.es_scopes.specs.Chains.{AreNested, outward};
ghost use Rattle.es_scopes.specs.Declarations.{some_list};
ghost use Rattle.es_scopes.specs.Filled.{AreAllPlaces};
ghost use Rattle.es_scopes.specs.Gathering.{AreTables, finds};
ghost use Rattle.es_scopes.specs.Places.{first_some};
ghost use Rattle.es_scopes.specs.Uses.{reference_at, references, variable_of};
ghost use Rattle.es_scopes.specs.Variables.{variables};

use crate::chain::Outward;
use crate::places::{Places, stands};
use crate::scope::Scope;
use crate::uses::{Reference, use_of};
use crate::variables::Variables;
use es_text::NoMemory;
use es_tree::field::NAME;
use es_tree::{Tree, words};
use std::alloc::Global;
use std::collections::HashMap;

/// The variable that a table has at this name, which isn't hashed where the table has none.
#[tactic(auto, using(crate::proofs::TableLemmas::empty_finds))]
fn find(table: &HashMap<String, u32>, name: &str) -> Option<u32>
    ensures { result ≡ get_by_text table.now name.now }
{
    if table.is_empty() {
        return None;
    }
    table.get(name).copied()
}

/// The variable of this name in one scope.
fn find_in(tables: &[HashMap<String, u32>], name: &str, scope: u32) -> Option<u32>
    ensures { result ≡ finds tables.now name.now scope }
{
    find(tables.get(scope as usize)?, name)
}

/// The variable of this name of the innermost scope, from this one outwards, that has it.
pub fn resolve(
    scopes: &[Scope],
    tables: &[HashMap<String, u32>],
    scope: u32,
    name: &str,
) -> Option<u32>
    requires { AreNested scopes.now }
    ensures { result ≡ first_some (finds tables.now name.now) (outward scopes.now scope) }
{
    for around in Outward::from(scopes, scope) {
        if let Some(found) = find_in(tables, name, around) {
            return Some(found);
        }
    }
    None
}

/// The variable to which the name of a node resolves from where the node stands.
fn variable_of(tree: &Tree, places: &Places, gathered: &Variables, node: u32) -> Option<u32>
    requires places { AreAllPlaces tree.now places.now }
    requires tables { AreTables (variables tree.now) gathered.now.tables.items }
    requires node { node < length tree.now }
    ensures { result ≡ variable_of tree.now node (name_of tree.now node) }
{
    let name = words(tree, node, NAME)?;
    let scope = stands(tree, places, node).unwrap_or(0);
    resolve(&places.scopes, &gathered.tables, scope, name)
}

/// The reference that the node is, if it is used.
fn reference_at(tree: &Tree, places: &Places, gathered: &Variables, node: u32) -> Option<Reference>
    requires places { AreAllPlaces tree.now places.now }
    requires tables { AreTables (variables tree.now) gathered.now.tables.items }
    requires node { node < length tree.now }
    ensures { some_list result ≡ reference_at tree.now node }
{
    let found = use_of(tree, node)?;
    Some(Reference {
        node,
        read: found.read,
        write: found.write,
        variable: variable_of(tree, places, gathered, node),
    })
}

/// Puts a reference, if there is one, at the end.
fn put(references: &mut Vec<Reference>, found: Option<Reference>) -> Result<(), NoMemory>
    ensures { OnOk result (references.new.items ≡ references.old.items ++ some_list found) }
{
    if let Some(found) = found {
        references.push(found)?;
    }
    Ok(())
}

/// The references of the tree, in the order of their nodes.
pub fn references(
    alloc: Global,
    tree: &Tree,
    places: &Places,
    gathered: &Variables,
) -> Result<Vec<Reference>, NoMemory>
    requires places { AreAllPlaces tree.now places.now }
    requires tables { AreTables (variables tree.now) gathered.now.tables.items }
    ensures { IfOk result (λ found. found.items ≡ references tree.now) }
{
    let mut references = Vec::new(alloc);
    for node in 0..tree.count() {
        put(&mut references, reference_at(tree, places, gathered, node))?;
    }
    Ok(references)
}
