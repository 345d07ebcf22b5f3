//! The scopes of a tree, and in which of them its nodes stand.
ghost use Rattle.std.specs.Prelude.{◌≡◌, ◌+◌, ◌<◌, ◌++◌, length, IfOk, OnOk};
ghost use Rattle.es_scopes.specs.Opened.{if_opened, listed};
ghost use Rattle.es_scopes.specs.Places.{around, innermost, inside, is_left_out, nested};
ghost use Rattle.es_scopes.specs.Places.{own_scope, stands};
ghost use Rattle.es_scopes.specs.Filled.{AreAllPlaces, ArePlaces};

use crate::deciding::is_in_leaver;
use crate::field::DISCRIMINANT;
use crate::number::number;
use crate::opened::{CLASSES, is_field_value, kind_scope, knows_its_name};
use crate::scope::{Scope, ScopeKind};
use es_text::NoMemory;
use es_tree::field::ID;
use es_tree::kind::SWITCH_STATEMENT;
use es_tree::kinds::PLAIN_FUNCTIONS;
use es_tree::{Tree, parent, stands_as};
use std::alloc::Global;

/// The scopes of the nodes so far, and the scopes of these nodes.
#[derive(Drop)]
pub struct Places {
    /// The scopes by their numbers.
    pub scopes: Vec<Scope>,
    /// For each node the number of the first scope that it opens, behind that of a field whose value
    /// it is.
    pub owns: Vec<u32>,
    /// For each node the innermost scope that holds it, or `None` for the Program.
    pub stands: Vec<Option<u32>>,
    /// For each node the innermost scope of what stands in it.
    pub inside: Vec<Option<u32>>,
}

/// Whether the node stands outside of the scopes that its parent opens.
fn is_left_out(tree: &Tree, node: u32) -> bool
    ensures { result ≡ is_left_out tree.now node }
{
    if !is_in_leaver(tree, node) {
        return false;
    }
    stands_as(tree, &[SWITCH_STATEMENT], DISCRIMINANT, node)
        || stands_as(tree, &PLAIN_FUNCTIONS, ID, node)
        || stands_as(tree, &CLASSES, ID, node)
}

/// Opens a scope, if there is one, in the one around, and answers the innermost of both.
fn open(
    scopes: &mut Vec<Scope>,
    around: Option<u32>,
    kind: Option<ScopeKind>,
) -> Result<Option<u32>, NoMemory>
    ensures scopes { OnOk result (scopes.new.items ≡ scopes.old.items
        ++ nested around (length scopes.old.items) (listed kind)) }
    ensures inside { IfOk result
        (λ inside. inside ≡ innermost around (length scopes.old.items) (listed kind)) }
{
    let Some(kind) = kind else {
        return Ok(around);
    };
    let number = number(scopes.len())?;
    scopes.push(Scope {
        kind,
        parent: around,
    })?;
    Ok(Some(number))
}

/// A kind of scope, if the test passed.
fn if_opened(opens: bool, kind: ScopeKind) -> Option<ScopeKind>
    ensures { result ≡ if_opened opens kind }
{
    if opens { Some(kind) } else { None }
}

/// The innermost scope that holds the node, apart from those that it opens.
fn around(tree: &Tree, places: &Places, node: u32) -> Option<u32>
    requires { ArePlaces tree.now node places.now }
    ensures { result ≡ around tree.now node }
{
    let above = parent(tree, node)? as usize;
    if is_left_out(tree, node) {
        places.stands[above]
    } else {
        places.inside[above]
    }
}

/// Opens the scopes of the node, and notes in which it stands and what stands in it.
fn enter(tree: &Tree, places: &mut Places, node: u32) -> Result<(), NoMemory>
    requires { ArePlaces tree.now node places.old }
    ensures { OnOk result (ArePlaces tree.now (node + 1) places.new) }
{
    let around = around(tree, places, node);
    let field = if_opened(is_field_value(tree, node), ScopeKind::Field);
    let stands = open(&mut places.scopes, around, field)?;
    let own = number(places.scopes.len())?;
    let name = if_opened(knows_its_name(tree, node), ScopeKind::Name);
    let named = open(&mut places.scopes, stands, name)?;
    let inside = open(&mut places.scopes, named, kind_scope(tree, node))?;
    places.owns.push(own)?;
    places.stands.push(stands)?;
    places.inside.push(inside)?;
    Ok(())
}

/// The scopes of the tree, and where its nodes stand. Takes time linear in the tree.
pub fn place_all(alloc: Global, tree: &Tree) -> Result<Places, NoMemory>
    ensures { IfOk result (AreAllPlaces tree.now) }
{
    let mut places = Places {
        scopes: Vec::new(alloc),
        owns: Vec::new(alloc),
        stands: Vec::new(alloc),
        inside: Vec::new(alloc),
    };
    for node in 0..tree.count() {
        enter(tree, &mut places, node)?;
    }
    Ok(places)
}

/// The innermost scope that holds the node, or `None` for the Program.
pub fn stands(tree: &Tree, places: &Places, node: u32) -> Option<u32>
    requires places { AreAllPlaces tree.now places.now }
    requires node { node < length tree.now }
    ensures { result ≡ stands tree.now node }
{
    places.stands[node as usize]
}

/// The innermost scope of what stands in the node.
pub fn inside(tree: &Tree, places: &Places, node: u32) -> Option<u32>
    requires places { AreAllPlaces tree.now places.now }
    requires node { node < length tree.now }
    ensures { result ≡ inside tree.now node }
{
    places.inside[node as usize]
}

/// The first scope that the node opens, behind that of a field whose value it is.
pub fn own_scope(tree: &Tree, places: &Places, node: u32) -> u32
    requires places { AreAllPlaces tree.now places.now }
    requires node { node < length tree.now }
    ensures { result ≡ own_scope tree.now node }
{
    places.owns[node as usize]
}
