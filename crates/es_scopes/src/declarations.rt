//! Where each name of a tree is declared.
ghost use Rattle.std.specs.Prelude.{◌≡◌, ◌<◌, [], length, IfOk, OnOk};
ghost use Rattle.es_scopes.specs.Chains.{AreNested};
ghost use Rattle.es_scopes.specs.Declarations.{by_scope, declarations, declared_arguments};
ghost use Rattle.es_scopes.specs.Declarations.{declared_at, declared_inside, declared_outside};
ghost use Rattle.es_scopes.specs.Declarations.{name_declared, names_inside, out_to};
ghost use Rattle.es_scopes.specs.Declarations.{some_list};
ghost use Rattle.es_scopes.specs.Filled.{AreAllPlaces};
ghost use Rattle.es_scopes.specs.Gathering.{put_all};

use crate::binding::DeclarationKind;
use crate::bindings::kind_declared;
use crate::chain::home;
use crate::deciding::is_in_leaver;
use crate::opened::CLASSES;
use crate::places::{Places, inside, own_scope, stands};
use crate::scope::Scope;
use es_text::{Items, NoMemory, push_at};
use es_tree::field::{ID, NAME};
use es_tree::kind::{FUNCTION_EXPRESSION, IDENTIFIER};
use es_tree::kinds::PLAIN_FUNCTIONS;
use es_tree::{Tree, is_one_of, parent, stands_as, words};
use std::alloc::Global;

/// A name that is declared in a scope.
#[derive(Clone, Copy)]
pub struct Declaration {
    /// The number of the scope.
    pub scope: u32,
    pub kind: DeclarationKind,
    /// The Identifier that declares it, or `None` for an implicit `arguments`.
    pub node: Option<u32>,
}

/// The name that is declared.
pub fn name_declared(tree: &Tree, node: Option<u32>) -> &str
    ensures { result.now ≡ name_declared tree.now node }
{
    match node {
        Some(node) => words(tree, node, NAME).unwrap_or(""),
        None => "arguments",
    }
}

/// The scope out to which a declaration goes from the one in which its Identifier stands.
fn out_to(scopes: &[Scope], kind: DeclarationKind, scope: u32) -> Option<u32>
    requires { AreNested scopes.now }
    ensures { result ≡ out_to scopes.now kind scope }
{
    match kind {
        DeclarationKind::Var => home(scopes, scope),
        DeclarationKind::Let
        | DeclarationKind::Const
        | DeclarationKind::Function
        | DeclarationKind::Class
        | DeclarationKind::Import
        | DeclarationKind::Param
        | DeclarationKind::Catch
        | DeclarationKind::Arguments
        | DeclarationKind::Own => Some(scope),
    }
}

/// What an Identifier declares where it stands.
fn declared_outside(tree: &Tree, places: &Places, node: u32) -> Option<Declaration>
    requires places { AreAllPlaces tree.now places.now }
    requires node { node < length tree.now }
    ensures { result ≡ declared_outside tree.now node }
{
    let kind = kind_declared(tree, node)?;
    let stands = stands(tree, places, node)?;
    let scope = out_to(&places.scopes, kind, stands)?;
    Some(Declaration {
        scope,
        kind,
        node: Some(node),
    })
}

/// Whether the node names a class or a function expression, which knows its own name.
fn names_inside(tree: &Tree, node: u32) -> bool
    ensures { result ≡ names_inside tree.now node }
{
    if !is_in_leaver(tree, node) {
        return false;
    }
    stands_as(tree, &CLASSES, ID, node) || stands_as(tree, &[FUNCTION_EXPRESSION], ID, node)
}

/// What the name of a class or function expression declares inside of that.
fn declared_inside(tree: &Tree, places: &Places, node: u32) -> Option<Declaration>
    requires places { AreAllPlaces tree.now places.now }
    requires node { node < length tree.now }
    ensures { result ≡ declared_inside tree.now node }
{
    if !names_inside(tree, node) {
        return None;
    }
    let scope = own_scope(tree, places, parent(tree, node)?);
    Some(Declaration {
        scope,
        kind: DeclarationKind::Own,
        node: Some(node),
    })
}

/// What a function that isn't an arrow function declares by itself.
fn declared_arguments(tree: &Tree, places: &Places, node: u32) -> Option<Declaration>
    requires places { AreAllPlaces tree.now places.now }
    requires node { node < length tree.now }
    ensures { result ≡ declared_arguments tree.now node }
{
    if !is_one_of(tree, &PLAIN_FUNCTIONS, node) {
        return None;
    }
    let scope = inside(tree, places, node)?;
    Some(Declaration {
        scope,
        kind: DeclarationKind::Arguments,
        node: None,
    })
}

/// Puts the declaration, if there is one, to its scope's.
fn put(
    lists: &mut Items<Items<Declaration>>,
    declaration: Option<Declaration>,
) -> Result<(), NoMemory>
    ensures { OnOk result (lists.new ≡ put_all lists.old (some_list declaration)) }
{
    let Some(declaration) = declaration else {
        return Ok(());
    };
    let scope = declaration.scope as usize;
    if scope < lists.len() {
        push_at(lists, scope, declaration)?;
    }
    Ok(())
}

/// Puts what the node declares to what its scopes declare.
fn put_declared(
    tree: &Tree,
    places: &Places,
    lists: &mut Items<Items<Declaration>>,
    node: u32,
) -> Result<(), NoMemory>
    requires places { AreAllPlaces tree.now places.now }
    requires node { node < length tree.now }
    ensures { OnOk result (lists.new ≡ put_all lists.old (declared_at tree.now node)) }
{
    put(lists, declared_arguments(tree, places, node))?;
    if is_one_of(tree, &[IDENTIFIER], node) {
        put(lists, declared_outside(tree, places, node))?;
        put(lists, declared_inside(tree, places, node))?;
    }
    Ok(())
}

/// So many empty lists.
fn empty_lists(alloc: Global, count: usize) -> Result<Items<Items<Declaration>>, NoMemory>
    ensures { IfOk result (λ lists. lists ≡ by_scope count []) }
{
    let mut lists = Items::new(alloc);
    for _ in 0..count {
        lists.push(Items::new(alloc))?;
    }
    Ok(lists)
}

/// For each scope what is declared in it, in the order of the declaring nodes. Takes time linear in
/// the tree, but for what each `var` looks through out to its function.
pub fn declared(
    alloc: Global,
    tree: &Tree,
    places: &Places,
) -> Result<Items<Items<Declaration>>, NoMemory>
    requires { AreAllPlaces tree.now places.now }
    ensures { IfOk result
        (λ lists. lists ≡ by_scope (length places.now.scopes.items) (declarations tree.now)) }
{
    let mut lists = empty_lists(alloc, places.scopes.len())?;
    for node in 0..tree.count() {
        put_declared(tree, places, &mut lists, node)?;
    }
    Ok(lists)
}
