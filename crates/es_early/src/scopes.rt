//! The scopes in which names count.
ghost use Rattle.std.specs.Prelude.{◌≡◌, IfOk};
ghost use Rattle.es_early.specs.Declarations.{counts_in, is_body, is_scope};
ghost use Rattle.es_early.specs.Declarations.{is_var_scope, listed, scope_around};
ghost use Rattle.es_early.specs.Declarations.{scope_around_some, scopes_in_function};

use crate::binding::Binding;
use es_text::NoMemory;
use es_tree::kind::{
    ARROW_FUNCTION_EXPRESSION, BLOCK_STATEMENT, CATCH_CLAUSE, FOR_IN_STATEMENT, FOR_OF_STATEMENT,
    FOR_STATEMENT, FUNCTION_DECLARATION, FUNCTION_EXPRESSION, PROGRAM, STATIC_BLOCK,
    SWITCH_STATEMENT,
};
use es_tree::{Ancestors, Tree, is_one_of, parent, stands_in};
use std::alloc::Global;

/// The kinds whose nodes are always scopes.
const SCOPES: [u16; 10] = [
    PROGRAM,
    STATIC_BLOCK,
    FUNCTION_DECLARATION,
    FUNCTION_EXPRESSION,
    ARROW_FUNCTION_EXPRESSION,
    CATCH_CLAUSE,
    SWITCH_STATEMENT,
    FOR_STATEMENT,
    FOR_IN_STATEMENT,
    FOR_OF_STATEMENT,
];

/// The kinds of scopes that `var` doesn't leave.
const VAR_SCOPES: [u16; 5] = [
    PROGRAM,
    STATIC_BLOCK,
    FUNCTION_DECLARATION,
    FUNCTION_EXPRESSION,
    ARROW_FUNCTION_EXPRESSION,
];

/// Whether the block is the body of a function or of a `catch`, whose parameters count in it.
fn is_body(tree: &Tree, block: u32) -> bool
    ensures { result ≡ is_body tree.now block }
{
    stands_in(
        tree,
        &[
            FUNCTION_DECLARATION,
            FUNCTION_EXPRESSION,
            ARROW_FUNCTION_EXPRESSION,
            CATCH_CLAUSE,
        ],
        block,
    )
}

/// Whether names can be declared in the node.
fn is_scope(tree: &Tree, node: u32) -> bool
    ensures { result ≡ is_scope tree.now node }
{
    is_one_of(tree, &SCOPES, node)
        || (is_one_of(tree, &[BLOCK_STATEMENT], node) && !is_body(tree, node))
}

/// Whether the node is a scope that `var` doesn't leave.
fn is_var_scope(tree: &Tree, node: u32) -> bool
    ensures { result ≡ is_var_scope tree.now node }
{
    is_one_of(tree, &VAR_SCOPES, node)
}

/// The innermost scope around a node.
pub fn scope_around(tree: &Tree, node: u32) -> Option<u32>
    ensures { result ≡ scope_around tree.now node }
{
    for around in Ancestors::of(tree, node) {
        if is_scope(tree, around) {
            return Some(around);
        }
    }
    None
}

/// The innermost scope around a node that may be missing.
fn scope_around_some(tree: &Tree, node: Option<u32>) -> Option<u32>
    ensures { result ≡ scope_around_some tree.now node }
{
    match node {
        Some(node) => scope_around(tree, node),
        None => None,
    }
}

/// All scopes around a node out to that of its function.
fn scopes_in_function(alloc: Global, tree: &Tree, node: u32) -> Result<Vec<u32>, NoMemory>
    ensures { IfOk result (λ scopes. scopes.items ≡ scopes_in_function tree.now node) }
{
    let mut scopes = Vec::new(alloc);
    for around in Ancestors::of(tree, node) {
        if is_scope(tree, around) {
            scopes.push(around)?;
        }
        if is_var_scope(tree, around) {
            return Ok(scopes);
        }
    }
    Ok(scopes)
}

/// A list of the node, if there is one.
fn listed(alloc: Global, node: Option<u32>) -> Result<Vec<u32>, NoMemory>
    ensures { IfOk result (λ nodes. nodes.items ≡ listed node) }
{
    let mut nodes = Vec::new(alloc);
    if let Some(node) = node {
        nodes.push(node)?;
    }
    Ok(nodes)
}

/// The scopes in which the name of the node counts that this declares.
pub fn counts_in(
    alloc: Global,
    tree: &Tree,
    node: u32,
    binding: Binding,
) -> Result<Vec<u32>, NoMemory>
    ensures { IfOk result (λ scopes. scopes.items ≡ counts_in tree.now node binding) }
{
    match binding {
        Binding::Lexical | Binding::Parameter => listed(alloc, scope_around(tree, node)),
        Binding::Var => scopes_in_function(alloc, tree, node),
        Binding::Function => listed(alloc, scope_around_some(tree, parent(tree, node))),
        Binding::Nothing => Ok(Vec::new(alloc)),
    }
}
