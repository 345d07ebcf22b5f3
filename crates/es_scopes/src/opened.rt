//! The scopes that a node opens.
ghost use Rattle.std.specs.Prelude.{◌≡◌};
ghost use Rattle.es_scopes.specs.Opened.{holds_vars, is_block, is_field_value, kind_scope};
ghost use Rattle.es_scopes.specs.Opened.{knows_its_name};

use crate::deciding::is_opener;
use crate::scope::ScopeKind;
use es_tree::field::{ID, VALUE};
use es_tree::kind::{
    BLOCK_STATEMENT, CATCH_CLAUSE, CLASS_DECLARATION, CLASS_EXPRESSION, FOR_IN_STATEMENT,
    FOR_OF_STATEMENT, FOR_STATEMENT, FUNCTION_EXPRESSION, PROGRAM, PROPERTY_DEFINITION,
    STATIC_BLOCK, SWITCH_STATEMENT,
};
use es_tree::kinds::FUNCTIONS;
use es_tree::{Tree, child, is_one_of, stands_as, stands_in};

/// The kinds of classes.
pub const CLASSES: [u16; 2] = [CLASS_DECLARATION, CLASS_EXPRESSION];

/// Whether the node is the value of a class field.
pub fn is_field_value(tree: &Tree, node: u32) -> bool
    ensures { result ≡ is_field_value tree.now node }
{
    stands_as(tree, &[PROPERTY_DEFINITION], VALUE, node)
}

/// Whether the node is a function expression with a name.
pub fn knows_its_name(tree: &Tree, node: u32) -> bool
    ensures { result ≡ knows_its_name tree.now node }
{
    is_one_of(tree, &[FUNCTION_EXPRESSION], node) && child(tree, node, ID).is_some()
}

/// Whether the node is a block that isn't the body of a function.
fn is_block(tree: &Tree, node: u32) -> bool
    ensures { result ≡ is_block tree.now node }
{
    is_one_of(tree, &[BLOCK_STATEMENT], node) && !stands_in(tree, &FUNCTIONS, node)
}

/// The scope that the node opens by its kind.
pub fn kind_scope(tree: &Tree, node: u32) -> Option<ScopeKind>
    ensures { result ≡ kind_scope tree.now node }
{
    if !is_opener(tree, node) {
        None
    } else if is_one_of(tree, &[PROGRAM], node) {
        Some(ScopeKind::Program)
    } else if is_one_of(tree, &FUNCTIONS, node) {
        Some(ScopeKind::Function)
    } else if is_block(tree, node) {
        Some(ScopeKind::Block)
    } else if is_one_of(tree, &[SWITCH_STATEMENT], node) {
        Some(ScopeKind::Switch)
    } else if is_one_of(
        tree,
        &[FOR_STATEMENT, FOR_IN_STATEMENT, FOR_OF_STATEMENT],
        node,
    ) {
        Some(ScopeKind::For)
    } else if is_one_of(tree, &[CATCH_CLAUSE], node) {
        Some(ScopeKind::Catch)
    } else if is_one_of(tree, &CLASSES, node) {
        Some(ScopeKind::Class)
    } else if is_one_of(tree, &[STATIC_BLOCK], node) {
        Some(ScopeKind::StaticBlock)
    } else {
        None
    }
}

/// Whether the scope is one that `var` doesn't leave.
pub fn holds_vars(kind: ScopeKind) -> bool
    ensures { result ≡ holds_vars kind }
{
    match kind {
        ScopeKind::Program | ScopeKind::Function | ScopeKind::StaticBlock | ScopeKind::Field => {
            true
        }
        ScopeKind::Block
        | ScopeKind::Switch
        | ScopeKind::For
        | ScopeKind::Catch
        | ScopeKind::Class
        | ScopeKind::Name => false,
    }
}
