//! The kinds of nodes by which most tests of a node are decided at once.
ghost use Rattle.std.specs.Prelude.{◌≡◌, ◌==◌};
ghost use Rattle.std.specs.List.{list_any};
ghost use Rattle.es_tree.specs.Around.{is_one_of, stands_in};
ghost use Rattle.es_scopes.specs.Deciding.{binders, leavers, namers, openers, users, wholes};

use es_tree::kind::{
    ARRAY_PATTERN, ARROW_FUNCTION_EXPRESSION, ASSIGNMENT_EXPRESSION, ASSIGNMENT_PATTERN,
    BLOCK_STATEMENT, BREAK_STATEMENT, CATCH_CLAUSE, CLASS_DECLARATION, CLASS_EXPRESSION,
    CONTINUE_STATEMENT, EXPORT_ALL_DECLARATION, EXPORT_SPECIFIER, FOR_IN_STATEMENT,
    FOR_OF_STATEMENT, FOR_STATEMENT, FUNCTION_DECLARATION, FUNCTION_EXPRESSION,
    IMPORT_DEFAULT_SPECIFIER, IMPORT_NAMESPACE_SPECIFIER, IMPORT_SPECIFIER, LABELED_STATEMENT,
    MEMBER_EXPRESSION, META_PROPERTY, METHOD_DEFINITION, OBJECT_PATTERN, PROGRAM, PROPERTY,
    PROPERTY_DEFINITION, REST_ELEMENT, STATIC_BLOCK, SWITCH_STATEMENT, UPDATE_EXPRESSION,
    VARIABLE_DECLARATOR,
};
use es_tree::{Tree, parent};

/// Whether a node of this kind can declare the names that stand right in it.
fn is_binder(kind: u16) -> bool
    ensures { result ≡ list_any (λ k. k == kind) binders }
{
    kind == VARIABLE_DECLARATOR
        || kind == PROPERTY
        || kind == ASSIGNMENT_PATTERN
        || kind == ARRAY_PATTERN
        || kind == OBJECT_PATTERN
        || kind == REST_ELEMENT
        || kind == FUNCTION_DECLARATION
        || kind == FUNCTION_EXPRESSION
        || kind == ARROW_FUNCTION_EXPRESSION
        || kind == CATCH_CLAUSE
        || kind == CLASS_DECLARATION
        || kind == IMPORT_SPECIFIER
        || kind == IMPORT_DEFAULT_SPECIFIER
        || kind == IMPORT_NAMESPACE_SPECIFIER
}

/// Whether the node's parent can declare the names that stand right in it.
pub fn is_in_binder(tree: &Tree, node: u32) -> bool
    ensures { result ≡ stands_in binders tree.now node }
{
    match parent(tree, node) {
        Some(above) => above < tree.count() && is_binder(tree.kind(above)),
        None => false,
    }
}

/// Whether a node of this kind can leave a child out of the scopes that it opens.
fn is_leaver(kind: u16) -> bool
    ensures { result ≡ list_any (λ k. k == kind) leavers }
{
    kind == SWITCH_STATEMENT
        || kind == FUNCTION_DECLARATION
        || kind == FUNCTION_EXPRESSION
        || kind == CLASS_DECLARATION
        || kind == CLASS_EXPRESSION
}

/// Whether the node's parent can leave a child out of the scopes that it opens.
pub fn is_in_leaver(tree: &Tree, node: u32) -> bool
    ensures { result ≡ stands_in leavers tree.now node }
{
    match parent(tree, node) {
        Some(above) => above < tree.count() && is_leaver(tree.kind(above)),
        None => false,
    }
}

/// Whether a node of this kind can hold an Identifier that is no expression and no part of a pattern.
fn is_namer(kind: u16) -> bool
    ensures { result ≡ list_any (λ k. k == kind) namers }
{
    kind == MEMBER_EXPRESSION
        || kind == PROPERTY
        || kind == METHOD_DEFINITION
        || kind == PROPERTY_DEFINITION
        || kind == FUNCTION_DECLARATION
        || kind == FUNCTION_EXPRESSION
        || kind == CLASS_DECLARATION
        || kind == CLASS_EXPRESSION
        || kind == LABELED_STATEMENT
        || kind == BREAK_STATEMENT
        || kind == CONTINUE_STATEMENT
        || kind == META_PROPERTY
        || kind == IMPORT_SPECIFIER
        || kind == IMPORT_DEFAULT_SPECIFIER
        || kind == IMPORT_NAMESPACE_SPECIFIER
        || kind == EXPORT_SPECIFIER
        || kind == EXPORT_ALL_DECLARATION
}

/// Whether the node's parent can hold an Identifier that is no expression and no part of a pattern.
pub fn is_in_namer(tree: &Tree, node: u32) -> bool
    ensures { result ≡ stands_in namers tree.now node }
{
    match parent(tree, node) {
        Some(above) => above < tree.count() && is_namer(tree.kind(above)),
        None => false,
    }
}

/// Whether a node of this kind can declare or assign what stands right in it.
fn is_user(kind: u16) -> bool
    ensures { result ≡ list_any (λ k. k == kind) users }
{
    kind == VARIABLE_DECLARATOR
        || kind == FUNCTION_DECLARATION
        || kind == FUNCTION_EXPRESSION
        || kind == ARROW_FUNCTION_EXPRESSION
        || kind == CATCH_CLAUSE
        || kind == ASSIGNMENT_EXPRESSION
        || kind == UPDATE_EXPRESSION
        || kind == FOR_IN_STATEMENT
        || kind == FOR_OF_STATEMENT
}

/// Whether the node's parent can declare or assign what stands right in it.
pub fn is_in_user(tree: &Tree, node: u32) -> bool
    ensures { result ≡ stands_in users tree.now node }
{
    match parent(tree, node) {
        Some(above) => above < tree.count() && is_user(tree.kind(above)),
        None => false,
    }
}

/// Whether a node of this kind can open a scope by its kind.
fn is_opener_kind(kind: u16) -> bool
    ensures { result ≡ list_any (λ k. k == kind) openers }
{
    kind == PROGRAM
        || kind == FUNCTION_DECLARATION
        || kind == FUNCTION_EXPRESSION
        || kind == ARROW_FUNCTION_EXPRESSION
        || kind == BLOCK_STATEMENT
        || kind == SWITCH_STATEMENT
        || kind == FOR_STATEMENT
        || kind == FOR_IN_STATEMENT
        || kind == FOR_OF_STATEMENT
        || kind == CATCH_CLAUSE
        || kind == CLASS_DECLARATION
        || kind == CLASS_EXPRESSION
        || kind == STATIC_BLOCK
}

/// Whether the node can open a scope by its kind.
pub fn is_opener(tree: &Tree, node: u32) -> bool
    ensures { result ≡ is_one_of openers tree.now node }
{
    node < tree.count() && is_opener_kind(tree.kind(node))
}

/// Whether a node of this kind can be a pattern around what stands right in it.
fn is_whole(kind: u16) -> bool
    ensures { result ≡ list_any (λ k. k == kind) wholes }
{
    kind == PROPERTY
        || kind == ASSIGNMENT_PATTERN
        || kind == ARRAY_PATTERN
        || kind == OBJECT_PATTERN
        || kind == REST_ELEMENT
}

/// Whether the node's parent can be a pattern around it.
pub fn is_in_whole(tree: &Tree, node: u32) -> bool
    ensures { result ≡ stands_in wholes tree.now node }
{
    match parent(tree, node) {
        Some(above) => above < tree.count() && is_whole(tree.kind(above)),
        None => false,
    }
}
