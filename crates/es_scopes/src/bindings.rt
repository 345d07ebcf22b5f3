//! What the Identifiers of a tree declare.
ghost use Rattle.std.specs.Prelude.{◌≡◌};
ghost use Rattle.es_scopes.specs.Bindings.{declarator_kind, if_some, is_by, is_declared_by};
ghost use Rattle.es_scopes.specs.Bindings.{is_imported, is_parameter, is_pattern_part};
ghost use Rattle.es_scopes.specs.Bindings.{kind_declared, pattern_around, pattern_kind};
ghost use Rattle.es_scopes.specs.Bindings.{some_pattern_kind};

use crate::binding::DeclarationKind;
use crate::deciding::{is_in_binder, is_in_user, is_in_whole};
use es_tree::field::{
    ARROW_BODY, CATCH_PARAMETER, DECLARATION_KIND, FUNCTION_BODY, ID, IMPORTED_LOCAL, LEFT, LOCAL,
    VALUE,
};
use es_tree::kind::{
    ARRAY_PATTERN, ARROW_FUNCTION_EXPRESSION, ASSIGNMENT_PATTERN, CATCH_CLAUSE, CLASS_DECLARATION,
    FUNCTION_DECLARATION, IMPORT_DEFAULT_SPECIFIER, IMPORT_NAMESPACE_SPECIFIER, IMPORT_SPECIFIER,
    OBJECT_PATTERN, PROPERTY, REST_ELEMENT, VARIABLE_DECLARATOR,
};
use es_tree::kinds::PLAIN_FUNCTIONS;
use es_tree::{Ancestors, Tree, has_words, parent, stands_as, stands_in};

/// Whether the node is a part of a pattern around it.
fn is_pattern_part(tree: &Tree, node: u32) -> bool
    ensures { result ≡ is_pattern_part tree.now node }
{
    if !is_in_whole(tree, node) {
        return false;
    }
    stands_in(tree, &[ARRAY_PATTERN, OBJECT_PATTERN, REST_ELEMENT], node)
        || stands_as(tree, &[PROPERTY], VALUE, node)
        || stands_as(tree, &[ASSIGNMENT_PATTERN], LEFT, node)
}

/// The whole pattern whose part the node is, which is the node itself where it is part of none.
pub fn pattern_around(tree: &Tree, node: u32) -> Option<u32>
    ensures { result ≡ pattern_around tree.now node }
{
    for around in Ancestors::from(tree, node) {
        if !is_pattern_part(tree, around) {
            return Some(around);
        }
    }
    None
}

/// Whether the pattern is a parameter: what a function has beside its name and its body.
fn is_parameter(tree: &Tree, pattern: u32) -> bool
    ensures { result ≡ is_parameter tree.now pattern }
{
    (stands_in(tree, &PLAIN_FUNCTIONS, pattern)
        && !(stands_as(tree, &PLAIN_FUNCTIONS, ID, pattern)
            || stands_as(tree, &PLAIN_FUNCTIONS, FUNCTION_BODY, pattern)))
        || (stands_in(tree, &[ARROW_FUNCTION_EXPRESSION], pattern)
            && !stands_as(tree, &[ARROW_FUNCTION_EXPRESSION], ARROW_BODY, pattern))
}

/// Whether there is a declaration, and it is by this word.
fn is_by(tree: &Tree, word: &str, declaration: Option<u32>) -> bool
    ensures { result ≡ if_some (is_by word.now tree.now) declaration }
{
    match declaration {
        Some(declaration) => has_words(tree, declaration, DECLARATION_KIND, word),
        None => false,
    }
}

/// Whether there is a declarator, and it is one of a declaration by this word.
fn is_declared_by(tree: &Tree, word: &str, declarator: Option<u32>) -> bool
    ensures { result ≡ if_some (is_declared_by word.now tree.now) declarator }
{
    match declarator {
        Some(declarator) => is_by(tree, word, parent(tree, declarator)),
        None => false,
    }
}

/// What a declarator declares.
fn declarator_kind(tree: &Tree, declarator: Option<u32>) -> DeclarationKind
    ensures { result ≡ declarator_kind tree.now declarator }
{
    if is_declared_by(tree, "var", declarator) {
        DeclarationKind::Var
    } else if is_declared_by(tree, "let", declarator) {
        DeclarationKind::Let
    } else {
        DeclarationKind::Const
    }
}

/// What the whole pattern around a name declares.
pub fn pattern_kind(tree: &Tree, pattern: u32) -> Option<DeclarationKind>
    ensures { result ≡ pattern_kind tree.now pattern }
{
    if !is_in_user(tree, pattern) {
        None
    } else if stands_as(tree, &[VARIABLE_DECLARATOR], ID, pattern) {
        Some(declarator_kind(tree, parent(tree, pattern)))
    } else if is_parameter(tree, pattern) {
        Some(DeclarationKind::Param)
    } else if stands_as(tree, &[CATCH_CLAUSE], CATCH_PARAMETER, pattern) {
        Some(DeclarationKind::Catch)
    } else {
        None
    }
}

/// What a pattern declares that may be missing.
fn some_pattern_kind(tree: &Tree, pattern: Option<u32>) -> Option<DeclarationKind>
    ensures { result ≡ some_pattern_kind tree.now pattern }
{
    match pattern {
        Some(pattern) => pattern_kind(tree, pattern),
        None => None,
    }
}

/// Whether the node is a name that an import binds.
fn is_imported(tree: &Tree, node: u32) -> bool
    ensures { result ≡ is_imported tree.now node }
{
    stands_as(tree, &[IMPORT_SPECIFIER], IMPORTED_LOCAL, node)
        || stands_as(
            tree,
            &[IMPORT_DEFAULT_SPECIFIER, IMPORT_NAMESPACE_SPECIFIER],
            LOCAL,
            node,
        )
}

/// What an Identifier declares outside of what it names.
pub fn kind_declared(tree: &Tree, node: u32) -> Option<DeclarationKind>
    ensures { result ≡ kind_declared tree.now node }
{
    if !is_in_binder(tree, node) {
        None
    } else if is_in_whole(tree, node) {
        some_pattern_kind(tree, pattern_around(tree, node))
    } else if stands_as(tree, &[CLASS_DECLARATION], ID, node) {
        Some(DeclarationKind::Class)
    } else if stands_as(tree, &[FUNCTION_DECLARATION], ID, node) {
        Some(DeclarationKind::Function)
    } else if is_imported(tree, node) {
        Some(DeclarationKind::Import)
    } else {
        some_pattern_kind(tree, pattern_around(tree, node))
    }
}
