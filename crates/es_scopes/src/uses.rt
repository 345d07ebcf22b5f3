//! Which Identifiers are references, and whether they read and write.
ghost use Rattle.std.specs.Prelude.{◌≡◌};
ghost use Rattle.es_tree.specs.Around.{is_set};
ghost use Rattle.es_tree.specs.declared.kind.TheConstants.{MEMBER_EXPRESSION};
ghost use Rattle.es_scopes.specs.declared.field.TheConstants.{MEMBER_COMPUTED, MEMBER_PROPERTY};
ghost use Rattle.es_scopes.specs.Bindings.{if_some};
ghost use Rattle.es_scopes.specs.Uses.{is_assigned, is_bare, is_fixed, is_given, is_head, is_key};
ghost use Rattle.es_scopes.specs.Uses.{is_label, is_name, is_plain, is_specified, is_updated};
ghost use Rattle.es_scopes.specs.Uses.{is_valued, pattern_use, use_of};

use crate::bindings::{pattern_around, pattern_kind};
use crate::deciding::{is_in_namer, is_in_user};
use crate::field::{
    ARGUMENT, FIELD_COMPUTED, INIT, MEMBER_COMPUTED, MEMBER_PROPERTY, METHOD_COMPUTED, OPERATOR,
    PROPERTY_COMPUTED,
};
use crate::opened::CLASSES;
use es_tree::field::{ID, KEY, LABEL, LEFT};
use es_tree::kind::{
    ASSIGNMENT_EXPRESSION, BREAK_STATEMENT, CONTINUE_STATEMENT, EXPORT_ALL_DECLARATION,
    EXPORT_SPECIFIER, FOR_IN_STATEMENT, FOR_OF_STATEMENT, IDENTIFIER, IMPORT_DEFAULT_SPECIFIER,
    IMPORT_NAMESPACE_SPECIFIER, IMPORT_SPECIFIER, LABELED_STATEMENT, MEMBER_EXPRESSION,
    META_PROPERTY, METHOD_DEFINITION, PROPERTY, PROPERTY_DEFINITION, UPDATE_EXPRESSION,
    VARIABLE_DECLARATOR,
};
use es_tree::kinds::PLAIN_FUNCTIONS;
use es_tree::{Tree, child, has_words, is_one_of, is_set, parent, stands_as, stands_in};

/// An Identifier that is read or written.
#[derive(Clone, Copy, Debug, PartialEq, Eq)]
pub struct Reference {
    /// The Identifier.
    pub node: u32,
    pub read: bool,
    pub write: bool,
    /// The index of its variable, or `None` where no scope around has the name.
    pub variable: Option<u32>,
}

/// How an Identifier is used.
#[derive(Clone, Copy)]
pub struct Use {
    pub read: bool,
    pub write: bool,
}

/// Whether there is a node, and an attribute of it is the flag `true`.
fn is_some_set(tree: &Tree, node: Option<u32>, field: u16) -> bool
    ensures { result ≡ if_some (λ above. is_set tree.now above field) node }
{
    match node {
        Some(node) => is_set(tree, node, field),
        None => false,
    }
}

/// Whether the node stands in this field of a node of this kind, as a name and not as an expression
/// in brackets.
fn is_fixed(tree: &Tree, kind: u16, field: u16, computed: u16, node: u32) -> bool
    ensures { result ≡ is_fixed kind field computed tree.now node }
{
    stands_as(tree, &[kind], field, node) && !is_some_set(tree, parent(tree, node), computed)
}

/// Whether the node is the name of a property behind a dot.
fn is_member_name(tree: &Tree, node: u32) -> bool
    ensures { result
        ≡ is_fixed MEMBER_EXPRESSION MEMBER_PROPERTY MEMBER_COMPUTED tree.now node }
{
    is_fixed(
        tree,
        MEMBER_EXPRESSION,
        MEMBER_PROPERTY,
        MEMBER_COMPUTED,
        node,
    )
}

/// Whether the node is a key or the name of a property.
fn is_key(tree: &Tree, node: u32) -> bool
    ensures { result ≡ is_key tree.now node }
{
    is_fixed(tree, PROPERTY, KEY, PROPERTY_COMPUTED, node)
        || is_member_name(tree, node)
        || is_fixed(tree, METHOD_DEFINITION, KEY, METHOD_COMPUTED, node)
        || is_fixed(tree, PROPERTY_DEFINITION, KEY, FIELD_COMPUTED, node)
}

/// Whether the node is the name of a function or class.
fn is_name(tree: &Tree, node: u32) -> bool
    ensures { result ≡ is_name tree.now node }
{
    stands_as(tree, &PLAIN_FUNCTIONS, ID, node) || stands_as(tree, &CLASSES, ID, node)
}

/// Whether the node is a label.
fn is_label(tree: &Tree, node: u32) -> bool
    ensures { result ≡ is_label tree.now node }
{
    stands_as(
        tree,
        &[LABELED_STATEMENT, BREAK_STATEMENT, CONTINUE_STATEMENT],
        LABEL,
        node,
    )
}

/// Whether the node is a part of a MetaProperty, of a specifier or of `export *`.
fn is_specified(tree: &Tree, node: u32) -> bool
    ensures { result ≡ is_specified tree.now node }
{
    stands_in(
        tree,
        &[
            META_PROPERTY,
            IMPORT_SPECIFIER,
            IMPORT_DEFAULT_SPECIFIER,
            IMPORT_NAMESPACE_SPECIFIER,
            EXPORT_SPECIFIER,
            EXPORT_ALL_DECLARATION,
        ],
        node,
    )
}

/// Whether the Identifier is neither an expression nor a part of a pattern.
fn is_bare(tree: &Tree, node: u32) -> bool
    ensures { result ≡ is_bare tree.now node }
{
    if !is_in_namer(tree, node) {
        return false;
    }
    if stands_in(tree, &[MEMBER_EXPRESSION], node) {
        return is_member_name(tree, node);
    }
    if stands_in(tree, &PLAIN_FUNCTIONS, node) {
        return stands_as(tree, &PLAIN_FUNCTIONS, ID, node);
    }
    if stands_in(tree, &[PROPERTY], node) {
        return is_fixed(tree, PROPERTY, KEY, PROPERTY_COMPUTED, node);
    }
    is_key(tree, node) || is_name(tree, node) || is_label(tree, node) || is_specified(tree, node)
}

/// Whether the node is the left side of a for-in or for-of statement.
fn is_head(tree: &Tree, node: u32) -> bool
    ensures { result ≡ is_head tree.now node }
{
    stands_as(tree, &[FOR_IN_STATEMENT, FOR_OF_STATEMENT], LEFT, node)
}

/// Whether the pattern is what is assigned to.
fn is_assigned(tree: &Tree, pattern: u32) -> bool
    ensures { result ≡ is_assigned tree.now pattern }
{
    stands_as(tree, &[ASSIGNMENT_EXPRESSION], LEFT, pattern)
        || stands_as(tree, &[UPDATE_EXPRESSION], ARGUMENT, pattern)
        || is_head(tree, pattern)
}

/// Whether there is an assignment, and it is by `=` alone.
fn is_plain(tree: &Tree, assignment: Option<u32>) -> bool
    ensures { result ≡ if_some (is_plain tree.now) assignment }
{
    match assignment {
        Some(assignment) => has_words(tree, assignment, OPERATOR, "="),
        None => false,
    }
}

/// Whether what is assigned to is read before.
fn is_updated(tree: &Tree, pattern: u32) -> bool
    ensures { result ≡ is_updated tree.now pattern }
{
    stands_as(tree, &[UPDATE_EXPRESSION], ARGUMENT, pattern)
        || (stands_as(tree, &[ASSIGNMENT_EXPRESSION], LEFT, pattern)
            && !is_plain(tree, parent(tree, pattern)))
}

/// Whether there is a node, and it is the left side of a for-in or for-of statement.
fn is_some_head(tree: &Tree, node: Option<u32>) -> bool
    ensures { result ≡ if_some (is_head tree.now) node }
{
    match node {
        Some(node) => is_head(tree, node),
        None => false,
    }
}

/// Whether there is a declarator, and it has a value, or gets one from its for-in or for-of statement.
fn is_valued(tree: &Tree, declarator: Option<u32>) -> bool
    ensures { result ≡ if_some (is_valued tree.now) declarator }
{
    match declarator {
        Some(declarator) => {
            child(tree, declarator, INIT).is_some() || is_some_head(tree, parent(tree, declarator))
        }
        None => false,
    }
}

/// Whether the pattern is what such a declarator declares.
fn is_given(tree: &Tree, pattern: u32) -> bool
    ensures { result ≡ is_given tree.now pattern }
{
    stands_as(tree, &[VARIABLE_DECLARATOR], ID, pattern) && is_valued(tree, parent(tree, pattern))
}

/// How a whole pattern's names are used.
fn pattern_use(tree: &Tree, pattern: u32) -> Use
    ensures { result ≡ pattern_use tree.now pattern }
{
    if !is_in_user(tree, pattern) {
        return Use {
            read: true,
            write: false,
        };
    }
    let assigned = is_assigned(tree, pattern);
    Use {
        read: pattern_kind(tree, pattern).is_none() && (!assigned || is_updated(tree, pattern)),
        write: assigned || is_given(tree, pattern),
    }
}

/// How the node, if it is an Identifier, is used.
pub fn use_of(tree: &Tree, node: u32) -> Option<Use>
    ensures { result ≡ use_of tree.now node }
{
    if !is_one_of(tree, &[IDENTIFIER], node) || is_bare(tree, node) {
        return None;
    }
    let found = pattern_use(tree, pattern_around(tree, node)?);
    if found.read || found.write {
        Some(found)
    } else {
        None
    }
}
