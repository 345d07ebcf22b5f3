//! What the names of a tree declare.
ghost use Rattle.std.specs.Prelude.{◌≡◌, ◌==◌};
ghost use Rattle.std.specs.List.{list_any};
ghost use Rattle.es_tree.specs.Around.{stands_in};
ghost use Rattle.es_early.specs.Lookups.{binders};
ghost use Rattle.es_early.specs.Declarations.{binding_of, is_catch_parameter, is_class_or_import};
ghost use Rattle.es_early.specs.Declarations.{is_function_name, is_parameter, is_pattern_part};
ghost use Rattle.es_early.specs.Declarations.{is_var, is_var_declarator, pattern_around};
ghost use Rattle.es_early.specs.Declarations.{pattern_declares, some_pattern_declares};
ghost use Rattle.es_early.specs.Supers.{if_some};

use es_tree::field::{
    ARROW_BODY, CATCH_PARAMETER, DECLARATION_KIND, FUNCTION_BODY, ID, IMPORTED_LOCAL, LEFT, LOCAL,
    VALUE,
};
use es_tree::kind::{
    ARRAY_PATTERN, ARROW_FUNCTION_EXPRESSION, ASSIGNMENT_PATTERN, CATCH_CLAUSE, CLASS_DECLARATION,
    FUNCTION_DECLARATION, FUNCTION_EXPRESSION, IDENTIFIER, IMPORT_DEFAULT_SPECIFIER,
    IMPORT_NAMESPACE_SPECIFIER, IMPORT_SPECIFIER, OBJECT_PATTERN, PROPERTY, REST_ELEMENT,
    VARIABLE_DECLARATOR,
};
use es_tree::kinds::PLAIN_FUNCTIONS;
use es_tree::{Ancestors, Tree, has_words, is_one_of, parent, stands_as, stands_in};

/// What declares a name.
#[derive(Clone, Copy, Debug, PartialEq, Eq)]
pub enum Binding {
    /// `let`, `const`, `class` or `import`.
    Lexical,
    Var,
    /// A function declaration.
    Function,
    /// A parameter of a function or of a `catch`.
    Parameter,
    /// The node declares no name.
    Nothing,
}

/// Whether the node is a part of a pattern around it that binds names.
fn is_pattern_part(tree: &Tree, node: u32) -> bool
    ensures { result ≡ is_pattern_part tree.now node }
{
    if !is_in_binder(tree, node) {
        return false;
    }
    stands_in(tree, &[ARRAY_PATTERN, OBJECT_PATTERN, REST_ELEMENT], node)
        || stands_as(tree, &[PROPERTY], VALUE, node)
        || stands_as(tree, &[ASSIGNMENT_PATTERN], LEFT, node)
}

/// The whole pattern whose part the node is, which is the node itself where it is part of none.
fn pattern_around(tree: &Tree, node: u32) -> Option<u32>
    ensures { result ≡ pattern_around tree.now node }
{
    for around in Ancestors::from(tree, node) {
        if !is_pattern_part(tree, around) {
            return Some(around);
        }
    }
    None
}

/// Whether there is a declaration of variables, and it is one by `var`.
fn is_var(tree: &Tree, declaration: Option<u32>) -> bool
    ensures { result ≡ if_some (is_var tree.now) declaration }
{
    match declaration {
        Some(declaration) => has_words(tree, declaration, DECLARATION_KIND, "var"),
        None => false,
    }
}

/// Whether there is a declarator, and it is one of a declaration by `var`.
fn is_var_declarator(tree: &Tree, declarator: Option<u32>) -> bool
    ensures { result ≡ if_some (is_var_declarator tree.now) declarator }
{
    match declarator {
        Some(declarator) => is_var(tree, parent(tree, declarator)),
        None => false,
    }
}

/// Whether the pattern is a parameter: what a function has beside its name and its body.
fn is_parameter(tree: &Tree, pattern: u32) -> bool
    ensures { result ≡ is_parameter tree.now pattern }
{
    (stands_in(tree, &PLAIN_FUNCTIONS, pattern)
        && !(stands_as(tree, &PLAIN_FUNCTIONS, ID, pattern)
            || stands_as(tree, &PLAIN_FUNCTIONS, FUNCTION_BODY, pattern)))
        || (stands_in(tree, &[ARROW_FUNCTION_EXPRESSION], pattern)
            && !stands_as(tree, &[ARROW_FUNCTION_EXPRESSION], ARROW_BODY, pattern))
}

fn is_catch_parameter(tree: &Tree, pattern: u32) -> bool
    ensures { result ≡ is_catch_parameter tree.now pattern }
{
    stands_as(tree, &[CATCH_CLAUSE], CATCH_PARAMETER, pattern)
}

/// Whether the node is the name of a class declaration, or a name that an import binds.
fn is_class_or_import(tree: &Tree, node: u32) -> bool
    ensures { result ≡ is_class_or_import tree.now node }
{
    stands_as(tree, &[CLASS_DECLARATION], ID, node)
        || stands_as(tree, &[IMPORT_SPECIFIER], IMPORTED_LOCAL, node)
        || stands_as(
            tree,
            &[IMPORT_DEFAULT_SPECIFIER, IMPORT_NAMESPACE_SPECIFIER],
            LOCAL,
            node,
        )
}

fn is_function_name(tree: &Tree, node: u32) -> bool
    ensures { result ≡ is_function_name tree.now node }
{
    stands_as(tree, &[FUNCTION_DECLARATION], ID, node)
}

/// What the whole pattern around a name declares.
fn pattern_declares(tree: &Tree, pattern: u32) -> Binding
    ensures { result ≡ pattern_declares tree.now pattern }
{
    if !is_in_binder(tree, pattern) {
        return Binding::Nothing;
    }
    if stands_as(tree, &[VARIABLE_DECLARATOR], ID, pattern) {
        if is_var_declarator(tree, parent(tree, pattern)) {
            Binding::Var
        } else {
            Binding::Lexical
        }
    } else if is_parameter(tree, pattern) || is_catch_parameter(tree, pattern) {
        Binding::Parameter
    } else {
        Binding::Nothing
    }
}

/// What a pattern declares that may be missing.
fn some_pattern_declares(tree: &Tree, pattern: Option<u32>) -> Binding
    ensures { result ≡ some_pattern_declares tree.now pattern }
{
    match pattern {
        Some(pattern) => pattern_declares(tree, pattern),
        None => Binding::Nothing,
    }
}

/// Whether a node of this kind can declare the names that stand right in it.
fn is_binder(kind: u16) -> bool
    ensures { result ≡ list_any (λ k. k == kind) binders }
{
    kind == VARIABLE_DECLARATOR
        || kind == PROPERTY
        || kind == ASSIGNMENT_PATTERN
        || kind == ARRAY_PATTERN
        || kind == OBJECT_PATTERN
        || kind == REST_ELEMENT
        || kind == FUNCTION_DECLARATION
        || kind == FUNCTION_EXPRESSION
        || kind == ARROW_FUNCTION_EXPRESSION
        || kind == CATCH_CLAUSE
        || kind == CLASS_DECLARATION
        || kind == IMPORT_SPECIFIER
        || kind == IMPORT_DEFAULT_SPECIFIER
        || kind == IMPORT_NAMESPACE_SPECIFIER
}

/// Whether the node stands right in one that can declare names.
fn is_in_binder(tree: &Tree, node: u32) -> bool
    ensures { result ≡ stands_in binders tree.now node }
{
    match parent(tree, node) {
        Some(above) => above < tree.count() && is_binder(tree.kind(above)),
        None => false,
    }
}

/// What the node, if it is an Identifier, declares by its name.
pub fn binding_of(tree: &Tree, node: u32) -> Binding
    ensures { result ≡ binding_of tree.now node }
{
    if !is_one_of(tree, &[IDENTIFIER], node) {
        Binding::Nothing
    } else if !is_in_binder(tree, node) {
        Binding::Nothing
    } else if stands_in(tree, &[VARIABLE_DECLARATOR], node) {
        pattern_declares(tree, node)
    } else if stands_in(tree, &[PROPERTY], node) {
        some_pattern_declares(tree, pattern_around(tree, node))
    } else if is_class_or_import(tree, node) {
        Binding::Lexical
    } else if is_function_name(tree, node) {
        Binding::Function
    } else {
        some_pattern_declares(tree, pattern_around(tree, node))
    }
}
