//! `super` where nothing gives it a meaning.
ghost use Rattle.std.specs.Prelude.{◌≡◌};
ghost use Rattle.es_tree.specs.Around.{parent};
ghost use Rattle.es_early.specs.Supers.{binds_super, has_heritage, if_some, is_derived_constructor};
ghost use Rattle.es_early.specs.Supers.{is_method, is_method_property, is_stray_super};
ghost use Rattle.es_early.specs.Supers.{lets_super, lets_super_call, lets_super_property};
ghost use Rattle.es_early.specs.Supers.{super_around};

use es_tree::field::{CALLEE, MEMBER_KIND, METHOD, SUPER_CLASS, VALUE};
use es_tree::kind::{
    CALL_EXPRESSION, FUNCTION_DECLARATION, FUNCTION_EXPRESSION, METHOD_DEFINITION, PROPERTY,
    PROPERTY_DEFINITION, STATIC_BLOCK, SUPER,
};
use es_tree::kinds::PLAIN_FUNCTIONS;
use es_tree::{Ancestors, Tree, child, has_words, is_one_of, is_set, parent, stands_as};

/// Whether the node gives `super` inside of it a meaning, or takes it away.
fn binds_super(tree: &Tree, node: u32) -> bool
    ensures { result ≡ binds_super tree.now node }
{
    is_one_of(
        tree,
        &[FUNCTION_DECLARATION, FUNCTION_EXPRESSION, STATIC_BLOCK],
        node,
    ) || stands_as(tree, &[PROPERTY_DEFINITION], VALUE, node)
}

/// The innermost node around a node that binds `super`.
fn super_around(tree: &Tree, node: u32) -> Option<u32>
    ensures { result ≡ super_around tree.now node }
{
    for around in Ancestors::of(tree, node) {
        if binds_super(tree, around) {
            return Some(around);
        }
    }
    None
}

/// Whether the property is a method, a getter or a setter.
fn is_method_property(tree: &Tree, property: u32) -> bool
    ensures { result ≡ is_method_property tree.now property }
{
    is_set(tree, property, METHOD)
        || has_words(tree, property, MEMBER_KIND, "get")
        || has_words(tree, property, MEMBER_KIND, "set")
}

/// Whether there is a node, and it is a property that is a method, a getter or a setter.
fn is_some_method_property(tree: &Tree, property: Option<u32>) -> bool
    ensures { result ≡ if_some (is_method_property tree.now) property }
{
    match property {
        Some(property) => is_method_property(tree, property),
        None => false,
    }
}

/// Whether the function is the value of a method.
fn is_method(tree: &Tree, function: u32) -> bool
    ensures { result ≡ is_method tree.now function }
{
    stands_as(tree, &[METHOD_DEFINITION], VALUE, function)
        || (stands_as(tree, &[PROPERTY], VALUE, function)
            && is_some_method_property(tree, parent(tree, function)))
}

/// Whether the node, if there is one, lets a SuperProperty inside of it stand.
fn lets_super_property(tree: &Tree, node: Option<u32>) -> bool
    ensures { result ≡ if_some (lets_super_property tree.now) node }
{
    match node {
        Some(node) => !is_one_of(tree, &PLAIN_FUNCTIONS, node) || is_method(tree, node),
        None => false,
    }
}

/// Whether the class, if there is one, has a heritage.
fn has_heritage(tree: &Tree, class: Option<u32>) -> bool
    ensures { result ≡ if_some (has_heritage tree.now) class }
{
    match class {
        Some(class) => child(tree, class, SUPER_CLASS).is_some(),
        None => false,
    }
}

/// Whether there is the body of a class, and the class has a heritage.
fn is_derived_body(tree: &Tree, body: Option<u32>) -> bool
    ensures { result
        ≡ if_some (λ body. if_some (has_heritage tree.now) (parent tree.now body)) body }
{
    match body {
        Some(body) => has_heritage(tree, parent(tree, body)),
        None => false,
    }
}

/// Whether the method, if there is one, is the constructor of a class with a heritage.
fn is_derived_constructor(tree: &Tree, method: Option<u32>) -> bool
    ensures { result ≡ if_some (is_derived_constructor tree.now) method }
{
    match method {
        Some(method) => {
            has_words(tree, method, MEMBER_KIND, "constructor")
                && is_derived_body(tree, parent(tree, method))
        }
        None => false,
    }
}

/// Whether the node, if there is one, lets a SuperCall inside of it stand.
fn lets_super_call(tree: &Tree, node: Option<u32>) -> bool
    ensures { result ≡ if_some (lets_super_call tree.now) node }
{
    match node {
        Some(node) => {
            stands_as(tree, &[METHOD_DEFINITION], VALUE, node)
                && is_one_of(tree, &PLAIN_FUNCTIONS, node)
                && is_derived_constructor(tree, parent(tree, node))
        }
        None => false,
    }
}

/// Whether what is around the `super` lets it stand.
fn lets_super(tree: &Tree, node: u32) -> bool
    ensures { result ≡ lets_super tree.now node }
{
    let around = super_around(tree, node);
    if stands_as(tree, &[CALL_EXPRESSION], CALLEE, node) {
        lets_super_call(tree, around)
    } else {
        lets_super_property(tree, around)
    }
}

/// Whether the node is a `super` without a meaning.
pub fn is_stray_super(tree: &Tree, node: u32) -> bool
    ensures { result ≡ is_stray_super tree.now node }
{
    is_one_of(tree, &[SUPER], node) && !lets_super(tree, node)
}
