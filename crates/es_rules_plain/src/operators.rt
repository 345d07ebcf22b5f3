//! Operators of expressions.
ghost use Rattle.std.specs.Prelude.{◌≡◌};
ghost use Rattle.es_rules_plain.specs.Operators.{is_binary, is_equality, is_some_typeof, is_unary};

use es_tree::{Tree, has_words, is_one_of, kind};

/// The attribute `operator` of a UnaryExpression.
pub const UNARY_OPERATOR: u16 = 1;

/// The attribute `operator` of a BinaryExpression.
pub const BINARY_OPERATOR: u16 = 2;

/// The right side of a BinaryExpression.
pub const RIGHT: u16 = 1;

/// Whether the node is an expression with two sides and this operator.
pub fn is_binary(tree: &Tree, node: u32, operator: &str) -> bool
    ensures { result ≡ is_binary operator.now tree.now node }
{
    is_one_of(tree, &[kind::BINARY_EXPRESSION], node)
        && has_words(tree, node, BINARY_OPERATOR, operator)
}

/// Whether the node compares by `==`, `!=`, `===` or `!==`.
pub fn is_equality(tree: &Tree, node: u32) -> bool
    ensures { result ≡ is_equality tree.now node }
{
    is_binary(tree, node, "==")
        || is_binary(tree, node, "!=")
        || is_binary(tree, node, "===")
        || is_binary(tree, node, "!==")
}

/// Whether the node is an expression with one side and this operator.
pub fn is_unary(tree: &Tree, node: u32, operator: &str) -> bool
    ensures { result ≡ is_unary operator.now tree.now node }
{
    is_one_of(tree, &[kind::UNARY_EXPRESSION], node)
        && has_words(tree, node, UNARY_OPERATOR, operator)
}

/// Whether there is a node, and it is a `typeof`.
pub fn is_some_typeof(tree: &Tree, node: Option<u32>) -> bool
    ensures { result ≡ is_some_typeof tree.now node }
{
    match node {
        Some(node) => is_unary(tree, node, "typeof"),
        None => false,
    }
}
