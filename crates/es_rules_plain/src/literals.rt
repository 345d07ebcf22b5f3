//! What sort of value a Literal has.
ghost use Rattle.std.specs.Prelude.{◌≡◌};
ghost use Rattle.es_tree.specs.Around.{words_of};
ghost use Rattle.es_rules_plain.specs.Literals.{is_quoted, is_same_sort, is_sort, is_text_literal};
ghost use Rattle.es_rules_plain.specs.Literals.{some_sort, sort_by_attributes, sort_by_spelling, sort_of};

use es_tree::{Tree, has_words, is_one_of, kind, words};

/// The attributes of a Literal.
pub const RAW: u16 = 0;

pub const VALUE: u16 = 1;

pub const REGEX: u16 = 2;

pub const BIGINT: u16 = 3;

/// The sorts of literals (ECMA-262, 13.2.3).
#[derive(Clone, Copy, Debug, PartialEq, Eq)]
pub enum Sort {
    Null,
    Boolean,
    Number,
    BigInt,
    Text,
    RegExp,
}

/// The sort of a Literal; `None` of each other node.
pub fn sort_of(tree: &Tree, node: u32) -> Option<Sort>
    ensures { result ≡ sort_of tree.now node }
{
    if is_one_of(tree, &[kind::LITERAL], node) {
        Some(sort_by_attributes(tree, node))
    } else {
        None
    }
}

fn sort_by_attributes(tree: &Tree, node: u32) -> Sort
    ensures { result ≡ sort_by_attributes tree.now node }
{
    if words(tree, node, REGEX).is_some() {
        Sort::RegExp
    } else if words(tree, node, BIGINT).is_some() {
        Sort::BigInt
    } else {
        sort_by_spelling(tree, node)
    }
}

fn sort_by_spelling(tree: &Tree, node: u32) -> Sort
    ensures { result ≡ sort_by_spelling (words_of tree.now node RAW) }
{
    if has_words(tree, node, RAW, "null") {
        Sort::Null
    } else if has_words(tree, node, RAW, "true") || has_words(tree, node, RAW, "false") {
        Sort::Boolean
    } else if is_quoted(tree, node) {
        Sort::Text
    } else {
        Sort::Number
    }
}

/// Whether the literal's spelling begins with a quote.
fn is_quoted(tree: &Tree, node: u32) -> bool
    ensures { result ≡ is_quoted (words_of tree.now node RAW) }
{
    let Some(spelling) = words(tree, node, RAW) else {
        return false;
    };
    match spelling.as_bytes().first() {
        Some(byte) => *byte == b'"' || *byte == b'\'',
        None => false,
    }
}

/// Whether the node is a Text.
pub fn is_text_literal(tree: &Tree, node: u32) -> bool
    ensures { result ≡ is_text_literal tree.now node }
{
    is_one_of(tree, &[kind::LITERAL], node) && is_quoted(tree, node)
}

/// The sort of a literal, if there is one.
pub fn some_sort(tree: &Tree, node: Option<u32>) -> Option<Sort>
    ensures { result ≡ some_sort tree.now node }
{
    sort_of(tree, node?)
}

/// Whether the sorts are the same.
fn is_sort(a: Sort, b: Sort) -> bool
    ensures { result ≡ is_sort a b }
{
    matches!(
        (a, b),
        (Sort::Null, Sort::Null)
            | (Sort::Boolean, Sort::Boolean)
            | (Sort::Number, Sort::Number)
            | (Sort::BigInt, Sort::BigInt)
            | (Sort::Text, Sort::Text)
            | (Sort::RegExp, Sort::RegExp)
    )
}

/// Whether there are two sorts, and they are the same.
pub fn is_same_sort(a: Option<Sort>, b: Option<Sort>) -> bool
    ensures { result ≡ is_same_sort a b }
{
    match (a, b) {
        (Some(a), Some(b)) => is_sort(a, b),
        _ => false,
    }
}
