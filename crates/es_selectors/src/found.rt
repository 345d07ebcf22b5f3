//! What stands at the end of a path of names, and what is asked of it.
ghost use Rattle.std.specs.Prelude.{ℕ, ◌≡◌, ◌<◌, Some, bytes_eq, decimal, length};
ghost use Rattle.std.specs.Option.{option_eq};
ghost use Rattle.std.specs.Str.{chars, encode_utf8_all};
ghost use Rattle.es_tables.specs.Nodes.{kind_words};
ghost use Rattle.es_selectors.specs.Founds.{IsWithin, found_of};
ghost use Rattle.es_selectors.specs.Matches.{compares, found, in_field, meets, node_or_nothing};
ghost use Rattle.es_selectors.specs.Matches.{of_field, of_node, step, text_of};
ghost use Rattle.es_selectors.specs.Selects.{row_sight, spot_of};
ghost use Rattle.es_selectors.specs.Selects.{child_at};
ghost use Rattle.std.specs.Prelude.{option_map, slice_get};

use crate::lexical::decimal_of;
use crate::selector::{Comparison, Condition};
use crate::spot::{Spot, child_at, count_in};
use es_tables::{Holds, child_field, field_of, node_kinds};
use es_text::Txt;
use es_tree::{Attribute, Tree};

/// What stands at the end of a path of names.
#[derive(Clone, Copy)]
pub enum Found<'a> {
    Nothing,
    /// The attribute `type`, of a node of this kind.
    KindWord(u16),
    Flag(bool),
    Words(&'a str),
    /// The `length` of a list field.
    Count(u32),
    Node(u32),
    /// The list field with this code of a node.
    Field(u32, u16),
}

/// What stands at the end of the names, from the node on.
pub fn follow<'a>(names: &[Txt], tree: &'a Tree, spot: Spot) -> Found<'a>
    requires { spot.node < length tree.now }
    ensures { found_of spot.top result ≡ found (row_sight tree.now) names.now spot }
{
    let mut at = Found::Node(spot.node);
    for name in names {
        at = step(at, tree, name.as_str());
    }
    at
}

/// What the name leads to from there.
fn step<'a>(at: Found<'a>, tree: &'a Tree, name: &str) -> Found<'a>
    requires { IsWithin tree.now at }
    ensures value { (top : ℕ) → found_of top result ≡ step (row_sight tree.now) (found_of top at.entry) name.now }
    ensures within { IsWithin tree.now result }
{
    match at {
        Found::Node(node) => of_node(tree, node, name),
        Found::Field(node, field) => of_field(tree, node, field, name),
        Found::Nothing | Found::KindWord(_) | Found::Flag(_) | Found::Words(_) | Found::Count(_) =>
            Found::Nothing,
    }
}

/// The attribute or child of the node with this name.
fn of_node<'a>(tree: &'a Tree, node: u32, name: &str) -> Found<'a>
    requires { node < length tree.now }
    ensures value { (top : ℕ) → found_of top result ≡ of_node (row_sight tree.now) (spot_of top node) name.now }
    ensures within { IsWithin tree.now result }
{
    let kind = tree.kind(node);
    if name == "type" {
        return Found::KindWord(kind);
    }
    match field_of(kind, name) {
        Some(field) => in_field(tree, node, field, child_field(kind, field)),
        None => Found::Nothing,
    }
}

/// What the node has in the field with this code, which holds this.
fn in_field(tree: &Tree, node: u32, field: u16, held: Option<Holds>) -> Found<'_>
    requires { node < length tree.now }
    ensures value { (top : ℕ) → found_of top result ≡ in_field (row_sight tree.now) (spot_of top node) field held }
    ensures within { IsWithin tree.now result }
{
    match held {
        Some(Holds::Many) => Found::Field(node, field),
        Some(Holds::One | Holds::Optional) => child_or_nothing(tree, node, field, 0),
        None => match tree.attribute(node, field) {
            Attribute::Flag(flag) => Found::Flag(flag),
            Attribute::Words(words) => Found::Words(words),
            Attribute::Absent | Attribute::Length(_) => Found::Nothing,
        },
    }
}

/// The length of the list field, or the child at a decimal number.
fn of_field<'a>(tree: &'a Tree, node: u32, field: u16, name: &str) -> Found<'a>
    requires { node < length tree.now }
    ensures value { (top : ℕ) → found_of top result ≡ of_field (row_sight tree.now) (spot_of top node) field name.now }
    ensures within { IsWithin tree.now result }
{
    if name == "length" {
        return match count_in(tree, node, field) {
            Some(count) => Found::Count(count),
            None => Found::Nothing,
        };
    }
    match decimal_of(name.as_bytes()) {
        Some(index) => child_or_nothing(tree, node, field, index),
        None => Found::Nothing,
    }
}

/// The child at this index of the field, if one stands there.
fn child_or_nothing(tree: &Tree, node: u32, field: u16, index: u32) -> Found<'_>
    requires { node < length tree.now }
    ensures value { (top : ℕ) → found_of top result
        ≡ node_or_nothing (option_map (spot_of top) (child_at tree.now node field index)) }
    ensures within { IsWithin tree.now result }
{
    match child_at(tree, node, field, index) {
        Some(child) => Found::Node(child),
        None => Found::Nothing,
    }
}

/// Whether what was found is as the condition asks.
pub fn meets(at: Found<'_>, condition: &Condition) -> bool
    ensures { result ≡ meets condition.now (found_of 0 at.entry) }
{
    match condition {
        Condition::IsThere => !matches!(at, Found::Nothing),
        Condition::Is(text) => has_text(at, text.as_str()),
        Condition::IsNot(text) => !has_text(at, text.as_str()),
        Condition::Compares(comparison, number) => match at {
            Found::Count(count) => compares(*comparison, count, *number),
            _ => false,
        },
    }
}

fn compares(comparison: Comparison, count: u32, number: u32) -> bool
    ensures { result ≡ compares comparison count number }
{
    match comparison {
        Comparison::Less => count < number,
        Comparison::LessOrEqual => count <= number,
        Comparison::Greater => count > number,
        Comparison::GreaterOrEqual => count >= number,
    }
}

/// Whether it is an attribute with this text.
fn has_text(at: Found<'_>, text: &str) -> bool
    ensures { result ≡ option_eq bytes_eq (text_of (found_of 0 at.entry)) (Some text.now) }
{
    match at {
        Found::KindWord(kind) => is_kind_word(kind, text),
        Found::Flag(true) => text == "true",
        Found::Flag(false) => text == "false",
        Found::Words(words) => is_text(words, text),
        Found::Count(count) => is_decimal(text.as_bytes(), count),
        Found::Nothing | Found::Node(_) | Found::Field(..) => false,
    }
}

/// Whether the texts are the same.
fn is_text(words: &str, text: &str) -> bool
    ensures { result ≡ bytes_eq (encode_utf8_all (chars words.now)) text.now }
{
    words == text
}

/// Whether the kind with this code has this word.
fn is_kind_word(kind: u16, text: &str) -> bool
    ensures { result ≡ option_eq bytes_eq (slice_get kind_words kind) (Some text.now) }
{
    let kinds = node_kinds();
    match kinds.find(text) {
        Some(row) => row.code == kind,
        None => false,
    }
}

/// Whether the text is the number in decimal.
fn is_decimal(text: &[u8], number: u32) -> bool
    ensures { result ≡ bytes_eq (decimal number) text.now }
{
    let Some((last, front)) = text.split_last() else {
        return false;
    };
    if u32::from(*last) != 48 + number % 10 {
        return false;
    }
    if number < 10 {
        front.is_empty()
    } else {
        is_decimal(front, number / 10)
    }
}
