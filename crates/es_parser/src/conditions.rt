//! The conditions of the grammar.
ghost use Rattle.std.specs.Prelude.{◌≡◌, ◌==◌, ℕ, Some, IsTrue, ◌∷◌, [], not, ◌&&◌, false, map, option_copied, option_map, List};
ghost use Rattle.std.specs.List.{find, list_any};
ghost use Rattle.std.specs.Option.{option_and_then, option_map_or};
ghost use Rattle.std.specs.Str.{IsAscii, IsCharBoundary, bytes_eq, chars};
ghost use Rattle.es_text.specs.Tokens.{token};
ghost use Rattle.es_tree.specs.declared.shape.Shape.{out-Shape};
ghost use Rattle.es_grammar.specs.Conditions.{allows_no_semicolon, are_next, first_shape, has_words, holds, is_bare, is_kind, is_last, is_named_constructor, is_next, is_on_line, is_or_or_and, is_pattern, is_plain_target, is_set, is_unary, last_shape};
ghost use Rattle.es_grammar.specs.Drafts.{first_start, name_of, index_in, value_in, words_of};
ghost use Rattle.es_grammar.specs.Parts.{all_hold};
ghost use Rattle.es_grammar.specs.declared.context.Spot.{Spot as SpotOf};
ghost use Rattle.es_parser.specs.Ends.{is_of_draft};
ghost use Rattle.es_grammar.specs.Terminals.{text_of};

use crate::nodes::{first_start, index_in, name_of};
use crate::reader::Reader;
use es_grammar::{Child, Condition, Draft, Field, Setting, Spot};
use es_text::{LexMode, Steps, TokenKind};
use es_tree::{AttributeValue, SetAttribute, Shape, kind};
use std::sync::ledger::Ledger;

/// Whether no line ends before the next token.
fn is_on_line<L: Ledger>(reader: &mut Reader, at: u32, steps: &mut Steps<L>) -> bool
    requires { IsCharBoundary reader.old at }
    ensures same { reader.new ≡ reader.old }
    ensures so { result ≡ is_on_line reader.old at }
{
    match reader.token(at, LexMode::Division, steps) {
        Some(next) => !next.line_before,
        None => !reader.has_line(at),
    }
}

/// Whether the next token is one of these.
fn is_next<L: Ledger>(reader: &mut Reader, at: u32, texts: &[&str], steps: &mut Steps<L>) -> bool
    requires { IsCharBoundary reader.old at }
    ensures same { reader.new ≡ reader.old }
    ensures so { result ≡ option_map_or (λ next. list_any (λ one. bytes_eq one.now (text_of reader.old next)) texts.now) (token reader.old at LexMode.Division) false }
{
    match reader.token(at, LexMode::Division, steps) {
        Some(next) => is_one_of(reader.text_of(next), texts),
        None => false,
    }
}

fn is_one_of(text: &str, texts: &[&str]) -> bool
    ensures { result ≡ list_any (λ one. bytes_eq one.now text.now) texts.now }
{
    texts.iter().any(|one| *one == text)
}

/// Whether the next token is `async`, and the one behind it on its line `function`.
fn is_async_function_next<L: Ledger>(reader: &mut Reader, at: u32, steps: &mut Steps<L>) -> bool
    requires { IsCharBoundary reader.old at }
    ensures same { reader.new ≡ reader.old }
    ensures so { result ≡ are_next reader.old at "async" "function" }
{
    match reader.token(at, LexMode::Division, steps) {
        Some(next) => {
            reader.text_of(next) == "async"
                && is_on_line(reader, next.span.end, steps)
                && is_next(reader, next.span.end, &["function"], steps)
        }
        None => false,
    }
}

/// Whether a semicolon may be left out before the next token.
fn is_semicolon_left_out<L: Ledger>(reader: &mut Reader, at: u32, steps: &mut Steps<L>) -> bool
    requires { IsCharBoundary reader.old at }
    ensures same { reader.new ≡ reader.old }
    ensures so { result ≡ option_map_or (allows_no_semicolon reader.old) (token reader.old at LexMode.Division) false }
{
    match reader.token(at, LexMode::Division, steps) {
        Some(next) => {
            next.kind == TokenKind::End || next.line_before || reader.text_of(next) == "}"
        }
        None => false,
    }
}

/// The words of this attribute of the node are these.
fn has_words(shape: &Shape, field: Field, text: &str) -> bool
    requires { IsAscii text.now }
    ensures { result ≡ option_map_or (bytes_eq text.now) (option_and_then words_of (value_in (index_in (out-Shape shape.now).kind (Some field)) (out-Shape shape.now).attributes)) false }
{
    match words_of(shape, field) {
        Some(words) => is_text(words, text),
        None => false,
    }
}

fn is_text(words: &str, text: &str) -> bool
    requires { IsAscii text.now }
    ensures { result ≡ bytes_eq text.now (chars words.now) }
{
    words == text
}

/// The words of this attribute of the node.
pub fn words_of(shape: &Shape, field: Field) -> Option<&str>
    ensures { option_map (λ words. chars words.now) result ≡ option_and_then words_of (value_in (index_in (out-Shape shape.now).kind (Some field)) (out-Shape shape.now).attributes) }
{
    let field = index_in(shape.kind, Some(field));
    match value_of(shape.attributes.as_slice(), field)? {
        AttributeValue::Flag(_) => None,
        AttributeValue::Words(words) => Some(words.as_str()),
    }
}

/// The value of the attribute with this code, where one was set.
fn value_of(attributes: &[SetAttribute], field: u16) -> Option<&AttributeValue>
    ensures { option_copied result ≡ value_in field attributes.now }
{
    match first_with(attributes, field) {
        Some(given) => Some(&given.value),
        None => None,
    }
}

fn first_with(attributes: &[SetAttribute], field: u16) -> Option<&SetAttribute>
    ensures { option_copied result ≡ find (λ given. given.field == field) attributes.now }
{
    attributes.iter().find(|given| given.field == field)
}

#[tactic(auto, unfolding(es_grammar::specs::Conditions::is_plain_target))]
fn is_plain_target(shape: &Shape) -> bool
    ensures { result ≡ is_plain_target shape.now }
{
    shape.kind == kind::IDENTIFIER || shape.kind == kind::MEMBER_EXPRESSION
}

#[tactic(auto, unfolding(es_grammar::specs::Conditions::is_pattern))]
fn is_pattern(shape: &Shape) -> bool
    ensures { result ≡ is_pattern shape.now }
{
    shape.kind == kind::ARRAY_PATTERN || shape.kind == kind::OBJECT_PATTERN
}

#[tactic(auto, unfolding(es_grammar::specs::Conditions::is_or_or_and))]
fn is_or_or_and(shape: &Shape) -> bool
    ensures { result ≡ is_or_or_and shape.now }
{
    shape.kind == kind::LOGICAL_EXPRESSION
        && (has_words(shape, Field::Operator, "||") || has_words(shape, Field::Operator, "&&"))
}

#[tactic(auto, unfolding(es_grammar::specs::Conditions::is_unary))]
fn is_unary(shape: &Shape) -> bool
    ensures { result ≡ is_unary shape.now }
{
    shape.kind == kind::UNARY_EXPRESSION || shape.kind == kind::AWAIT_EXPRESSION
}

#[tactic(auto, unfolding(es_grammar::specs::Conditions::is_named_constructor))]
fn is_named_constructor(shape: &Shape) -> bool
    ensures { result ≡ is_named_constructor shape.now }
{
    shape.kind == kind::IDENTIFIER && has_words(shape, Field::Name, "constructor")
        || shape.kind == kind::LITERAL && has_words(shape, Field::Value, "constructor")
}

fn shape_of(child: &Child) -> Option<&Shape>
    ensures { option_copied result ≡ child.now.shape }
{
    let node = child.shape.as_ref()?;
    Some(node.as_shape())
}

/// The last node that was read.
fn last_shape(children: &[Child]) -> Option<&Shape>
    ensures { option_copied result ≡ last_shape children.now }
{
    match children {
        [] => None,
        [.., last] => shape_of(last),
    }
}

fn first_shape(children: &[Child]) -> Option<&Shape>
    ensures { option_copied result ≡ first_shape children.now }
{
    match children {
        [] => None,
        [first, ..] => shape_of(first),
    }
}

/// Whether no parenthesis stands before the node that was read last.
fn begins_bare(draft: &Draft, shape: &Shape) -> bool
    ensures { result ≡ ((out-Shape shape.now).span.start == first_start draft.now.tokens) }
{
    shape.span.start == first_start(draft.tokens.as_slice())
}

fn is_computed(settings: &[Setting]) -> bool
    ensures { result ≡ is_set Field.Computed settings.now }
{
    settings.iter().any(|setting| name_of(setting.field) == name_of(Field::Computed))
}

/// Whether the last of the nodes is an Identifier or a MemberExpression.
pub fn is_target(children: &[Child]) -> Option<bool>
    ensures { result ≡ option_map is_plain_target (last_shape children.now) }
{
    let last = last_shape(children)?;
    Some(is_plain_target(last))
}

/// Whether the condition asks what was read.
pub fn is_of_draft(condition: Condition) -> bool
    ensures { result ≡ is_of_draft condition }
{
    match condition {
        Condition::PlainTarget
        | Condition::PatternHasValue
        | Condition::NoLogicalOperator
        | Condition::NoUnaryOperator
        | Condition::ConstructorKey => true,
        _ => false,
    }
}

/// Whether a condition on what was read holds.
#[tactic(auto, unfolding(es_grammar::specs::Conditions::holds))]
fn holds_of(draft: &Draft, condition: Condition) -> bool
    requires { IsTrue (is_of_draft condition) }
    ensures { (text : List ℕ) (spot : SpotOf) → result ≡ holds text spot draft.now condition }
{
    let children = draft.children.as_slice();
    let last = last_shape(children);
    match condition {
        Condition::PlainTarget => match last {
            Some(shape) => is_plain_target(shape),
            None => false,
        },
        Condition::PatternHasValue => {
            let pattern = match first_shape(children) {
                Some(shape) => is_pattern(shape),
                None => false,
            };
            !pattern || children.len() > 1
        }
        Condition::NoLogicalOperator => match last {
            Some(shape) => !(is_or_or_and(shape) && begins_bare(draft, shape)),
            None => true,
        },
        Condition::NoUnaryOperator => match last {
            Some(shape) => !(is_unary(shape) && begins_bare(draft, shape)),
            None => true,
        },
        Condition::ConstructorKey => {
            let named = match last {
                Some(shape) => is_named_constructor(shape),
                None => false,
            };
            named && !is_computed(draft.settings.as_slice())
        }
        _ => unreachable!(),
    }
}

/// Whether the condition holds at the spot, behind what was read.
#[tactic(auto, unfolding(es_grammar::specs::Conditions::holds))]
pub fn holds<L: Ledger>(
    reader: &mut Reader,
    spot: Spot,
    draft: &Draft,
    condition: Condition,
    steps: &mut Steps<L>,
) -> bool
    requires { IsCharBoundary reader.old spot.at }
    ensures same { reader.new ≡ reader.old }
    ensures so { result ≡ holds reader.old spot draft.now condition }
{
    let at = spot.at;
    match condition {
        Condition::SameLine => is_on_line(reader, at, steps),
        Condition::BracketNext => is_next(reader, at, &["[", "{"], steps),
        Condition::NoBracketNext => !is_next(reader, at, &["[", "{"], steps),
        Condition::NoBraceNext => !is_next(reader, at, &["{"], steps),
        Condition::CommaNext => is_next(reader, at, &[","], steps),
        Condition::NoCommaNext => !is_next(reader, at, &[","], steps),
        Condition::InNext => is_next(reader, at, &["in"], steps),
        Condition::MemberNext => is_next(reader, at, &[".", "["], steps),
        Condition::MemberOrCallNext => is_next(reader, at, &[".", "[", "("], steps),
        Condition::NoImportExpressionNext => !is_next(reader, at, &["(", "."], steps),
        Condition::ExpressionNext => {
            !(is_next(reader, at, &["{", "function", "class"], steps)
                || is_async_function_next(reader, at, steps))
        }
        Condition::SemicolonLeftOut => is_semicolon_left_out(reader, at, steps),
        Condition::AwaitIsOperator => spot.context.await_operator,
        Condition::YieldIsOperator => spot.context.yield_operator,
        Condition::InIsOperator => spot.context.in_operator,
        Condition::PlainTarget
        | Condition::PatternHasValue
        | Condition::NoLogicalOperator
        | Condition::NoUnaryOperator
        | Condition::ConstructorKey => holds_of(draft, condition),
    }
}

/// Whether all of the conditions hold.
pub fn all_hold<L: Ledger>(
    reader: &mut Reader,
    spot: Spot,
    draft: &Draft,
    conditions: &[Condition],
    steps: &mut Steps<L>,
) -> bool
    requires { IsCharBoundary reader.old spot.at }
    ensures same { reader.new ≡ reader.old }
    ensures so { result ≡ all_hold reader.old spot draft.now conditions.now }
{
    for condition in conditions {
        if !holds(reader, spot, draft, *condition, steps) {
            return false;
        }
    }
    true
}
