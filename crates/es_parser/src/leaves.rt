//! The nodes that are one token.
ghost use Rattle.std.specs.Prelude.{◌≡◌, ◌==◌, ◌-◌, ◌++◌, ◌∷◌, [], drop, if◌then◌else◌, take, length, IfOk, IfSome, IfNone, OnOk, Some};
ghost use Rattle.std.specs.List.{list_any};
ghost use Rattle.std.specs.Str.{chars};
ghost use Rattle.es_text.specs.Characters.{backslash};
ghost use Rattle.es_grammar.specs.Drafts.{between, ends_with_n, leaf_of, literal_settings, number_value, template_settings, text_value, word_value};
ghost use Rattle.es_grammar.specs.Drafts as drafts;
ghost use Rattle.es_grammar.specs.Forms.{kind_called};
ghost use Rattle.es_grammar.specs.Parts.{leaf_child};
ghost use Rattle.es_parser.specs.Kept.{IsWithin};

use crate::nodes::{with_settings, with_words};
use crate::reader::Reader;
use es_grammar::{Child, Field, Setting};
use es_text::{Items, NoMemory, Token, TokenKind, Txt};
use es_tree::{AttributeValue, Node, kind};
use std::alloc::Global;

/// The first character, and what follows it.
pub fn split_first(text: &str) -> Option<(char, &str)>
    ensures some { IfSome result (λ parts. chars text.now ≡ parts.0 ∷ chars parts.1.now) }
    ensures none { IfNone result (chars text.now ≡ []) }
{
    let mut rest = text.chars();
    let first = rest.next()?;
    Some((first, rest.as_str()))
}

/// The last character, and what stands before it.
fn split_last(text: &str) -> Option<(&str, char)>
    ensures some { IfSome result (λ parts. chars text.now ≡ chars parts.0.now ++ parts.1 ∷ []) }
    ensures none { IfNone result (chars text.now ≡ []) }
{
    let mut rest = text.chars();
    let last = rest.next_back()?;
    Some((rest.as_str(), last))
}

fn without_first(text: &str) -> &str
    ensures { chars result.now ≡ drop 1 (chars text.now) }
{
    match split_first(text) {
        Some((_, rest)) => rest,
        None => text,
    }
}

fn without_last(text: &str) -> &str
    ensures { chars result.now ≡ take (length (chars text.now) - 1) (chars text.now) }
{
    match split_last(text) {
        Some((rest, _)) => rest,
        None => text,
    }
}

/// What stands in the text between its first character and its last.
pub fn inside(text: &str) -> &str
    ensures { chars result.now ≡ between 1 1 (chars text.now) }
{
    without_last(without_first(text))
}

/// What stands in the text between its first character and its last two.
fn inside_two(text: &str) -> &str
    ensures { chars result.now ≡ between 1 2 (chars text.now) }
{
    without_last(inside(text))
}

pub fn words(alloc: Global, field: Field, text: &str) -> Result<Setting, NoMemory>
    ensures { IfOk result (λ setting. setting ≡ drafts.words field (chars text.now)) }
{
    Ok(Setting {
        field,
        value: AttributeValue::Words(Txt::new(alloc, text)?),
    })
}

pub fn flag(field: Field, so: bool) -> Setting
    ensures { result ≡ drafts.flag field so }
{
    Setting {
        field,
        value: AttributeValue::Flag(so),
    }
}

fn has_backslash(text: &str) -> bool
    ensures { result ≡ list_any (λ c. c == backslash) (chars text.now) }
{
    text.chars().any(|c| c == '\\')
}

/// The value of a string literal that has no backslash.
#[tactic(auto, unfolding(es_grammar::specs::Drafts::text_value))]
fn text_value(alloc: Global, text: &str, settings: &mut Items<Setting>) -> Result<(), NoMemory>
    ensures { OnOk result (settings.new ≡ settings.old ++ text_value (chars text.now)) }
{
    if !has_backslash(text) {
        settings.push(words(alloc, Field::Value, inside(text))?)?;
    }
    Ok(())
}

/// The value of `true`, `false` and `null`.
#[tactic(auto, unfolding(es_grammar::specs::Drafts::word_value))]
fn word_value(alloc: Global, text: &str) -> Result<Setting, NoMemory>
    ensures { IfOk result (λ setting. setting ∷ [] ≡ word_value (chars text.now)) }
{
    if text == "true" {
        return Ok(flag(Field::Value, true));
    }
    if text == "false" {
        return Ok(flag(Field::Value, false));
    }
    words(alloc, Field::Value, text)
}

fn ends_with_n(text: &str) -> bool
    ensures { result ≡ ends_with_n (chars text.now) }
{
    match split_last(text) {
        Some((_, last)) => last == 'n',
        None => false,
    }
}

/// A BigInt's digits with their suffix.
#[tactic(auto, unfolding(es_grammar::specs::Drafts::number_value))]
fn number_value(alloc: Global, text: &str, settings: &mut Items<Setting>) -> Result<(), NoMemory>
    ensures { OnOk result (settings.new ≡ settings.old ++ number_value (chars text.now)) }
{
    if ends_with_n(text) {
        settings.push(words(alloc, Field::Bigint, text)?)?;
    }
    Ok(())
}

/// The attributes of a literal.
#[tactic(auto, unfolding(es_grammar::specs::Drafts::literal_settings))]
fn literal_settings(alloc: Global, kind: TokenKind, text: &str) -> Result<Items<Setting>, NoMemory>
    ensures { IfOk result (λ settings. settings ≡ literal_settings kind (chars text.now)) }
{
    let mut settings = Items::new(alloc);
    settings.push(words(alloc, Field::Raw, text)?)?;
    match kind {
        TokenKind::Text => text_value(alloc, text, &mut settings)?,
        TokenKind::Number => number_value(alloc, text, &mut settings)?,
        TokenKind::RegExp => settings.push(words(alloc, Field::Regex, text)?)?,
        _ => settings.push(word_value(alloc, text)?)?,
    }
    Ok(settings)
}

/// The attributes of a template's part.
#[tactic(auto, unfolding(es_grammar::specs::Drafts::template_settings))]
fn template_settings(alloc: Global, kind: TokenKind, text: &str) -> Result<Items<Setting>, NoMemory>
    ensures { IfOk result (λ settings. settings ≡ template_settings kind (chars text.now)) }
{
    let mut settings = Items::new(alloc);
    match kind {
        TokenKind::Full | TokenKind::Tail => {
            settings.push(words(alloc, Field::Raw, inside(text))?)?;
            settings.push(flag(Field::Tail, true))?;
        }
        _ => settings.push(words(alloc, Field::Raw, inside_two(text))?)?,
    }
    Ok(settings)
}

/// The name that the text of a node of this kind says.
fn name_in(node_kind: u16, text: &str) -> &str
    ensures { chars result.now ≡ if node_kind == kind_called "PrivateIdentifier" then drop 1 (chars text.now) else chars text.now }
{
    if node_kind == kind::PRIVATE_IDENTIFIER {
        without_first(text)
    } else {
        text
    }
}

/// The node of this kind that the token is.
#[tactic(auto, unfolding(es_grammar::specs::Drafts::shape_of, es_grammar::specs::Drafts::leaf_settings))]
fn leaf_of(alloc: Global, reader: &Reader, node_kind: u16, found: Token) -> Result<Node, NoMemory>
    requires { IsWithin reader.now found.span.start found }
    ensures { IfOk result (λ node. node ≡ leaf_of reader.now node_kind found) }
{
    let text = reader.text_of(found);
    if node_kind == kind::LITERAL {
        let settings = literal_settings(alloc, found.kind, text)?;
        return with_settings(alloc, node_kind, found.span, settings);
    }
    if node_kind == kind::TEMPLATE_ELEMENT {
        let settings = template_settings(alloc, found.kind, text)?;
        return with_settings(alloc, node_kind, found.span, settings);
    }
    let name = name_in(node_kind, text);
    with_words(alloc, node_kind, found.span, Field::Name, name)
}

/// The same as a child of the node around.
pub fn leaf_child(
    alloc: Global,
    reader: &Reader,
    kind: u16,
    field: Option<Field>,
    found: Token,
) -> Result<Child, NoMemory>
    requires { IsWithin reader.now found.span.start found }
    ensures { IfOk result (λ child. child ≡ leaf_child reader.now kind field found) }
{
    let node = leaf_of(alloc, reader, kind, found)?;
    Ok(Child {
        field,
        shape: Some(node),
    })
}
