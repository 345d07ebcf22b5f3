//! The directives at the head of a body.
ghost use Rattle.std.specs.Prelude.{◌≡◌, ◌++◌, Some, None, IfOk, option_copied, option_map};
ghost use Rattle.std.specs.Bool.{OnTrue, OnFalse};
ghost use Rattle.std.specs.Str.{chars};
ghost use Rattle.es_tree.specs.declared.shape.Shape.{out-Shape};
ghost use Rattle.es_grammar.specs.Parts.{as_directive, directive_of, directive_text, first_of_all, starts_with_quote, told_child, with_directives};

use crate::conditions::words_of;
use crate::leaves::{inside, split_first, words};
use crate::nodes::index_in;
use es_grammar::{Child, Field};
use es_text::{Items, NoMemory};
use es_tree::{Node, Shape, kind};
use std::alloc::Global;

/// The first node of the first field.
fn first_of_all(shape: &Shape) -> Option<&Shape>
    ensures { option_copied result ≡ first_of_all (out-Shape shape.now).fields }
{
    match shape.fields.as_slice() {
        [first, ..] => match first.as_slice() {
            [Some(shape), ..] => Some(shape),
            _ => None,
        },
        [] => None,
    }
}

fn starts_with_quote(text: &str) -> bool
    ensures { result ≡ starts_with_quote (chars text.now) }
{
    match split_first(text) {
        Some((first, _)) => first == '"' || first == '\'',
        None => false,
    }
}

/// What the text says that the statement's expression is.
#[tactic(auto, unfolding(es_grammar::specs::Parts::directive_text))]
fn directive_text<'a>(statement: &Shape, expression: &'a Shape) -> Option<&'a str>
    ensures { option_map (λ text. chars text.now) result
        ≡ directive_text statement.now expression.now }
{
    if expression.kind != kind::LITERAL || expression.span.start != statement.span.start {
        return None;
    }
    let raw = words_of(expression, Field::Raw)?;
    if starts_with_quote(raw) {
        Some(inside(raw))
    } else {
        None
    }
}

/// The text of the directive that the statement is.
#[tactic(auto, unfolding(es_grammar::specs::Parts::directive_of))]
fn directive_of(statement: &Shape) -> Option<&str>
    ensures { option_map (λ text. chars text.now) result ≡ directive_of statement.now }
{
    if statement.kind != kind::EXPRESSION_STATEMENT {
        return None;
    }
    directive_text(statement, first_of_all(statement)?)
}

/// The statement, which tells of its directive where it is one, and whether it is one.
fn told(alloc: Global, node: Node) -> Result<(Node, bool), NoMemory>
    ensures yes { IfOk result (λ made.
        OnTrue made.1 (option_map (as_directive node) (directive_of node) ≡ Some made.0)) }
    ensures no { IfOk result (λ made. OnFalse made.1 (directive_of node ≡ None)) }
    ensures same { IfOk result (λ made. OnFalse made.1 (made.0 ≡ node)) }
{
    let words = match directive_of(node.as_shape()) {
        Some(text) => words(alloc, Field::Directive, text)?,
        None => return Ok((node, false)),
    };
    let mut node = node;
    let field = index_in(node.as_shape().kind, Some(Field::Directive));
    node.give(alloc, field, words.value)?;
    Ok((node, true))
}

/// The same as a child of the node around.
fn told_child(alloc: Global, child: Child) -> Result<(Child, bool), NoMemory>
    ensures yes { IfOk result (λ made. OnTrue made.1 (told_child child ≡ Some made.0)) }
    ensures no { IfOk result (λ made. OnFalse made.1 (told_child child ≡ None)) }
    ensures same { IfOk result (λ made. OnFalse made.1 (made.0 ≡ child)) }
{
    let Child { field, shape } = child;
    match shape {
        None => Ok((Child { field, shape: None }, false)),
        Some(node) => {
            let (node, so) = told(alloc, node)?;
            let child = Child {
                field,
                shape: Some(node),
            };
            Ok((child, so))
        }
    }
}

/// The statements, of which the directives at the head tell so.
#[tactic(auto, unfolding(es_grammar::specs::Parts::with_directives))]
pub fn with_directives(alloc: Global, children: Items<Child>) -> Result<Items<Child>, NoMemory>
    ensures { IfOk result (λ all. all ≡ with_directives children) }
{
    let mut all = Vec::with_capacity(alloc, children.len())?;
    let mut head = true;
    for child in children.into_vec() {
        if head {
            let (child, so) = told_child(alloc, child)?;
            head = so;
            all.push(child)?;
        } else {
            all.push(child)?;
        }
    }
    Ok(Items::from_vec(all))
}
