//! The nodes that are made of what was read.
ghost use Rattle.std.specs.Prelude.{◌≡◌, ◌≤◌, ◌<◌, nat_lt, ◌∷◌, [], map, Some, None, IfOk, IfSome, IfNone};
ghost use Rattle.std.specs.Option.{unwrap_or};
ghost use Rattle.std.specs.Str.{chars};
ghost use Rattle.es_tables.specs.Nodes.{field_index, node_rows};
ghost use Rattle.es_tree.specs.Shapes.{bare, height, height_of};
ghost use Rattle.es_text.specs.declared.span.Span.{Span};
ghost use Rattle.es_grammar.specs.Drafts.{empty, first_start, flags_of, joined, last_end, name_of, index_in, shape_of, span_of, with_children, with_flags, with_settings, words};
ghost use Rattle.es_grammar.specs.declared.draft.Draft.{Draft as DraftOf};
ghost use Rattle.es_grammar.specs.declared.draft.Outcome.TheVariants.{Read};
ghost use Rattle.es_grammar.specs.Parts.{finish, made};
ghost use Rattle.es_parser.specs.Flags.{flags_in};

use crate::drafts::{join, nothing};
use es_grammar::{Child, Draft, Field, GREATEST_HEIGHT, Outcome, Product, Setting};
use es_tables::field_of;
use es_text::{Items, NoMemory, Span, Token, Txt};
use es_tree::{AttributeValue, Node, heights, kind};
use std::alloc::Global;

/// The name that stands behind the field among these.
macro_rules! names {
    ($field:ident; $($variant:ident $name:literal),*) => {
        match $field {
            $(Field::$variant => $name,)*
        }
    };
}

/// The name of the field.
#[tactic(auto, unfolding(es_grammar::specs::Drafts::name_of))]
pub fn name_of(field: Field) -> &'static str
    ensures { result.now ≡ name_of field }
{
    names![field;
        Alternate "alternate", Argument "argument", Arguments "arguments", Async "async",
        Await "await", Bigint "bigint", Block "block", Body "body", Callee "callee", Cases "cases",
        Computed "computed", Consequent "consequent", Declaration "declaration",
        Declarations "declarations", Delegate "delegate", Directive "directive",
        Discriminant "discriminant", Elements "elements", Exported "exported",
        Expression "expression", Expressions "expressions", Finalizer "finalizer",
        Generator "generator", Handler "handler", Id "id", Imported "imported", Init "init",
        Key "key", Kind "kind", Label "label", Left "left", Local "local", Meta "meta",
        Method "method", Name "name", Object "object", Operator "operator", Optional "optional",
        Param "param", Params "params", Prefix "prefix", Properties "properties",
        Property "property", Quasi "quasi", Quasis "quasis", Raw "raw", Regex "regex",
        Right "right", Shorthand "shorthand", Source "source", SourceType "sourceType",
        Specifiers "specifiers", Static "static", SuperClass "superClass", Tag "tag", Tail "tail",
        Test "test", Update "update", Value "value"
    ]
}

/// The position of the field among those of the kind, where it is one of those that come most.
#[tactic(auto, unfolding(es_grammar::specs::Drafts::name_of))]
fn usual_place(node_kind: u16, field: Field) -> Option<u16>
    ensures { IfSome result (λ place. field_index node_kind (name_of field) ≡ Some place) }
{
    match field {
        Field::Name if node_kind == kind::IDENTIFIER => Some(0),
        Field::Object if node_kind == kind::MEMBER_EXPRESSION => Some(0),
        Field::Property if node_kind == kind::MEMBER_EXPRESSION => Some(1),
        Field::Computed if node_kind == kind::MEMBER_EXPRESSION => Some(2),
        Field::Callee if node_kind == kind::CALL_EXPRESSION => Some(0),
        Field::Arguments if node_kind == kind::CALL_EXPRESSION => Some(1),
        Field::Raw if node_kind == kind::LITERAL => Some(0),
        Field::Value if node_kind == kind::LITERAL => Some(1),
        Field::Value if node_kind == kind::PROPERTY => Some(1),
        Field::Key if node_kind == kind::PROPERTY => Some(0),
        Field::Kind if node_kind == kind::PROPERTY => Some(2),
        Field::Kind if node_kind == kind::VARIABLE_DECLARATION => Some(1),
        Field::Declarations if node_kind == kind::VARIABLE_DECLARATION => Some(0),
        Field::Expression if node_kind == kind::EXPRESSION_STATEMENT => Some(0),
        Field::Left if node_kind == kind::BINARY_EXPRESSION => Some(0),
        Field::Left if node_kind == kind::ASSIGNMENT_EXPRESSION => Some(0),
        Field::Left if node_kind == kind::LOGICAL_EXPRESSION => Some(0),
        Field::Right if node_kind == kind::BINARY_EXPRESSION => Some(1),
        Field::Right if node_kind == kind::ASSIGNMENT_EXPRESSION => Some(1),
        Field::Right if node_kind == kind::LOGICAL_EXPRESSION => Some(1),
        Field::Operator if node_kind == kind::BINARY_EXPRESSION => Some(2),
        Field::Operator if node_kind == kind::ASSIGNMENT_EXPRESSION => Some(2),
        Field::Operator if node_kind == kind::LOGICAL_EXPRESSION => Some(2),
        Field::Id if node_kind == kind::VARIABLE_DECLARATOR => Some(0),
        Field::Init if node_kind == kind::VARIABLE_DECLARATOR => Some(1),
        Field::Body if node_kind == kind::BLOCK_STATEMENT => Some(0),
        Field::Properties if node_kind == kind::OBJECT_EXPRESSION => Some(0),
        Field::Elements if node_kind == kind::ARRAY_EXPRESSION => Some(0),
        Field::Argument if node_kind == kind::RETURN_STATEMENT => Some(0),
        Field::Test if node_kind == kind::IF_STATEMENT => Some(0),
        Field::Consequent if node_kind == kind::IF_STATEMENT => Some(1),
        _ => None,
    }
}

/// The position of the field among those of the kind; children without a field stand in the first.
pub fn index_in(kind: u16, field: Option<Field>) -> u16
    ensures { result ≡ index_in kind field }
{
    let Some(field) = field else {
        return 0;
    };
    match usual_place(kind, field) {
        Some(place) => place,
        None => field_of(kind, name_of(field)).unwrap_or(0),
    }
}

/// For each kind the positions of the attributes that are true or false.
static FLAGS: [&[u16]; 71] = [
    &[],
    &[],
    &[],
    &[],
    &[],
    &[],
    &[],
    &[],
    &[],
    &[], // Program to WithStatement
    &[],
    &[],
    &[],
    &[],
    &[],
    &[],
    &[],
    &[],
    &[],
    &[], // ReturnStatement to CatchClause
    &[],
    &[],
    &[],
    &[], // WhileStatement to ForInStatement
    &[3], // ForOfStatement: await
    &[3, 4], // FunctionDeclaration: async, generator
    &[3, 4], // FunctionExpression: async, generator
    &[2, 3], // ArrowFunctionExpression: async, expression
    &[],
    &[],
    &[],
    &[], // VariableDeclaration to ClassExpression
    &[3, 4], // MethodDefinition: static, computed
    &[2, 3], // PropertyDefinition: static, computed
    &[],
    &[],
    &[],
    &[],
    &[],
    &[],
    &[], // Identifier to ObjectPattern
    &[3, 4, 5], // Property: method, shorthand, computed
    &[2], // UnaryExpression: prefix
    &[2], // UpdateExpression: prefix
    &[],
    &[],
    &[],
    &[], // BinaryExpression to AssignmentPattern
    &[2, 3], // MemberExpression: computed, optional
    &[2], // CallExpression: optional
    &[],
    &[],
    &[], // NewExpression to SequenceExpression
    &[1], // YieldExpression: delegate
    &[],
    &[],
    &[],
    &[], // AwaitExpression to TemplateLiteral
    &[1], // TemplateElement: tail
    &[],
    &[],
    &[],
    &[],
    &[],
    &[],
    &[],
    &[],
    &[],
    &[],
    &[],
    &[], // TaggedTemplateExpression to the last
];

fn all_flags() -> &'static [&'static [u16]]
    ensures { map (λ flags. flags.now) result.now ≡ map flags_in node_rows }
{
    &FLAGS
}

/// The positions of the kind's attributes that are true or false.
fn flags_of(kind: u16) -> &'static [u16]
    ensures { result.now ≡ map (λ name. unwrap_or (field_index kind name) 0) (flags_of kind) }
{
    match all_flags().get(kind as usize) {
        Some(flags) => flags,
        None => &[],
    }
}

/// A node of this kind, with its flags, which are false.
fn with_flags(alloc: Global, kind: u16, span: Span) -> Result<Node, NoMemory>
    ensures { IfOk result (λ node. node ≡ with_flags kind (flags_of kind) (bare kind span)) }
{
    let mut node = Node::bare(alloc, kind, span)?;
    for flag in flags_of(kind) {
        node.give(alloc, *flag, AttributeValue::Flag(false))?;
    }
    Ok(node)
}

/// The same with these attributes.
pub fn with_settings(
    alloc: Global,
    kind: u16,
    span: Span,
    settings: Items<Setting>,
) -> Result<Node, NoMemory>
    ensures { IfOk result (λ node. node ≡ with_settings kind settings (with_flags kind (flags_of kind) (bare kind span))) }
{
    let mut node = with_flags(alloc, kind, span)?;
    for setting in settings.into_vec() {
        let Setting { field, value } = setting;
        node.give(alloc, index_in(kind, Some(field)), value)?;
    }
    Ok(node)
}

/// The same with one attribute, which is a text.
pub fn with_words(
    alloc: Global,
    kind: u16,
    span: Span,
    field: Field,
    text: &str,
) -> Result<Node, NoMemory>
    ensures { IfOk result (λ node. node ≡ with_settings kind (words field (chars text.now) ∷ [])
        (with_flags kind (flags_of kind) (bare kind span))) }
{
    let mut node = with_flags(alloc, kind, span)?;
    let value = AttributeValue::Words(Txt::new(alloc, text)?);
    node.give(alloc, index_in(kind, Some(field)), value)?;
    Ok(node)
}

fn is_too_high(child: &Option<Node>) -> bool
    ensures { result ≡ nat_lt GREATEST_HEIGHT (height_of child.now) }
{
    match child {
        None => false,
        Some(node) => node.height() > GREATEST_HEIGHT,
    }
}

/// The node with these children, or `None` where that is too high.
pub fn with_children(
    kind: u16,
    node: Node,
    children: Items<Child>,
) -> Result<Option<Node>, NoMemory>
    ensures low { IfOk result (λ made. IfSome made (λ all. all ≡ with_children kind children node)) }
    ensures bounded { IfOk result (λ made. IfSome made (λ all. height all ≤ GREATEST_HEIGHT)) }
    ensures high { IfOk result (λ made. IfNone made
        (GREATEST_HEIGHT < height (with_children kind children node))) }
{
    heights();
    let mut node = node;
    for child in children.into_vec() {
        let Child { field, shape } = child;
        let field = index_in(kind, field);
        if (field as usize) < node.as_shape().fields.len() {
            if is_too_high(&shape) {
                return Ok(None);
            }
            node.put(field, shape)?;
        }
    }
    Ok(if node.height() > GREATEST_HEIGHT {
        None
    } else {
        Some(node)
    })
}

pub fn first_start(tokens: &[Token]) -> u32
    ensures { result ≡ first_start tokens.now }
{
    match tokens {
        [] => 0,
        [first, ..] => first.span.start,
    }
}

fn last_end(tokens: &[Token]) -> u32
    ensures { result ≡ last_end tokens.now }
{
    match tokens {
        [] => 0,
        [.., last] => last.span.end,
    }
}

/// From the first token to the last.
pub fn span_of(tokens: &[Token]) -> Span
    ensures { result ≡ span_of tokens.now }
{
    Span {
        start: first_start(tokens),
        end: last_end(tokens),
    }
}

/// The node of this kind from what was read, unless it is too high.
#[tactic(auto, unfolding(es_grammar::specs::Parts::made, es_grammar::specs::Drafts::shape_of))]
fn made(
    alloc: Global,
    kind: u16,
    draft: Draft,
    becomes: Option<u16>,
    end: u32,
) -> Result<Outcome, NoMemory>
    ensures { IfOk result (λ outcome. outcome ≡ made kind draft becomes end) }
{
    let Draft {
        children,
        settings,
        tokens,
        becomes: _,
    } = draft;
    let node = with_settings(alloc, kind, span_of(tokens.as_slice()), settings)?;
    match with_children(kind, node, children)? {
        None => Ok(Outcome::Deep),
        Some(node) => {
            let mut children = Items::new(alloc);
            children.push(Child {
                field: None,
                shape: Some(node),
            })?;
            let draft = Draft {
                children,
                settings: Items::new(alloc),
                tokens,
                becomes,
            };
            Ok(Outcome::Read(draft, end))
        }
    }
}

/// What a row makes of all that was read.
#[tactic(auto, unfolding(es_grammar::specs::Parts::finish))]
fn made_of(alloc: Global, makes: Product, draft: Draft, end: u32) -> Result<Outcome, NoMemory>
    ensures { IfOk result (λ all. (seed : DraftOf) (parts : DraftOf) → joined seed parts ≡ draft →
        all ≡ finish makes seed (Read parts end)) }
{
    let becomes = draft.becomes;
    match makes {
        Product::Parts => Ok(Outcome::Read(draft, end)),
        Product::Node(kind) => made(alloc, kind, draft, becomes, end),
        Product::Becoming => match becomes {
            None => Ok(Outcome::Read(draft, end)),
            Some(kind) => made(alloc, kind, draft, None, end),
        },
    }
}

/// The same where nothing was read before.
fn made_alone(alloc: Global, makes: Product, draft: Draft, end: u32) -> Result<Outcome, NoMemory>
    ensures { IfOk result (λ all. all ≡ finish makes empty (Read draft end)) }
{
    made_of(alloc, makes, draft, end)
}

/// What a row makes of what its parts gave, where nothing was read before.
#[tactic(auto, unfolding(es_grammar::specs::Parts::finish))]
pub fn finish_alone(alloc: Global, makes: Product, outcome: Outcome) -> Result<Outcome, NoMemory>
    ensures { IfOk result (λ all. all ≡ finish makes empty outcome) }
{
    let Outcome::Read(draft, end) = outcome else {
        return Ok(outcome);
    };
    made_alone(alloc, makes, draft, end)
}

/// What a row makes of what its parts gave, behind what was read before.
#[tactic(auto, unfolding(es_grammar::specs::Parts::finish))]
pub fn finish(
    alloc: Global,
    makes: Product,
    seed: Draft,
    outcome: Outcome,
) -> Result<Outcome, NoMemory>
    ensures { IfOk result (λ all. all ≡ finish makes seed outcome) }
{
    let Outcome::Read(draft, end) = outcome else {
        return Ok(outcome);
    };
    made_of(alloc, makes, join(seed, draft)?, end)
}
