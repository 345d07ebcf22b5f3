ghost use Rattle.std.specs.Prelude.{◌≡◌, ◌+◌, ◌<◌, IfOk};
ghost use Rattle.es_tree.specs.declared.shape.Shape.{out-Shape};
ghost use Rattle.es_tree.specs.Shapes.{height};

use crate::kind::{self, PROGRAM};
use crate::{Attribute, Node, Tree};
use es_tables::node_kinds;
use es_text::{NoMemory, Span};
use std::alloc::Global;
use std::test::Fail;

/// This many blocks and then an empty statement, each the only child of the one before.
#[tactic(auto, unfolding(es_tables::specs::Nodes::holds_of))]
fn chain(alloc: Global, blocks: u32) -> Result<Node, NoMemory>
    requires { blocks < 1000 }
    ensures { IfOk result (λ node. height node ≡ blocks + 1) }
{
    let span = Span { start: 0, end: 1 };
    let mut node = Node::new(alloc, kind::EMPTY_STATEMENT, span)?;
    for _ in 0..blocks {
        let mut block = Node::new(alloc, kind::BLOCK_STATEMENT, span)?;
        block.add(0, Some(node))?;
        node = block;
    }
    Ok(node)
}

/// A name at this span.
#[tactic(auto, unfolding(es_tables::specs::Nodes::holds_of, es_tables::specs::Nodes::field_name))]
fn identifier(alloc: Global, start: u32, end: u32, name: &str) -> Result<Node, NoMemory>
    ensures { IfOk result (λ node. height node ≡ 1) }
{
    let mut node = Node::new(alloc, kind::IDENTIFIER, Span { start, end })?;
    node.set(alloc, 0, Attribute::Words("earlier"))?;
    node.set(alloc, 0, Attribute::Words(name))?;
    Ok(node)
}

/// `[, b]` at the offset 5.
#[tactic(auto, unfolding(es_tables::specs::Nodes::holds_of))]
fn list_with_a_hole(alloc: Global) -> Result<Node, NoMemory>
    ensures { IfOk result (λ node. height node ≡ 2) }
{
    let mut list = Node::new(alloc, kind::ARRAY_EXPRESSION, Span { start: 5, end: 10 })?;
    list.add(0, None)?;
    list.add(0, Some(identifier(alloc, 8, 9, "b")?))?;
    Ok(list)
}

/// `f(a, [, b])`
#[tactic(auto, unfolding(es_tables::specs::Nodes::holds_of, es_tables::specs::Nodes::field_name))]
fn call(alloc: Global) -> Result<Node, NoMemory>
    ensures { IfOk result (λ node. height node ≡ 3) }
{
    let mut call = Node::new(alloc, kind::CALL_EXPRESSION, Span { start: 0, end: 11 })?;
    call.add(0, Some(identifier(alloc, 0, 1, "f")?))?;
    call.add(1, Some(identifier(alloc, 2, 3, "a")?))?;
    call.add(1, Some(list_with_a_hole(alloc)?))?;
    call.set(alloc, 2, Attribute::Flag(false))?;
    Ok(call)
}

/// `f(a, [, b]);`
#[tactic(auto, unfolding(es_tables::specs::Nodes::holds_of, es_tables::specs::Nodes::field_name))]
fn script(alloc: Global) -> Result<Node, NoMemory>
    ensures kind { IfOk result (λ root. (out-Shape root).kind ≡ PROGRAM) }
    ensures height { IfOk result (λ root. height root ≡ 5) }
{
    let span = Span { start: 0, end: 12 };
    let mut statement = Node::new(alloc, kind::EXPRESSION_STATEMENT, span)?;
    statement.add(0, Some(call(alloc)?))?;
    let mut root = Node::new(alloc, kind::PROGRAM, span)?;
    root.add(0, Some(statement))?;
    root.set(alloc, 1, Attribute::Words("script"))?;
    Ok(root)
}

// Kind, start and end, parent, and the first three children without holes: `f(a, [, b]);` by ESTree.
static NODES: [(
    u16,
    u32,
    u32,
    Option<u32>,
    Option<u32>,
    Option<u32>,
    Option<u32>,
); 7] = [
    (kind::PROGRAM, 0, 12, None, Some(1), None, None),
    (
        kind::EXPRESSION_STATEMENT,
        0,
        12,
        Some(0),
        Some(2),
        None,
        None,
    ),
    (
        kind::CALL_EXPRESSION,
        0,
        11,
        Some(1),
        Some(3),
        Some(4),
        Some(5),
    ),
    (kind::IDENTIFIER, 0, 1, Some(2), None, None, None),
    (kind::IDENTIFIER, 2, 3, Some(2), None, None, None),
    (kind::ARRAY_EXPRESSION, 5, 10, Some(2), Some(6), None, None),
    (kind::IDENTIFIER, 8, 9, Some(5), None, None, None),
];

/// The tree of `f(a, [, b]);`.
fn script_tree(alloc: Global) -> Result<Tree, NoMemory> {
    Tree::new(alloc, script(alloc)?)
}

#[test]
fn nodes_by_number(rt: HostRuntime) -> Result<(), Fail> {
    let tree = script_tree(rt.alloc())?;
    let mut number = 0;
    for row in NODES.iter() {
        let (kind, start, end, parent, first, second, third) = *row;
        if number < tree.count() {
            assert_eq!(rt; tree.kind(number), kind);
            assert_eq!(rt; tree.span(number), Span { start, end });
            assert_eq!(rt; tree.parent(number), parent);
            assert_eq!(rt; tree.child(number, 0), first);
            assert_eq!(rt; tree.child(number, 1), second);
            assert_eq!(rt; tree.child(number, 2), third);
            number += 1;
        }
    }
    assert_eq!(rt; (number, tree.count()), (7, 7));
    Ok(())
}

// Node, the field's code, index, and the child.
static PLACES: [(u32, u16, u32, Option<u32>); 14] = [
    // body
    (0, 0, 0, Some(1)),
    (0, 0, 1, None),
    // an attribute
    (0, 1, 0, None),
    // callee, arguments
    (2, 0, 0, Some(3)),
    (2, 0, 1, None),
    (2, 1, 0, Some(4)),
    (2, 1, 1, Some(5)),
    (2, 1, 2, None),
    (2, 2, 0, None),
    // a hole, an element
    (5, 0, 0, None),
    (5, 0, 1, Some(6)),
    (5, 0, 2, None),
    // no child fields
    (6, 0, 0, None),
    (6, 65535, 4294967295, None),
];

#[test]
fn children_by_field(rt: HostRuntime) -> Result<(), Fail> {
    let tree = script_tree(rt.alloc())?;
    let copy = tree.copy(rt.alloc())?;
    for place in PLACES.iter() {
        let (node, field, index, child) = *place;
        if node < tree.count() && node < copy.count() {
            assert_eq!(rt; tree.field(node, field, index), child);
            assert_eq!(rt; copy.field(node, field, index), child);
        }
    }
    Ok(())
}

// Node, the field's code, and what is said of it.
static ATTRIBUTES: [(u32, u16, Attribute<'static>); 11] = [
    // the length of body, sourceType
    (0, 0, Attribute::Length(1)),
    (0, 1, Attribute::Words("script")),
    (0, 2, Attribute::Absent),
    // expression is no list, directive is missing
    (1, 0, Attribute::Absent),
    (1, 1, Attribute::Absent),
    // callee, the length of arguments, optional
    (2, 0, Attribute::Absent),
    (2, 1, Attribute::Length(2)),
    (2, 2, Attribute::Flag(false)),
    // elements, of which one is a hole
    (5, 0, Attribute::Length(2)),
    // the name that was given last
    (6, 0, Attribute::Words("b")),
    (6, 65535, Attribute::Absent),
];

#[test]
fn attributes_by_field(rt: HostRuntime) -> Result<(), Fail> {
    let tree = script_tree(rt.alloc())?;
    let copy = tree.copy(rt.alloc())?;
    for case in ATTRIBUTES.iter() {
        let (node, field, attribute) = *case;
        if node < tree.count() && node < copy.count() {
            assert_eq!(rt; tree.attribute(node, field), attribute);
            assert_eq!(rt; copy.attribute(node, field), attribute);
        }
    }
    Ok(())
}

#[test]
#[tactic(auto, unfolding(es_tables::specs::Nodes::holds_of))]
fn a_thousand_levels(rt: HostRuntime) -> Result<(), Fail> {
    let mut root = Node::new(rt.alloc(), kind::PROGRAM, Span { start: 0, end: 1 })?;
    root.add(0, Some(chain(rt.alloc(), 998)?))?;
    assert_eq!(rt; root.height(), 1000);
    let tree = Tree::new(rt.alloc(), root)?;
    assert_eq!(rt; tree.count(), 1000);
    assert_eq!(rt; tree.parent(999), Some(998));
    assert_eq!(rt; tree.kind(999), kind::EMPTY_STATEMENT);
    Ok(())
}

// The names of ESTree.
static KINDS: [(u16, &str); 71] = [
    (kind::PROGRAM, "Program"),
    (kind::EXPRESSION_STATEMENT, "ExpressionStatement"),
    (kind::BLOCK_STATEMENT, "BlockStatement"),
    (kind::STATIC_BLOCK, "StaticBlock"),
    (kind::CLASS_BODY, "ClassBody"),
    (kind::EMPTY_STATEMENT, "EmptyStatement"),
    (kind::DEBUGGER_STATEMENT, "DebuggerStatement"),
    (kind::THIS_EXPRESSION, "ThisExpression"),
    (kind::SUPER, "Super"),
    (kind::WITH_STATEMENT, "WithStatement"),
    (kind::RETURN_STATEMENT, "ReturnStatement"),
    (kind::THROW_STATEMENT, "ThrowStatement"),
    (kind::LABELED_STATEMENT, "LabeledStatement"),
    (kind::BREAK_STATEMENT, "BreakStatement"),
    (kind::CONTINUE_STATEMENT, "ContinueStatement"),
    (kind::IF_STATEMENT, "IfStatement"),
    (kind::SWITCH_STATEMENT, "SwitchStatement"),
    (kind::SWITCH_CASE, "SwitchCase"),
    (kind::TRY_STATEMENT, "TryStatement"),
    (kind::CATCH_CLAUSE, "CatchClause"),
    (kind::WHILE_STATEMENT, "WhileStatement"),
    (kind::DO_WHILE_STATEMENT, "DoWhileStatement"),
    (kind::FOR_STATEMENT, "ForStatement"),
    (kind::FOR_IN_STATEMENT, "ForInStatement"),
    (kind::FOR_OF_STATEMENT, "ForOfStatement"),
    (kind::FUNCTION_DECLARATION, "FunctionDeclaration"),
    (kind::FUNCTION_EXPRESSION, "FunctionExpression"),
    (kind::ARROW_FUNCTION_EXPRESSION, "ArrowFunctionExpression"),
    (kind::VARIABLE_DECLARATION, "VariableDeclaration"),
    (kind::VARIABLE_DECLARATOR, "VariableDeclarator"),
    (kind::CLASS_DECLARATION, "ClassDeclaration"),
    (kind::CLASS_EXPRESSION, "ClassExpression"),
    (kind::METHOD_DEFINITION, "MethodDefinition"),
    (kind::PROPERTY_DEFINITION, "PropertyDefinition"),
    (kind::IDENTIFIER, "Identifier"),
    (kind::PRIVATE_IDENTIFIER, "PrivateIdentifier"),
    (kind::LITERAL, "Literal"),
    (kind::ARRAY_EXPRESSION, "ArrayExpression"),
    (kind::ARRAY_PATTERN, "ArrayPattern"),
    (kind::OBJECT_EXPRESSION, "ObjectExpression"),
    (kind::OBJECT_PATTERN, "ObjectPattern"),
    (kind::PROPERTY, "Property"),
    (kind::UNARY_EXPRESSION, "UnaryExpression"),
    (kind::UPDATE_EXPRESSION, "UpdateExpression"),
    (kind::BINARY_EXPRESSION, "BinaryExpression"),
    (kind::LOGICAL_EXPRESSION, "LogicalExpression"),
    (kind::ASSIGNMENT_EXPRESSION, "AssignmentExpression"),
    (kind::ASSIGNMENT_PATTERN, "AssignmentPattern"),
    (kind::MEMBER_EXPRESSION, "MemberExpression"),
    (kind::CALL_EXPRESSION, "CallExpression"),
    (kind::NEW_EXPRESSION, "NewExpression"),
    (kind::CONDITIONAL_EXPRESSION, "ConditionalExpression"),
    (kind::SEQUENCE_EXPRESSION, "SequenceExpression"),
    (kind::YIELD_EXPRESSION, "YieldExpression"),
    (kind::AWAIT_EXPRESSION, "AwaitExpression"),
    (kind::SPREAD_ELEMENT, "SpreadElement"),
    (kind::REST_ELEMENT, "RestElement"),
    (kind::TEMPLATE_LITERAL, "TemplateLiteral"),
    (kind::TEMPLATE_ELEMENT, "TemplateElement"),
    (kind::TAGGED_TEMPLATE_EXPRESSION, "TaggedTemplateExpression"),
    (kind::CHAIN_EXPRESSION, "ChainExpression"),
    (kind::IMPORT_EXPRESSION, "ImportExpression"),
    (kind::META_PROPERTY, "MetaProperty"),
    (kind::IMPORT_DECLARATION, "ImportDeclaration"),
    (kind::IMPORT_SPECIFIER, "ImportSpecifier"),
    (kind::IMPORT_DEFAULT_SPECIFIER, "ImportDefaultSpecifier"),
    (kind::IMPORT_NAMESPACE_SPECIFIER, "ImportNamespaceSpecifier"),
    (kind::EXPORT_NAMED_DECLARATION, "ExportNamedDeclaration"),
    (kind::EXPORT_SPECIFIER, "ExportSpecifier"),
    (kind::EXPORT_DEFAULT_DECLARATION, "ExportDefaultDeclaration"),
    (kind::EXPORT_ALL_DECLARATION, "ExportAllDeclaration"),
];

#[test]
fn each_kind_has_the_code_of_its_name(rt: HostRuntime) -> Result<(), Fail> {
    let kinds = node_kinds();
    for (code, name) in KINDS.iter() {
        assert!(rt;
            kinds.find(name).is_some_and(|row| row.code == *code),
            "{name}"
        );
    }
    Ok(())
}
