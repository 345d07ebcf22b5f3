use crate::early;
use es_tables::{field_of, node_kinds};
use es_text::{NoMemory, SourceType, Span, Txt};
use es_tree::kind::PROGRAM;
use es_tree::{AttributeValue, Node, Tree};
use std::alloc::Global;
use std::process::Abort;
use std::test::Fail;

/// A text, for the reader alone; the nodes of its tree below the Program, in the order of the walk;
/// and the code and the start of its first early error, or zeros.
///
/// A node is how many nodes are around it, the field of its parent in which it stands and its kind,
/// then, where they matter, its start and an attribute with its value, where `+` is `true`.
struct Case(&'static str, &'static str, u8, u32);

/// A node that isn't finished, and the field of its parent that it is for.
#[derive(Drop)]
struct Open {
    node: Node,
    field: u16,
}

fn number(word: Option<&str>) -> u32 {
    match word {
        Some(word) => word.parse().unwrap_or(0),
        None => 0,
    }
}

/// The code of the field with this name of an open node's kind.
fn field_in(above: &Node, name: Option<&str>) -> u16 {
    match name {
        Some(name) => field_of(above.as_shape().kind, name).unwrap_or(0),
        None => 0,
    }
}

/// The code of the kind with this name.
fn kind_named(name: Option<&str>) -> u16 {
    let kinds = node_kinds();
    match name {
        Some(name) => kinds.find(name).map_or(0, |row| row.code),
        None => 0,
    }
}

fn value_of(alloc: Global, word: &str) -> Result<AttributeValue, NoMemory> {
    if word == "+" {
        Ok(AttributeValue::Flag(true))
    } else {
        Ok(AttributeValue::Words(Txt::new(alloc, word)?))
    }
}

/// Puts the last node into the one before it.
fn close(open: &mut Vec<Open>) -> Result<(), NoMemory> {
    let Some(last) = open.pop() else {
        return Ok(());
    };
    let Open { node, field } = last;
    if let Some(above) = open.last_mut() {
        if node.height() <= 1000 {
            above.node.put(field, Some(node))?;
        }
    }
    Ok(())
}

/// Reads a node, behind the nodes that are open, of which those that it isn't in are closed.
fn read(alloc: Global, open: &mut Vec<Open>, text: &str) -> Result<(), NoMemory> {
    let mut words = text.split_whitespace();
    for _ in number(words.next()) as usize..open.len() {
        close(open)?;
    }
    let field = match open.last() {
        Some(above) => field_in(&above.node, words.next()),
        None => 0,
    };
    let kind = kind_named(words.next());
    let start = number(words.next());
    let end = start.saturating_add(1);
    let mut node = Node::bare(alloc, kind, Span { start, end })?;
    let attribute = field_in(&node, words.next());
    if let Some(word) = words.next() {
        node.give(alloc, attribute, value_of(alloc, word)?)?;
    }
    open.push(Open { node, field })?;
    Ok(())
}

/// The Program with these nodes below it.
fn program(alloc: Global, nodes: &str) -> Result<Node, NoMemory> {
    let mut open: Vec<Open> = Vec::new(alloc);
    let node = Node::bare(alloc, PROGRAM, Span { start: 0, end: 99 })?;
    open.push(Open { node, field: 0 })?;
    for text in nodes.split(';') {
        read(alloc, &mut open, text)?;
    }
    for _ in 1..open.len() {
        close(&mut open)?;
    }
    match open.pop() {
        Some(last) => Ok(last.node),
        None => Err(NoMemory),
    }
}

/// The code and the start of the first early error of a script, or zeros.
fn first(alloc: Global, nodes: &str) -> Result<(u8, u32), NoMemory> {
    let root = program(alloc, nodes)?;
    let whole = root.as_shape().kind == PROGRAM && root.height() <= 1000;
    if !whole {
        return Err(NoMemory);
    }
    let tree = Tree::new(alloc, root)?;
    match early(alloc, &tree, SourceType::Script)? {
        Some(early) => Ok((early.code, early.span.start)),
        None => Ok((0, 0)),
    }
}

/// Whether the first early error of each case is the one that it says.
fn check(rt: &impl Abort, alloc: Global, cases: &[Case]) -> Result<(), Fail> {
    for case in cases {
        let Case(text, nodes, code, start) = case;
        let found = first(alloc, nodes)?;
        assert_eq!(rt; found, (*code, *start), "{text}");
    }
    Ok(())
}

// One error of each code; the texts of many more are parsed by the crate that reads them. The last trees have no
// text: what counts there is the place of a node, not when the walk comes to it, and then the code.
static FIRST: [Case; 11] = [
    Case("return", "1 body ReturnStatement 1", 1, 1),
    Case("break", "1 body BreakStatement 1", 2, 1),
    Case(
        "switch (x) { case y: continue }",
        "1 body SwitchStatement; 2 discriminant Identifier 0 name x; 2 cases SwitchCase; \
            3 test Identifier 0 name y; 3 consequent ContinueStatement 1",
        3,
        1,
    ),
    Case(
        "a: a: ;",
        "1 body LabeledStatement; 2 label Identifier 1 name a; 2 body LabeledStatement; \
            3 label Identifier 2 name a; 3 body EmptyStatement",
        4,
        2,
    ),
    Case(
        "let a; let a;",
        "1 body VariableDeclaration 0 kind let; 2 declarations VariableDeclarator; \
            3 id Identifier 1 name a; 1 body VariableDeclaration 0 kind let; \
            2 declarations VariableDeclarator; 3 id Identifier 2 name a",
        5,
        2,
    ),
    Case(
        "class { #b; m() { this.#a } }",
        "1 body ClassDeclaration; 2 body ClassBody; 3 body PropertyDefinition; \
            4 key PrivateIdentifier 1 name b; 3 body MethodDefinition 0 kind method; \
            4 key Identifier 0 name m; 4 value FunctionExpression; 5 body BlockStatement; \
            6 body ExpressionStatement; 7 expression MemberExpression; 8 object ThisExpression; \
            8 property PrivateIdentifier 2 name a",
        6,
        2,
    ),
    Case(
        "super.x",
        "1 body ExpressionStatement; 2 expression MemberExpression; 3 object Super 1; \
            3 property Identifier 0 name x",
        7,
        1,
    ),
    Case(
        "switch (x) { default: case y: default: }",
        "1 body SwitchStatement; 2 discriminant Identifier 0 name x; 2 cases SwitchCase 1; \
            2 cases SwitchCase 2; 3 test Identifier 0 name y; 2 cases SwitchCase 3",
        8,
        3,
    ),
    Case(
        "class extends y { constructor() { () => super() } }",
        "1 body ClassDeclaration; 2 superClass Identifier 0 name y; 2 body ClassBody; \
            3 body MethodDefinition 0 kind constructor; 4 key Identifier 0 name m; \
            4 value FunctionExpression; 5 body BlockStatement; 6 body ExpressionStatement; \
            7 expression ArrowFunctionExpression; 8 body CallExpression; 9 callee Super 1",
        0,
        0,
    ),
    Case(
        "a return that the walk takes last, at the smallest offset",
        "1 body BreakStatement 3; 1 body ContinueStatement 2; 1 body ReturnStatement 1",
        1,
        1,
    ),
    Case(
        "a break and a return at one place",
        "1 body BreakStatement 1; 1 body ReturnStatement 1",
        1,
        1,
    ),
];

#[test]
fn the_first_error(rt: HostRuntime) -> Result<(), Fail> {
    check(&rt, rt.alloc(), &FIRST)
}
