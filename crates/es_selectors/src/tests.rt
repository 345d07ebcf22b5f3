use crate::spelling_texts::SPELLING_TEXTS;
use crate::tree_texts::TREE_TEXTS;
use crate::{
    Atom, Chain, Combinator, Comparison, Condition, Group, Link, Selector, SelectorFault, Spelling,
    read,
};
use es_tables::{field_of, node_kinds};
use es_text::{NoMemory, Span, Txt};
use es_tree::kind::{IDENTIFIER, LITERAL, PROGRAM};
use es_tree::{AttributeValue, Node, Tree};
use std::alloc::Global;
use std::test::Fail;

// In the texts of both tables `␊` stands for LF, `␉` for a tab, `␠` for a blank at an end or in a value, and `⍽` for
// a no-break space.

/// The character that a sign of the tables stands for.
fn meant(c: char) -> char {
    match c {
        '␊' => '\n',
        '␉' => '\t',
        '␠' => ' ',
        '⍽' => '\u{a0}',
        c => c,
    }
}

fn text_of(alloc: Global, case: &str) -> Result<String, NoMemory> {
    let mut text = String::new(alloc);
    for c in case.chars() {
        text.push(meant(c))?;
    }
    Ok(text)
}

// Readings are told as this: the atoms of a compound with `&` between them, a kind by its name or `nothing`, an
// attribute as `[a.b = «v»]`, `.f` as `in f`, `.f.g` as `in f/g`, a group by its word, S of `:not(S)` and its like in
// parentheses, a position as `nth 2` or `nth-last 2`; ` / ` for a descendant, else the combinators; chains with ` | `
// between them; and `exit` in front.

/// A part of a selector that is still to be told.
#[derive(Clone, Copy)]
enum Part<'a> {
    Word(&'static str),
    Chains(&'a [Chain<Atom>]),
    Links(&'a [Link<Atom>]),
    Atoms(&'a [Atom]),
}

/// No selector of the table has as many parts.
const MOST_PARTS: u32 = 1000;

fn combinator_text(combinator: Combinator) -> &'static str {
    match combinator {
        Combinator::Descendant => " / ",
        Combinator::Child => " > ",
        Combinator::Next => " + ",
        Combinator::Later => " ~ ",
    }
}

fn comparison_text(comparison: Comparison) -> &'static str {
    match comparison {
        Comparison::Less => "<",
        Comparison::LessOrEqual => "<=",
        Comparison::Greater => ">",
        Comparison::GreaterOrEqual => ">=",
    }
}

fn group_text(group: Group) -> &'static str {
    match group {
        Group::Statement => "statement",
        Group::Declaration => "declaration",
        Group::Expression => "expression",
        Group::Pattern => "pattern",
        Group::Function => "function",
    }
}

fn kind_text(kind: Option<u16>) -> &'static str {
    match node_kinds().rows.iter().find(|row| Some(row.code) == kind) {
        Some(row) => row.text,
        None => "nothing",
    }
}

fn told_names(alloc: Global, names: &[Txt]) -> Result<String, NoMemory> {
    let mut told = String::new(alloc);
    for name in names {
        if !told.is_empty() {
            told.push('.')?;
        }
        told.push_str(name.as_str())?;
    }
    Ok(told)
}

fn told_condition(alloc: Global, condition: &Condition) -> Result<String, NoMemory> {
    let told = match condition {
        Condition::IsThere => String::new(alloc),
        Condition::Is(text) => {
            let text = text.as_str();
            format!(in alloc; " = «{text}»")?
        }
        Condition::IsNot(text) => {
            let text = text.as_str();
            format!(in alloc; " != «{text}»")?
        }
        Condition::Compares(comparison, number) => {
            let comparison = comparison_text(*comparison);
            format!(in alloc; " {comparison} {number}")?
        }
    };
    Ok(told)
}

/// The atom, or what stands before the chains that it holds.
fn told_atom(alloc: Global, atom: &Atom) -> Result<String, NoMemory> {
    let told = match atom {
        Atom::Any => String::from_str(alloc, "*")?,
        Atom::Kind(kind) => String::from_str(alloc, kind_text(*kind))?,
        Atom::Attribute(names, condition) => {
            let names = told_names(alloc, names.as_slice())?;
            let condition = told_condition(alloc, condition)?;
            let (names, condition) = (names.as_str(), condition.as_str());
            format!(in alloc; "[{names}{condition}]")?
        }
        Atom::Field(name) => {
            let name = name.as_str();
            format!(in alloc; "in {name}")?
        }
        Atom::FieldOf(outer, inner) => {
            let (outer, inner) = (outer.as_str(), inner.as_str());
            format!(in alloc; "in {outer}/{inner}")?
        }
        Atom::Group(group) => String::from_str(alloc, group_text(*group))?,
        Atom::Not(_) => String::from_str(alloc, "not(")?,
        Atom::Is(_) => String::from_str(alloc, "is(")?,
        Atom::Has(_) => String::from_str(alloc, "has(")?,
        Atom::NthChild(number) => format!(in alloc; "nth {number}")?,
        Atom::NthLastChild(number) => format!(in alloc; "nth-last {number}")?,
    };
    Ok(told)
}

/// The chains that the atom holds.
fn inner_chains(atom: &Atom) -> Option<&[Chain<Atom>]> {
    match atom {
        Atom::Not(chains) | Atom::Is(chains) | Atom::Has(chains) => Some(chains.as_slice()),
        _ => None,
    }
}

/// Tells the first of what the part has, and puts the rest in front of what is still to be told.
fn tell<'a>(
    alloc: Global,
    part: Part<'a>,
    parts: &mut Vec<Part<'a>>,
    told: &mut String,
) -> Result<(), NoMemory> {
    match part {
        Part::Word(word) => told.push_str(word)?,
        Part::Chains([chain, rest @ ..]) => {
            if !rest.is_empty() {
                parts.push(Part::Chains(rest))?;
                parts.push(Part::Word(" | "))?;
            }
            parts.push(Part::Links(chain.links.as_slice()))?;
            parts.push(Part::Atoms(chain.first.as_slice()))?;
        }
        Part::Links([link, rest @ ..]) => {
            parts.push(Part::Links(rest))?;
            parts.push(Part::Atoms(link.compound.as_slice()))?;
            told.push_str(combinator_text(link.combinator))?;
        }
        Part::Atoms([atom, rest @ ..]) => {
            if !rest.is_empty() {
                parts.push(Part::Atoms(rest))?;
                parts.push(Part::Word("&"))?;
            }
            told.push_str(told_atom(alloc, atom)?.as_str())?;
            if let Some(chains) = inner_chains(atom) {
                parts.push(Part::Word(")"))?;
                parts.push(Part::Chains(chains))?;
            }
        }
        Part::Chains([]) | Part::Links([]) | Part::Atoms([]) => {}
    }
    Ok(())
}

fn told_spelling(alloc: Global, spelling: &Spelling) -> Result<String, NoMemory> {
    let mut told = String::new(alloc);
    if spelling.exit {
        told.push_str("exit ")?;
    }
    let mut parts = Vec::new(alloc);
    parts.push(Part::Chains(spelling.chains.as_slice()))?;
    for _ in 0..MOST_PARTS {
        match parts.pop() {
            Some(part) => tell(alloc, part, &mut parts, &mut told)?,
            None => return Ok(told),
        }
    }
    Ok(told)
}

fn told_reading(alloc: Global, case: &str) -> Result<String, NoMemory> {
    let text = text_of(alloc, case)?;
    match read(alloc, text.as_str()) {
        Ok(selector) => told_spelling(alloc, selector.spelling()),
        Err(SelectorFault::Unread) => Ok(String::from_str(alloc, "Unread")?),
        Err(SelectorFault::NoMemory) => Err(NoMemory),
    }
}

/// The first case that is read otherwise, with its reading.
fn wrong_reading(alloc: Global) -> Result<Option<String>, NoMemory> {
    for line in SPELLING_TEXTS.split('\n') {
        if !line.starts_with("# ") {
            let (case, want) = line.split_once(" -> ").unwrap_or((line, ""));
            let told = told_reading(alloc, case)?;
            if told.as_str() != text_of(alloc, want)?.as_str() {
                return Ok(Some(format!(in alloc; "{line}: {told}")?));
            }
        }
    }
    Ok(None)
}

#[test]
fn readings(rt: HostRuntime) -> Result<(), Fail> {
    let wrong = wrong_reading(rt.alloc())?;
    assert_eq!(rt; wrong.as_deref(), None);
    Ok(())
}

/// A node that isn't finished, and the field of its parent that it is for.
#[derive(Drop)]
struct Open {
    node: Node,
    field: u16,
}

/// The code of the field with this name of an open node's kind.
fn field_in(above: &Node, name: Option<&str>) -> u16 {
    match name {
        Some(name) => field_of(above.as_shape().kind, name).unwrap_or(0),
        None => 0,
    }
}

/// The code of the kind with this name.
fn kind_named(name: &str) -> u16 {
    let kinds = node_kinds();
    kinds.find(name).map_or(0, |row| row.code)
}

fn value_of(alloc: Global, word: &str) -> Result<AttributeValue, NoMemory> {
    match word {
        "yes" => Ok(AttributeValue::Flag(true)),
        "no" => Ok(AttributeValue::Flag(false)),
        _ => Ok(AttributeValue::Words(Txt::new(alloc, text_of(alloc, word)?.as_str())?)),
    }
}

/// Puts the last node into the one before it.
fn close(open: &mut Vec<Open>) -> Result<(), NoMemory> {
    let Some(last) = open.pop() else {
        return Ok(());
    };
    let Open { node, field } = last;
    if let Some(above) = open.last_mut() {
        if node.height() <= 1000 {
            above.node.put(field, Some(node))?;
        }
    }
    Ok(())
}

/// How many dots the line has: how many nodes are around its node.
fn levels(line: &str) -> usize {
    line.split(' ').filter(|word| *word == ".").count()
}

/// Reads the line of a node or hole, behind the nodes that are open, of which those that it isn't in are closed.
fn read_line(alloc: Global, open: &mut Vec<Open>, line: &str) -> Result<(), NoMemory> {
    for _ in levels(line)..open.len() {
        close(open)?;
    }
    let mut words = line.split(' ').skip(1).filter(|word| *word != ".");
    let field = match open.last() {
        Some(above) => field_in(&above.node, words.next()),
        None => 0,
    };
    let Some(kind) = words.next() else {
        if let Some(above) = open.last_mut() {
            above.node.put(field, None)?;
        }
        return Ok(());
    };
    let mut node = Node::bare(alloc, kind_named(kind), Span { start: 0, end: 1 })?;
    while let Some(name) = words.next() {
        let attribute = field_in(&node, Some(name));
        node.give(
            alloc,
            attribute,
            value_of(alloc, words.next().unwrap_or(""))?,
        )?;
    }
    open.push(Open { node, field })?;
    Ok(())
}

/// The tree of these lines.
fn tree_of(alloc: Global, lines: &str) -> Result<Tree, NoMemory> {
    let mut open: Vec<Open> = Vec::new(alloc);
    for line in lines.split('\n') {
        read_line(alloc, &mut open, line)?;
    }
    for _ in 1..open.len() {
        close(&mut open)?;
    }
    let Some(last) = open.pop() else {
        return Err(NoMemory);
    };
    let root = last.node;
    let whole = root.as_shape().kind == PROGRAM && root.height() <= 1000;
    if !whole {
        return Err(NoMemory);
    }
    Tree::new(alloc, root)
}

/// The numbers of the nodes that the selector matches.
fn matched(alloc: Global, tree: &Tree, selector: &Selector) -> Result<String, NoMemory> {
    let mut told = String::new(alloc);
    for node in 0..tree.count() {
        if selector.matches(tree, node) {
            told.push_str(format!(in alloc; " {node}")?.as_str())?;
        }
    }
    Ok(told)
}

/// The first case of the tree that matches otherwise, with what it matches.
fn wrong_in_tree(alloc: Global, tree: &Tree, cases: &str) -> Result<Option<String>, NoMemory> {
    for line in cases.split('\n') {
        let (case, want) = line.split_once(" ->").unwrap_or((line, ""));
        let text = text_of(alloc, case)?;
        let told = match read(alloc, text.as_str()) {
            Ok(selector) => matched(alloc, tree, &selector)?,
            Err(_) => String::from_str(alloc, " Unread")?,
        };
        if told.as_str() != want {
            return Ok(Some(format!(in alloc; "{line}:{told}")?));
        }
    }
    Ok(None)
}

/// The first case of the table that matches otherwise, with what it matches.
fn wrong_match(alloc: Global) -> Result<Option<String>, NoMemory> {
    for block in TREE_TEXTS.split('§').skip(1) {
        let (_, block) = block.split_once('\n').unwrap_or((block, ""));
        let (lines, cases) = block.split_once("\n?\n").unwrap_or((block, ""));
        let tree = tree_of(alloc, lines)?;
        let wrong = wrong_in_tree(alloc, &tree, cases.trim_end())?;
        if wrong.is_some() {
            return Ok(wrong);
        }
    }
    Ok(None)
}

#[test]
fn matches(rt: HostRuntime) -> Result<(), Fail> {
    let wrong = wrong_match(rt.alloc())?;
    assert_eq!(rt; wrong.as_deref(), None);
    Ok(())
}

/// Whether the selector of the text hears the end of nodes, and whether it may match an Identifier and a Literal.
fn told_interest(alloc: Global, text: &str) -> Result<(bool, bool, bool), SelectorFault> {
    let selector = read(alloc, text)?;
    Ok((
        selector.exit(),
        selector.by_kind(IDENTIFIER),
        selector.by_kind(LITERAL),
    ))
}

#[test]
fn interest(rt: HostRuntime) -> Result<(), Fail> {
    let alloc = rt.alloc();
    let told = told_interest(alloc, "Identifier:exit");
    assert_eq!(rt; told, Ok((true, true, false)));
    let told = told_interest(alloc, "Literal > *, Program > identifier.body");
    assert_eq!(rt; told, Ok((false, true, true)));
    let told = told_interest(alloc, "Foo, Identifier Literal, Program");
    assert_eq!(rt; told, Ok((false, false, true)));
    let told = told_interest(alloc, "[a");
    assert_eq!(rt; told, Err(SelectorFault::Unread));
    Ok(())
}
