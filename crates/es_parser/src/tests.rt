ghost use Rattle.std.specs.Prelude.{◌≡◌, ◌<◌, length};

use crate::early_texts::EARLY_TEXTS;
use crate::expression_texts::EXPRESSION_TEXTS;
use crate::function_texts::FUNCTION_TEXTS;
use crate::limit_texts::LIMIT_TEXTS;
use crate::module_texts::MODULE_TEXTS;
use crate::statement_texts::STATEMENT_TEXTS;
use crate::{ParseFault, parse};
use es_tables::{Holds, child_field, count_child_fields, field_of, node_kinds};
use es_text::{NoMemory, Source, SourceType, Steps};
use es_tree::{Attribute, Tree, kind};
use std::alloc::Global;
use std::marker::Brand;
use std::sync::ledger::{Blank, Ledger};
use std::test::Fail;
use std::thread::join_mut;

// The tables of texts have a case a line: the kind of the source, a text, `->`, and its tree, or `Unread` or
// `Deep` and the place, or an early error and its span. A line that begins with `#` is a heading. In a text `␊`,
// `␍` and `␤` stand for LF, CR and U+2028, and `◇` for a byte order mark.
//
// A node is its kind, `:` and the texts of its attributes and the names of those that are true, and its fields in
// parentheses in the order of the walk: a node, `_` for none, or a list in brackets with `-` for a hole. Shorter
// are a name, `#` and a private name, a literal as it stands with `=` and its value, a part of a template between
// backticks, an expression statement that is no directive as `a;`, and a program as its items. After `spans` all
// nodes have their spans, and programs and statements are written in full.

/// The attributes that a node is written with, in the order of es_tables.
const ATTRIBUTES: &str =
    "sourceType directive kind operator static method shorthand computed async generator expression await optional prefix delegate tail";

fn kind_name(kind: u16) -> &'static str {
    match node_kinds().rows.iter().find(|row| row.code == kind) {
        Some(row) => row.text,
        None => "none",
    }
}

/// The attribute of this name, or `Absent` where there is none.
fn attribute<'a>(tree: &'a Tree, node: u32, name: &str) -> Attribute<'a>
    requires { node < length tree.now }
{
    match field_of(tree.kind(node), name) {
        Some(field) => tree.attribute(node, field),
        None => Attribute::Absent,
    }
}

fn words<'a>(tree: &'a Tree, node: u32, name: &str) -> Option<&'a str>
    requires { node < length tree.now }
{
    match attribute(tree, node, name) {
        Attribute::Words(words) => Some(words),
        _ => None,
    }
}

/// The kind of the node and its attributes.
fn told_attributes(alloc: Global, tree: &Tree, node: u32, full: bool) -> Result<String, NoMemory>
    requires { node < length tree.now }
{
    let mut told = String::from_str(alloc, kind_name(tree.kind(node)))?;
    for name in ATTRIBUTES.split(' ') {
        match attribute(tree, node, name) {
            Attribute::Words(words) => told.push_str(format!(in alloc; ":{words}")?.as_str())?,
            Attribute::Flag(true) => told.push_str(format!(in alloc; ":{name}")?.as_str())?,
            Attribute::Flag(false) if full => told.push_str(format!(in alloc;
                ":!{name}"
            )?.as_str())?,
            _ => {}
        }
    }
    Ok(told)
}

/// A child, where the nodes from the last one on are written already.
fn child_text<'a>(
    tree: &Tree,
    node: u32,
    field: u16,
    index: u32,
    made: &'a [String],
) -> Option<&'a str>
    requires { node < length tree.now }
{
    let child = tree.field(node, field, index)?;
    let behind = tree.count().checked_sub(child)?.checked_sub(1)?;
    Some(made.get(behind as usize)?.as_str())
}

/// The children and holes of a list.
fn told_list(
    alloc: Global,
    tree: &Tree,
    node: u32,
    field: u16,
    made: &[String],
) -> Result<String, NoMemory>
    requires { node < length tree.now }
{
    let mut told = String::new(alloc);
    if let Attribute::Length(length) = tree.attribute(node, field) {
        for index in 0..length {
            if index > 0 {
                told.push(' ')?;
            }
            told.push_str(child_text(tree, node, field, index, made).unwrap_or("-"))?;
        }
    }
    Ok(told)
}

/// No kind has more fields for children.
const MOST_FIELDS: u16 = 4;

/// The fields of a node.
fn told_fields(alloc: Global, tree: &Tree, node: u32, made: &[String]) -> Result<String, NoMemory>
    requires { node < length tree.now }
{
    let mut told = String::new(alloc);
    for field in 0..MOST_FIELDS {
        if let Some(holds) = child_field(tree.kind(node), field) {
            told.push(if field == 0 { '(' } else { ' ' })?;
            if holds == Holds::Many {
                let list = told_list(alloc, tree, node, field, made)?;
                let list = list.as_str();
                told.push_str(format!(in alloc; "[{list}]")?.as_str())?;
            } else {
                told.push_str(child_text(tree, node, field, 0, made).unwrap_or("_"))?;
            }
        }
    }
    if !told.is_empty() {
        told.push(')')?;
    }
    Ok(told)
}

fn told_literal(alloc: Global, tree: &Tree, node: u32) -> Result<String, NoMemory>
    requires { node < length tree.now }
{
    let raw = words(tree, node, "raw").unwrap_or("none");
    let mut told = String::from_str(alloc, raw)?;
    match attribute(tree, node, "value") {
        Attribute::Words(value) => told.push_str(format!(in alloc; "={value}")?.as_str())?,
        Attribute::Flag(true) => told.push_str("=true")?,
        Attribute::Flag(false) => told.push_str("=false")?,
        _ => {}
    }
    if words(tree, node, "regex") == Some(raw) {
        told.push_str(":regex")?;
    }
    if words(tree, node, "bigint") == Some(raw) {
        told.push_str(":bigint")?;
    }
    Ok(told)
}

/// A node that is one token, in short.
fn told_leaf(alloc: Global, tree: &Tree, node: u32) -> Result<Option<String>, NoMemory>
    requires { node < length tree.now }
{
    let name = words(tree, node, "name").unwrap_or("none");
    let raw = words(tree, node, "raw").unwrap_or("none");
    let told = match tree.kind(node) {
        kind::IDENTIFIER => String::from_str(alloc, name)?,
        kind::PRIVATE_IDENTIFIER => format!(in alloc; "#{name}")?,
        kind::LITERAL => told_literal(alloc, tree, node)?,
        kind::TEMPLATE_ELEMENT => {
            let tail = if attribute(tree, node, "tail") == Attribute::Flag(true) {
                ":tail"
            } else {
                ""
            };
            format!(in alloc; "`{raw}`{tail}")?
        }
        _ => return Ok(None),
    };
    Ok(Some(told))
}

fn told_node(
    alloc: Global,
    tree: &Tree,
    node: u32,
    full: bool,
    made: &[String],
) -> Result<String, NoMemory>
    requires { node < length tree.now }
{
    if let Some(told) = told_leaf(alloc, tree, node)? {
        return Ok(told);
    }
    let kind = tree.kind(node);
    if !full && kind == kind::PROGRAM {
        return told_list(alloc, tree, node, 0, made);
    }
    if !full && kind == kind::EXPRESSION_STATEMENT && words(tree, node, "directive").is_none() {
        let expression = child_text(tree, node, 0, 0, made).unwrap_or("_");
        return Ok(format!(in alloc; "{expression};")?);
    }
    let mut told = told_attributes(alloc, tree, node, full)?;
    told.push_str(told_fields(alloc, tree, node, made)?.as_str())?;
    Ok(told)
}

/// The tree, written from the last node to the first.
fn told_tree(alloc: Global, tree: &Tree, full: bool) -> Result<String, NoMemory> {
    let mut made = Vec::new(alloc);
    for behind in 0..tree.count() {
        let node = tree.count() - 1 - behind;
        let mut told = told_node(alloc, tree, node, full, made.as_slice())?;
        if full {
            let span = tree.span(node);
            let (start, end) = (span.start, span.end);
            told.push_str(format!(in alloc; "@{start}-{end}")?.as_str())?;
        }
        made.push(told)?;
    }
    Ok(made.pop().unwrap_or(String::new(alloc)))
}

/// What parsing the text gives, as the tables have it.
fn told<L: Ledger>(
    alloc: Global,
    source: &Source,
    source_type: SourceType,
    form: Form,
    steps: &mut Steps<L>,
) -> Result<String, NoMemory> {
    match parse(alloc, source, source_type, steps) {
        Ok(parsed) => match form {
            Form::Whether => Ok(String::from_str(alloc, "reads")?),
            Form::Short => told_tree(alloc, &parsed.tree, false),
            Form::Full => told_tree(alloc, &parsed.tree, true),
            Form::Count => {
                let count = parsed.tree.count();
                Ok(format!(in alloc; "Nodes {count}")?)
            }
        },
        Err(ParseFault::Unread { at }) => Ok(format!(in alloc; "Unread {at}")?),
        Err(ParseFault::Deep { at }) => Ok(format!(in alloc; "Deep {at}")?),
        Err(ParseFault::Early { code, span }) => {
            let (start, end) = (span.start, span.end);
            Ok(format!(in alloc; "E{code} {start}-{end}")?)
        }
        Err(ParseFault::NoMemory) => Err(NoMemory),
    }
}

/// How much of a tree is told.
#[derive(Clone, Copy, Debug, PartialEq, Eq)]
enum Form {
    Whether,
    Count,
    Short,
    Full,
}

/// The character that a sign of the tables stands for.
fn meant(c: char) -> char {
    match c {
        '␊' => '\n',
        '␍' => '\r',
        '␤' => '\u{2028}',
        '◇' => '\u{feff}',
        c => c,
    }
}

/// The sign of the tables for a character.
fn sign(c: char) -> char {
    match c {
        '\n' => '␊',
        '\r' => '␍',
        '\u{2028}' => '␤',
        c => c,
    }
}

fn text_of(alloc: Global, case: &str) -> Result<String, NoMemory> {
    let mut text = String::new(alloc);
    for c in case.chars() {
        text.push(meant(c))?;
    }
    Ok(text)
}

fn signs_of(alloc: Global, told: &str) -> Result<String, NoMemory> {
    let mut text = String::new(alloc);
    for c in told.chars() {
        text.push(sign(c))?;
    }
    Ok(text)
}

fn source_type_of(word: &str) -> SourceType {
    match word {
        "commonjs" => SourceType::Commonjs,
        "script" => SourceType::Script,
        _ => SourceType::Module,
    }
}

/// What the case of a line gives, where `want` is expected.
fn told_case<L: Ledger>(
    alloc: Global,
    case: &str,
    want: &str,
    steps: &mut Steps<L>,
) -> Result<String, Fail> {
    let (form, case) = match case.strip_prefix("spans ") {
        Some(rest) => (Form::Full, rest),
        None => (
            if want == "reads" {
                Form::Whether
            } else {
                Form::Short
            },
            case,
        ),
    };
    let (word, text) = case.split_once(' ').unwrap_or((case, ""));
    let text = text_of(alloc, text)?;
    let source = Source::new(alloc, text.as_str().as_bytes())?;
    let told = told(alloc, &source, source_type_of(word), form, steps)?;
    Ok(signs_of(alloc, told.as_str())?)
}

/// A table of texts.
#[derive(Clone, Copy, Debug, PartialEq, Eq)]
enum Table {
    Expressions,
    Statements,
    Functions,
    Modules,
    EarlyErrors,
}

fn texts_of(table: Table) -> &'static str {
    match table {
        Table::Expressions => EXPRESSION_TEXTS,
        Table::Statements => STATEMENT_TEXTS,
        Table::Functions => FUNCTION_TEXTS,
        Table::Modules => MODULE_TEXTS,
        Table::EarlyErrors => EARLY_TEXTS,
    }
}

/// The first case of the table that is parsed otherwise, with what it gives.
fn wrong_case<L: Ledger>(alloc: Global, table: Table, blank: Blank) -> Result<Option<String>, Fail>
    requires name { blank.name ≡ L.name }
    requires parts { blank.parts ≡ L.parts }
    requires some { 0 < blank.parts }
{
    let mut steps = Steps::<L>::new(blank);
    for line in texts_of(table).split('\n') {
        if !line.starts_with("# ") {
            let (case, want) = line.split_once(" ->").unwrap_or((line, ""));
            let want = want.trim_start();
            let told = told_case(alloc, case, want, &mut steps)?;
            if told.as_str() != want {
                return Ok(Some(format!(in alloc; "{line}: {told}")?));
            }
        }
    }
    Ok(None)
}

#[test]
fn expressions(rt: HostRuntime) -> Result<(), Fail> {
    let wrong = wrong_case::<Brand>(rt.alloc(), Table::Expressions, Blank::new(1))?;
    assert_eq!(rt; wrong.as_deref(), None);
    Ok(())
}

#[test]
fn statements(rt: HostRuntime) -> Result<(), Fail> {
    let wrong = wrong_case::<Brand>(rt.alloc(), Table::Statements, Blank::new(1))?;
    assert_eq!(rt; wrong.as_deref(), None);
    Ok(())
}

#[test]
fn functions(rt: HostRuntime) -> Result<(), Fail> {
    let wrong = wrong_case::<Brand>(rt.alloc(), Table::Functions, Blank::new(1))?;
    assert_eq!(rt; wrong.as_deref(), None);
    Ok(())
}

#[test]
fn modules(rt: HostRuntime) -> Result<(), Fail> {
    let wrong = wrong_case::<Brand>(rt.alloc(), Table::Modules, Blank::new(1))?;
    assert_eq!(rt; wrong.as_deref(), None);
    Ok(())
}

#[test]
fn early_errors(rt: HostRuntime) -> Result<(), Fail> {
    let wrong = wrong_case::<Brand>(rt.alloc(), Table::EarlyErrors, Blank::new(1))?;
    assert_eq!(rt; wrong.as_deref(), None);
    Ok(())
}

// A file as people write it; acorn counts its nodes (a specifier with one name as two).
static STORE: &str = r#"import { readFile } from 'node:fs/promises';
/* global metrics */

export class Store {
  #items = new Map();

  async load(path) {
    const text = await readFile(path, 'utf8');
    const rows = JSON.parse(text)?.rows ?? [];
    for (const row of rows) {
      if (row.id == null) continue;
      this.#items.set(row.id, row);
    }
    metrics.count('load', rows.length);
    // eslint-disable-next-line no-debugger -- kept for support
    debugger;
    return this.#items.size
  }

  get first() {
    for (const item of this.#items.values()) {
      return item;
    }
  }
}
"#;

const STORE_NODES: u32 = 97;

/// Whether the file has so many nodes, and a copy of its tree is told as the tree is.
fn is_copied<L: Ledger>(alloc: Global, blank: Blank) -> Result<bool, Fail>
    requires name { blank.name ≡ L.name }
    requires parts { blank.parts ≡ L.parts }
    requires some { 0 < blank.parts }
{
    let mut steps = Steps::<L>::new(blank);
    let source = Source::new(alloc, STORE.as_bytes())?;
    let Ok(parsed) = parse(alloc, &source, SourceType::Module, &mut steps) else {
        return Ok(false);
    };
    let copy = parsed.tree.copy(alloc)?;
    let told = told_tree(alloc, &parsed.tree, true)?;
    let same = told_tree(alloc, &copy, true)?.as_str() == told.as_str();
    Ok(same && copy.count() == STORE_NODES)
}

#[test]
fn the_copy_of_a_tree(rt: HostRuntime) -> Result<(), Fail> {
    assert!(rt; is_copied::<Brand>(rt.alloc(), Blank::new(1))?);
    Ok(())
}

/// The word of a table of limits: `_` is nothing, and `␠` a blank.
fn push_word(text: &mut String, word: &str) -> Result<(), NoMemory> {
    if word != "_" {
        for c in word.chars() {
            text.push(if c == '␠' { ' ' } else { c })?;
        }
    }
    Ok(())
}

fn push_words(text: &mut String, word: &str, count: u32) -> Result<(), NoMemory> {
    for _ in 0..count {
        push_word(text, word)?;
    }
    Ok(())
}

/// The text of a case: a start, how often the next word stands before a middle and the one behind it after it, and
/// an end.
fn long_text(alloc: Global, case: &str) -> Result<String, NoMemory> {
    let mut text = String::new(alloc);
    let mut words = case.split(' ');
    push_word(&mut text, words.next().unwrap_or("_"))?;
    let count = words.next().unwrap_or("0").parse::<u32>().unwrap_or(0);
    push_words(&mut text, words.next().unwrap_or("_"), count)?;
    push_word(&mut text, words.next().unwrap_or("_"))?;
    push_words(&mut text, words.next().unwrap_or("_"), count)?;
    push_word(&mut text, words.next().unwrap_or("_"))?;
    Ok(text)
}

/// The first case of the table of limits that is parsed otherwise, with what it gives.
fn wrong_limit<L: Ledger>(alloc: Global, blank: Blank) -> Result<Option<String>, NoMemory>
    requires name { blank.name ≡ L.name }
    requires parts { blank.parts ≡ L.parts }
    requires some { 0 < blank.parts }
{
    let mut steps = Steps::<L>::new(blank);
    for line in LIMIT_TEXTS.split('\n') {
        if !line.starts_with("# ") {
            let (case, want) = line.split_once(" -> ").unwrap_or((line, ""));
            let text = long_text(alloc, case)?;
            let source = Source::new(alloc, text.as_str().as_bytes()).map_err(|_| NoMemory)?;
            let told = told(alloc, &source, SourceType::Script, Form::Count, &mut steps)?;
            if told.as_str() != want {
                return Ok(Some(format!(in alloc; "{line}: {told}")?));
            }
        }
    }
    Ok(None)
}

/// The same, for a thread of its own.
fn wrong_limit_here(alloc: Global) -> Result<Option<String>, NoMemory> {
    wrong_limit::<Brand>(alloc, Blank::new(1))
}

#[test]
fn limits(rt: HostRuntime) -> Result<(), Fail> {
    let wrong = wrong_limit_here(rt.alloc())?;
    assert_eq!(rt; wrong.as_deref(), None);
    Ok(())
}

/// A thread that std starts has room enough for the deepest text.
#[test]
fn limits_in_another_thread(rt: HostRuntime) -> Result<(), Fail> {
    let alloc = rt.alloc();
    let mut one = Ok(None);
    let mut other = Ok(None);
    join_mut(
        &rt,
        &mut || one = wrong_limit_here(alloc),
        &mut || other = wrong_limit_here(alloc),
    );
    assert_eq!(rt; one?.as_deref(), None);
    assert_eq!(rt; other?.as_deref(), None);
    Ok(())
}
