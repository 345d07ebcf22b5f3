ghost use Rattle.std.specs.Prelude.{◌≡◌, ◌<◌, length};

use es_parser::parse;
use es_scopes::{DeclarationKind, Reference, Scopes, Variable, analyse};
use es_text::{NoMemory, Source, SourceType, Steps};
use es_tree::field::NAME;
use es_tree::{Tree, words};
use std::alloc::Global;
use std::marker::Brand;
use std::sync::ledger::{Blank, Ledger};
use std::test::Fail;

// The table of texts has a case a line: the kind of the source, a text, `->`, and three lists behind bars. The first
// has for each node, in the order of the walk, the scope that holds it, in the digits of base 36. The second has the
// variables: the scope, the kind, the name, and the offsets of the Identifiers that declare it. The third has the
// references: the offset, the name, `r` where it is read and `w` where it is written, and the index of its variable,
// or `-` where it has none. A line that begins with `#` is a heading.
//
// Variables and references are those of eslint-scope 7.1, but for three cases: a parameter's default sees a `var` of
// the body, since a function has one scope; a heritage sees the name that the class has inside (ECMA-262, 15.7.14);
// and a default in the parameter of a `catch` is no reference. The scopes of nodes were read off acorn's trees.
const TEXTS: &str = r##"# declarations of variables
script var a -> 0000 | 0 var a 4 |
script var a, b = c -> 0000000 | 0 var a 4, 0 var b 7 | 7 b w 1, 11 c r -
script var a; var a = 1 -> 00000000 | 0 var a 4 11 | 11 a w 0
script let a = b -> 00000 | 0 let a 4 | 4 a w 0, 8 b r -
script const {a, b: c, ...d} = e -> 0000000000000 | 0 const a 7, 0 const c 13, 0 const d 19 | 7 a w 0, 13 c w 1, 19 d w 2, 24 e r -
script const [a, , [b = a, ...c]] = d -> 000000000000 | 0 const a 7, 0 const b 13, 0 const c 23 | 7 a w 0, 13 b w 1, 17 a r 0, 23 c w 2, 29 d r -
script var {[a]: b = c} = d -> 0000000000 | 0 var b 10 | 6 a r -, 10 b w 0, 14 c r -, 19 d r -
script if (a) var b -> 000000 | 0 var b 11 | 4 a r -
script {var a; let b; {var b2; const b = a}} -> 0011111112222222 | 0 var a 5, 0 var b2 20, 1 let b 12, 2 const b 30 | 30 b w 3, 34 a r 0
script {let a} a -> 0011100 | 1 let a 5 | 8 a r -
script let a; {let a; a} a -> 000001111100 | 0 let a 4, 1 let a 12 | 15 a r 1, 18 a r 0
script function f() {var a; {var b} return () => {var c}} -> 00011111222113333 | 0 function f 9, 1 arguments arguments, 1 var a 18, 1 var b 26, 3 var c 47 |
script {function f() {} f} f -> 001121100 | 1 function f 10, 2 arguments arguments | 17 f r 0, 20 f r -
script var f; function f() {} function f() {} -> 0000001002 | 0 var f 4 16 32, 1 arguments arguments, 2 arguments arguments |
# functions and parameters
script function f(a, b = a, {c, d: [e]}, ...g) {return a + c} -> 0001111111111111111111 | 0 function f 9, 1 arguments arguments, 1 param a 11, 1 param b 14, 1 param c 22, 1 param e 29, 1 param g 37 | 18 a r 2, 48 a r 2, 52 c r 4
script function f(a) {a} -> 0001111 | 0 function f 9, 1 arguments arguments, 1 param a 11 | 15 a r 2
script (function (a) {return a + arguments.length}) -> 00011111111 | 1 arguments arguments, 1 param a 11 | 22 a r 1, 26 arguments r 0
script (a => a)(b) -> 0000110 | 1 param a 1 | 6 a r 0, 9 b r -
script a => {var b; return arguments} -> 0001111111 | 1 param a 0, 1 var b 10 | 20 arguments r -
script (a, [b], {c} = a) => a -> 0001111111111 | 1 param a 1, 1 param b 5, 1 param c 10 | 15 a r 0, 21 a r 0
script async (a) => await a -> 000111 | 1 param a 7 | 19 a r 0
script function f(arguments) {return arguments} -> 0001111 | 0 function f 9, 1 arguments arguments 11 | 30 arguments r 1
script function f() {var arguments; return () => arguments} -> 0001111112 | 0 function f 9, 1 arguments arguments 18 | 42 arguments r 1
script function f(a) {var a = 1; function a() {}} -> 000111111112 | 0 function f 9, 1 arguments arguments, 1 param a 11 19 35, 2 arguments arguments | 19 a w 2
script (function f() {return f}) -> 0000222 | 1 own f 10, 2 arguments arguments | 22 f r 0
script f; (function f(f) {var f; f}) -> 0000002222222 | 1 own f 13, 2 arguments arguments, 2 param f 15 23 | 0 f r -, 26 f r 2
script (function f() {var f = 1; f}) -> 00002222222 | 1 own f 10, 2 arguments arguments, 2 var f 19 | 19 f w 2, 26 f r 2
script (function f(a = f) {}) -> 00002222 | 1 own f 10, 2 arguments arguments, 2 param a 12 | 16 f r 0
script function f(a = b) {var b} -> 0001111111 | 0 function f 9, 1 arguments arguments, 1 param a 11, 1 var b 23 | 15 b r 3
script ({a() {return a}, get b() {return this}, set b(c) {c}}) -> 0000001110002220003333 | 1 arguments arguments, 2 arguments arguments, 3 arguments arguments, 3 param c 47 | 14 a r -, 51 c r 3
script function f() {return function g() {return f + g}} -> 000111133333 | 0 function f 9, 1 arguments arguments, 2 own g 30, 3 arguments arguments | 42 f r 0, 46 g r 2
# classes
script class A {} -> 0001 | 0 class A 6, 1 own A 6 |
script class A extends A {a() {return A}} -> 00011111222 | 0 class A 6, 1 own A 6, 2 arguments arguments | 16 A r 1, 31 A r 1
script (class {}) -> 0001 | |
script (class A extends B {constructor() {super(A)}}) -> 00001111122222 | 1 own A 7, 2 arguments arguments | 17 B r -, 41 A r 0
script class A {a = a; static b = a; [c] = d; e} -> 000111211311411 | 0 class A 6, 1 own A 6 | 13 a r -, 27 a r -, 31 c r -, 36 d r -
script class A {[a]() {} static [b + c] = 1} -> 0001111211113 | 0 class A 6, 1 own A 6, 2 arguments arguments | 10 a r -, 26 b r -, 30 c r -
script class A {a = () => {var b; return b}} -> 0001112333333 | 0 class A 6, 1 own A 6, 3 var b 24 | 34 b r 2
script class A {a = function b() {return b}} -> 00011122444 | 0 class A 6, 1 own A 6, 3 own b 22, 4 arguments arguments | 34 b r 2
script class A {a = class B {b = B}} -> 000111223334 | 0 class A 6, 1 own A 6, 3 own B 19 | 26 B r 2
script class A {static {var a = A; let b; function c() {}}} -> 000112222222223 | 0 class A 6, 1 own A 6, 2 var a 21, 2 let b 32, 2 function c 44, 3 arguments arguments | 21 a w 2, 25 A r 1
script class A {#a = b; a() {return this.#a}} -> 000111211133333 | 0 class A 6, 1 own A 6, 3 arguments arguments | 14 b r -
script let A = class A {}; A -> 000000100 | 0 let A 4, 1 own A 14 | 4 A w 0, 20 A r 0
# blocks, switches, loops and catches
script switch (a) {case a: let a; default: function b() {}} -> 000111111112 | 1 let a 24, 1 function b 45, 2 arguments arguments | 8 a r -, 17 a r 0
script switch (let_ => let_) {case b: var c} -> 0002211111 | 0 var c 35, 2 param let_ 8 | 16 let_ r 1, 28 b r -
script for (let a = 0, b = a; a < b; a++) {let a} -> 001111111111111222 | 1 let a 9, 1 let b 16, 2 let a 40 | 9 a w 0, 16 b w 1, 20 a r 0, 23 a r 0, 27 b r 1, 30 a rw 0
script for (var a = 0;;) a -> 00111111 | 0 var a 9 | 9 a w 0, 18 a r 0
script for (;;) {} -> 001 | |
script for (const a of a) {a} -> 001111122 | 1 const a 11 | 11 a w 0, 16 a r 0, 20 a r 0
script for (let a in b) {let a} -> 0011111222 | 1 let a 9, 2 let a 22 | 9 a w 0, 14 b r -
script for (var a of b) a -> 00111111 | 0 var a 9 | 9 a w 0, 14 b r -, 17 a r 0
script for (a of b) c -> 001111 | | 5 a w -, 10 b r -, 13 c r -
script for ([a, b.c] of d) {} -> 001111111 | | 6 a w -, 9 b r -, 17 d r -
script for (const {a, b = a} of c) a -> 0011111111111111 | 1 const a 12, 1 const b 15 | 12 a w 0, 15 b w 1, 19 a r 0, 25 c r -, 28 a r 0
script for (let [a] of []) () => a -> 0011111112 | 1 let a 10 | 10 a w 0, 26 a r 0
script try {let a} catch (a) {let b; a} finally {a} -> 00011102233333044 | 1 let a 9, 2 catch a 19, 3 let b 27 | 30 a r 1, 42 a r -
script try {} catch ({a, b: [c = a]}) {c} -> 00002222222222233 | 2 catch a 15, 2 catch c 22 | 26 a r 0, 32 c r 1
script try {} catch {var a} -> 00002333 | 0 var a 18 |
script try {} catch (a) {try {} catch (b) {a} b} -> 000022333556633 | 2 catch a 14, 5 catch b 32 | 36 a r 0, 39 b r -
script while (a) {const b = a} -> 00001111 | 1 const b 17 | 7 a r -, 17 b w 0, 21 a r -
script do {let a} while (a) -> 0001110 | 1 let a 8 | 18 a r -
script a: for (;;) {break a} -> 0000122 | |
script with (a) {b; var c} -> 000011111 | 0 var c 17 | 6 a r -, 10 b r -
# what is written and read
script a = b -> 00000 | | 0 a w -, 4 b r -
script a += b -> 00000 | | 0 a rw -, 5 b r -
script a ||= b -> 00000 | | 0 a rw -, 6 b r -
script a++; --b -> 0000000 | | 0 a rw -, 7 b rw -
script a.b = c; a.b++; a[b] += c -> 000000000000000000 | | 0 a r -, 6 c r -, 9 a r -, 16 a r -, 18 b r -, 24 c r -
script [a, b.c, ...d] = e -> 00000000000 | | 1 a w -, 4 b r -, 12 d w -, 17 e r -
script ({a, b: c, d: e.f, g = h, [i]: j} = k) -> 000000000000000000000000 | | 2 a w -, 8 c w -, 14 e r -, 19 g w -, 23 h r -, 27 i r -, 31 j w -, 36 k r -
script [[a = b]] = c -> 000000000 | | 2 a w -, 6 b r -, 12 c r -
script (a) = 1 -> 00000 | | 1 a w -
script const a = 1; a = 2; b(typeof c); d: for(;;){} -> 000000000000000001 | 0 const a 6 | 6 a w 0, 13 a w 0, 20 b r -, 29 c r -
script delete a.b; void a; typeof b -> 000000000000 | | 7 a r -, 17 a r -, 27 b r -
script a?.b?.[c](d) -> 0000000000 | | 0 a r -, 7 c r -, 10 d r -
script `${a}${b}`; c`${d}` -> 000000000000000 | | 3 a r -, 7 b r -, 12 c r -, 16 d r -
script new a(b, ...c) -> 0000000 | | 4 a r -, 6 b r -, 12 c r -
script a, b ? c : d -> 00000000 | | 0 a r -, 3 b r -, 7 c r -, 11 d r -
script async function f() {for await (const a of b) await a} -> 000112222222 | 0 function f 15, 1 arguments arguments, 2 const a 37 | 37 a w 2, 42 b r -, 51 a r 2
script function* f() {yield a; yield* b} -> 0001111111 | 0 function f 10, 1 arguments arguments | 21 a r -, 31 b r -
script let a; () => a = 1 -> 000000111 | 0 let a 4 | 13 a w 0
# what is no reference
script ({a, b: c, d() {}, [e]: f, "g": h, 1: i}) -> 0000000000001000000000 | 1 arguments arguments | 2 a r -, 8 c r -, 20 e r -, 24 f r -, 32 h r -, 38 i r -
script a.b.c; a[b] -> 00000000000 | | 0 a r -, 7 a r -, 9 b r -
script a: {break a} -> 000011 | |
script function f() {new.target} -> 00011111 | 0 function f 9, 1 arguments arguments |
module import a, {b, c as d, "e" as f} from "g"; a(b, d, f) -> 00000000000000000000 | 0 import a 7, 0 import b 11, 0 import d 19, 0 import f 29 | 42 a r 0, 44 b r 1, 47 d r 2, 50 f r 3
module import * as a from "b"; a.c -> 000000000 | 0 import a 12 | 24 a r 0
module let a, b; export {a, b as c, a as default} -> 0000000000000000 | 0 let a 4, 0 let b 7 |
module export {a, b as c} from "d" -> 000000000 | |
module export * from "a"; export * as b from "c" -> 000000 | |
module export default a -> 000 | | 15 a r -
module export default function f() {return f} -> 0000111 | 0 function f 24, 1 arguments arguments | 36 f r 0
module export default class {} -> 0001 | |
module export default class A {} -> 00001 | 0 class A 21, 1 own A 21 |
module export const a = 1, {b} = a; export function c() {} export class D {} -> 00000000000000010002 | 0 const a 13, 0 const b 21, 0 function c 45, 0 class D 65, 1 arguments arguments, 2 own D 65 | 13 a w 0, 21 b w 1, 26 a r 0
module import.meta.a; import(b) -> 0000000000 | | 22 b r -
module import a from "b"; {let a; a} a -> 0000001111100 | 0 import a 7, 1 let a 24 | 27 a r 1, 30 a r 0
module export let a; a = 1; function f() {a} -> 00000000000111 | 0 let a 11, 0 function f 30, 1 arguments arguments | 14 a w 0, 35 a r 0
module await a -> 0000 | | 6 a r -
# names that several scopes have
script let a; function f(a) {{let a; a} a} a -> 000000111222221100 | 0 let a 4, 0 function f 16, 1 arguments arguments, 1 param a 18, 2 let a 27 | 30 a r 4, 33 a r 3, 36 a r 0
script var a; (function a() {a; var b; (() => {b; var b})}) -> 000000022222222333333 | 0 var a 4, 1 own a 17, 2 arguments arguments, 2 var b 29, 3 var b 47 | 22 a r 1, 40 b r 4
script let a, b; {let a; {let c; a; b; c} c} -> 0000000111122222222211 | 0 let a 4, 0 let b 7, 1 let a 15, 2 let c 23 | 26 a r 2, 29 b r 1, 32 c r 3, 35 c r -
script function a() {b} function b() {a} -> 00011100222 | 0 function a 9, 0 function b 26, 1 arguments arguments, 2 arguments arguments | 14 b r 1, 31 a r 0
script a; var a; a -> 00000000 | 0 var a 7 | 0 a r 0, 10 a r 0
script toString; constructor; __proto__; var hasOwnProperty; hasOwnProperty -> 000000000000 | 0 var hasOwnProperty 38 | 0 toString r -, 10 constructor r -, 23 __proto__ r -, 54 hasOwnProperty r 0
script let é = 1; é + "é"; ü -> 00000000000 | 0 let é 4 | 4 é w 0, 12 é r 0, 23 ü r -"##;

/// A file of a usual kind, whose names are all told below.
const STORE: &str = r#"import { readFile } from 'node:fs/promises';
/* global metrics */

export class Store {
  #items = new Map();

  async load(path) {
    const text = await readFile(path, 'utf8');
    const rows = JSON.parse(text)?.rows ?? [];
    for (const row of rows) {
      if (row.id == null) continue;
      this.#items.set(row.id, row);
    }
    metrics.count('load', rows.length);
    // eslint-disable-next-line no-debugger -- kept for support
    debugger;
    return this.#items.size
  }

  get first() {
    for (const item of this.#items.values()) {
      return item;
    }
  }
}
"#;

const STORE_NAMES: &str = "\
    0000000001112211133333333333333333333333344444555555555555555555333333333333333311166777777777788 | \
    0 import readFile 9, 0 class Store 80, 1 own Store 80, 3 arguments arguments, \
    3 param path 124, 3 const text 142, 3 const rows 189, 4 const row 241, \
    6 arguments arguments, 7 const item 516 | 103 Map r -, 142 text w 5, 155 readFile r 0, \
    164 path r 4, 189 rows w 6, 196 JSON r -, 207 text r 5, 241 row w 7, 248 rows r 6, \
    266 row r 7, 314 row r 7, 322 row r 7, 338 metrics r -, 360 rows r 6, 516 item w 9, \
    561 item r 9";

fn kind_word(kind: DeclarationKind) -> &'static str {
    match kind {
        DeclarationKind::Var => "var",
        DeclarationKind::Let => "let",
        DeclarationKind::Const => "const",
        DeclarationKind::Function => "function",
        DeclarationKind::Class => "class",
        DeclarationKind::Import => "import",
        DeclarationKind::Param => "param",
        DeclarationKind::Catch => "catch",
        DeclarationKind::Arguments => "arguments",
        DeclarationKind::Own => "own",
    }
}

/// The offset at which a node starts.
fn start(tree: &Tree, node: u32) -> u32 {
    if node < tree.count() {
        tree.span(node).start
    } else {
        u32::MAX
    }
}

fn told_scopes(alloc: Global, tree: &Tree, scopes: &Scopes) -> Result<String, NoMemory>
    requires { length scopes.now.standing ≡ length tree.now }
{
    let mut told = String::new(alloc);
    for node in 0..tree.count() {
        told.push(char::from_digit(scopes.scope_of(node), 36).unwrap_or('?'))?;
    }
    Ok(told)
}

fn told_variable(alloc: Global, tree: &Tree, variable: &Variable) -> Result<String, NoMemory> {
    let scope = char::from_digit(variable.scope, 36).unwrap_or('?');
    let kind = kind_word(variable.kind);
    let mut told = format!(in alloc; "{scope} {kind} {}", variable.name.as_str())?;
    for node in variable.nodes.as_slice() {
        told.push_str(format!(in alloc; " {}", start(tree, *node))?.as_str())?;
    }
    Ok(told)
}

fn told_reference(alloc: Global, tree: &Tree, reference: &Reference) -> Result<String, NoMemory> {
    let name = words(tree, reference.node, NAME).unwrap_or("?");
    let read = if reference.read { "r" } else { "" };
    let write = if reference.write { "w" } else { "" };
    let start = start(tree, reference.node);
    match reference.variable {
        Some(index) => Ok(format!(in alloc; "{start} {name} {read}{write} {index}")?),
        None => Ok(format!(in alloc; "{start} {name} {read}{write} -")?),
    }
}

/// Puts an item of a list behind what is told, after a comma where it isn't the first.
fn push_item(told: &mut String, first: bool, item: &str) -> Result<(), NoMemory> {
    told.push_str(if first { " " } else { ", " })?;
    told.push_str(item)?;
    Ok(())
}

/// What the table has behind the arrow.
fn told(alloc: Global, tree: &Tree, scopes: &Scopes) -> Result<String, NoMemory>
    requires { length scopes.now.standing ≡ length tree.now }
{
    let mut told = told_scopes(alloc, tree, scopes)?;
    told.push_str(" |")?;
    for (index, variable) in scopes.variables().iter().enumerate() {
        let item = told_variable(alloc, tree, variable)?;
        push_item(&mut told, index == 0, item.as_str())?;
    }
    told.push_str(" |")?;
    for (index, reference) in scopes.references().iter().enumerate() {
        let item = told_reference(alloc, tree, reference)?;
        push_item(&mut told, index == 0, item.as_str())?;
    }
    Ok(told)
}

/// Whether each reference has the variable to which its name resolves from where it stands.
fn are_resolved(tree: &Tree, scopes: &Scopes) -> bool
    requires { length scopes.now.standing ≡ length tree.now }
{
    for reference in scopes.references() {
        if reference.node >= tree.count() {
            return false;
        }
        let scope = scopes.scope_of(reference.node);
        let name = words(tree, reference.node, NAME).unwrap_or("");
        if scopes.resolve(scope, name) != reference.variable {
            return false;
        }
    }
    true
}

/// What is told of a text, or why nothing is.
fn told_text<L: Ledger>(
    alloc: Global,
    text: &str,
    source_type: SourceType,
    steps: &mut Steps<L>,
) -> Result<String, NoMemory> {
    let source = Source::new(alloc, text.as_bytes()).map_err(|_| NoMemory)?;
    let Ok(parsed) = parse(alloc, &source, source_type, steps) else {
        return Ok(String::from_str(alloc, "isn't parsed")?);
    };
    let scopes = analyse(alloc, &parsed.tree)?;
    if !are_resolved(&parsed.tree, &scopes) {
        return Ok(String::from_str(alloc, "isn't resolved")?);
    }
    told(alloc, &parsed.tree, &scopes)
}

/// The first case of the table that is told otherwise, with what is told.
fn wrong_case<L: Ledger>(alloc: Global, blank: Blank) -> Result<Option<String>, NoMemory>
    requires name { blank.name ≡ L.name }
    requires parts { blank.parts ≡ L.parts }
    requires some { 0 < blank.parts }
{
    let mut steps = Steps::<L>::new(blank);
    for line in TEXTS.split('\n') {
        if !line.starts_with("# ") {
            let (case, want) = line.split_once(" -> ").unwrap_or((line, ""));
            let (kind, text) = case.split_once(" ").unwrap_or((case, ""));
            let module = kind == "module";
            let source_type = if module {
                SourceType::Module
            } else {
                SourceType::Script
            };
            let told = told_text(alloc, text, source_type, &mut steps)?;
            if told.as_str() != want {
                return Ok(Some(format!(in alloc; "{line}: {told}")?));
            }
        }
    }
    let told = told_text(alloc, STORE, SourceType::Module, &mut steps)?;
    if told.as_str() != STORE_NAMES {
        return Ok(Some(told));
    }
    Ok(None)
}

#[test]
fn scopes_of_texts(rt: HostRuntime) -> Result<(), Fail> {
    let wrong = wrong_case::<Brand>(rt.alloc(), Blank::new(1))?;
    assert_eq!(rt; wrong.as_deref(), None);
    Ok(())
}
