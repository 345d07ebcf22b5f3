ghost use Rattle.es_tables.specs.Rows.{IsOrdered};

use crate::{
    Holds, Row, Table, child_field, count_child_fields, field_of, keywords, node_kinds, punctuators,
};
use std::test::Fail;

static WORDS: [(&str, Option<u16>); 9] = [
    ("break", Some(0)),
    ("in", Some(20)),
    ("instanceof", Some(21)),
    ("yield", Some(37)),
    ("", None),
    ("await", None),
    ("instance", None),
    ("instanceofx", None),
    ("Break", None),
];

static MARKS: [(&str, Option<u16>); 8] = [
    ("{", Some(0)),
    ("!", Some(32)),
    ("~", Some(33)),
    (">>>=", Some(50)),
    ("??=", Some(56)),
    ("", None),
    (">>>>", None),
    ("@", None),
];

static KINDS: [(&str, Option<u16>); 7] = [
    ("Program", Some(0)),
    ("Identifier", Some(34)),
    ("ArrayExpression", Some(37)),
    ("YieldExpression", Some(53)),
    ("ExportAllDeclaration", Some(70)),
    ("program", None),
    ("Statement", None),
];

/// The first text of which the table has another code.
fn wrong_code<'a, const N: usize>(
    table: &Table<N>,
    cases: &'a [(&'static str, Option<u16>)],
) -> Option<&'a (&'static str, Option<u16>)>
    requires { IsOrdered table.now.rows.now }
{
    for case in cases {
        if table.find(case.0).map(|row| row.code) != case.1 {
            return Some(case);
        }
    }
    None
}

#[test]
fn words_and_their_codes(rt: HostRuntime) -> Result<(), Fail> {
    assert!(rt; wrong_code(&keywords(), &WORDS).is_none());
    assert!(rt; wrong_code(&punctuators(), &MARKS).is_none());
    assert!(rt; wrong_code(&node_kinds(), &KINDS).is_none());
    Ok(())
}

// Texts, the longest punctuator that each begins with, and its code.
static LONGEST: [(&str, Option<(&str, u16)>); 16] = [
    (">>>=x", Some((">>>=", 50))),
    (">>>", Some((">>>", 28))),
    (">>=", Some((">>=", 49))),
    (">> =", Some((">>", 27))),
    ("?.5", Some(("?.", 38))),
    ("?", Some(("?", 37))),
    ("..", Some((".", 6))),
    ("...a", Some(("...", 7))),
    ("~", Some(("~", 33))),
    ("!a", Some(("!", 32))),
    ("=>", Some(("=>", 41))),
    ("=\u{e9}", Some(("=", 40))),
    ("a", None),
    ("", None),
    (" ;", None),
    ("\u{e9}", None),
];

#[test]
fn the_longest_prefix(rt: HostRuntime) -> Result<(), Fail> {
    let table = punctuators();
    for case in &LONGEST {
        let row = table.longest(case.0.as_bytes());
        assert_eq!(rt; row.map(|row| (row.text, row.code)), case.1);
    }
    assert!(rt;
        keywords()
            .longest(b"instanceo")
            .is_some_and(|row| row.code == 20)
    );
    Ok(())
}

#[test]
fn a_table_of_two_rows(rt: HostRuntime) -> Result<(), Fail> {
    let table: Table<2> = Table {
        rows: &[
            Row { text: "a", code: 7 },
            Row {
                text: "ab",
                code: 7,
            },
        ],
    };
    assert!(rt; table.find("ab").is_some_and(|row| row.text == "ab"));
    assert!(rt; table.find("abc").is_none());
    assert!(rt; table.longest(b"abc").is_some_and(|row| row.text == "ab"));
    assert!(rt; table.longest(b"ac").is_some_and(|row| row.text == "a"));
    let table: Table<0> = Table { rows: &[] };
    assert!(rt; table.find("").is_none());
    assert!(rt; table.longest(b"a").is_none());
    Ok(())
}

static FIELDS: [(u16, &str, Option<u16>); 19] = [
    // Program
    (0, "body", Some(0)),
    (0, "sourceType", Some(1)),
    (0, "length", None),
    // EmptyStatement
    (5, "body", None),
    (5, "", None),
    // IfStatement
    (15, "alternate", Some(2)),
    // ForInStatement, ForOfStatement
    (23, "await", None),
    (24, "await", Some(3)),
    // FunctionDeclaration
    (25, "body", Some(2)),
    (25, "generator", Some(4)),
    // Literal
    (36, "raw", Some(0)),
    (36, "bigint", Some(3)),
    // Property
    (41, "computed", Some(5)),
    (41, "comput", None),
    // CallExpression, NewExpression
    (49, "optional", Some(2)),
    (50, "optional", None),
    // ExportAllDeclaration, and past the last kind
    (70, "source", Some(1)),
    (71, "source", None),
    (65535, "body", None),
];

#[test]
fn fields_of_kinds(rt: HostRuntime) -> Result<(), Fail> {
    for &(kind, name, index) in &FIELDS {
        assert_eq!(rt; field_of(kind, name), index);
    }
    Ok(())
}

// By ESTree: what may be `null` is optional, an array is a list.
static CHILD_FIELDS: [(u16, u16, Option<Holds>, usize); 14] = [
    // Program: body, then the attribute sourceType
    (0, 0, Some(Holds::Many), 1),
    (0, 1, None, 1),
    // EmptyStatement
    (5, 0, None, 0),
    // IfStatement: test, consequent, alternate
    (15, 1, Some(Holds::One), 3),
    (15, 2, Some(Holds::Optional), 3),
    (15, 3, None, 3),
    // CatchClause: param, body
    (19, 0, Some(Holds::Optional), 2),
    // ArrowFunctionExpression: params, body, then attributes
    (27, 0, Some(Holds::Many), 2),
    (27, 2, None, 2),
    // Identifier, Literal
    (34, 0, None, 0),
    (36, 0, None, 0),
    // ExportAllDeclaration, and past the last kind
    (70, 1, Some(Holds::One), 2),
    (71, 0, None, 0),
    (65535, 65535, None, 0),
];

#[test]
fn what_child_fields_hold(rt: HostRuntime) -> Result<(), Fail> {
    for &(kind, field, holds, count) in &CHILD_FIELDS {
        assert_eq!(rt; child_field(kind, field), holds);
        assert_eq!(rt; count_child_fields(kind), count);
    }
    Ok(())
}
