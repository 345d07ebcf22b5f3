use crate::{Change, Context, Part, Rule, Symbol, Terminal, can_begin, rule_at};
use es_text::TokenKind;
use std::test::Fail;

/// The context of a script's items.
const SCRIPT: Context = Context {
    await_operator: false,
    yield_operator: false,
    in_operator: true,
    in_module: false,
};

/// ECMA-262, 12.6.2: `await` is a name outside of modules and async functions alone. The other words and
/// punctuators are those of 12.6.2 and 12.7.
#[test]
fn tokens_that_terminals_read(rt: HostRuntime) -> Result<(), Fail> {
    let module = Context {
        in_module: true,
        ..SCRIPT
    };
    let cases = [
        (Terminal::Name.reads(SCRIPT, TokenKind::Word, "await"), true),
        (
            Terminal::Name.reads(module, TokenKind::Word, "await"),
            false,
        ),
        (Terminal::Name.reads(SCRIPT, TokenKind::Word, "async"), true),
        (
            Terminal::Name.reads(SCRIPT, TokenKind::Word, "yield"),
            false,
        ),
        (
            Terminal::Name.reads(SCRIPT, TokenKind::Private, "#a"),
            false,
        ),
        (Terminal::Word.reads(module, TokenKind::Word, "if"), true),
        (
            Terminal::RelationalOperator.reads(SCRIPT, TokenKind::Word, "instanceof"),
            true,
        ),
        (
            Terminal::RelationalOperator.reads(SCRIPT, TokenKind::Word, "in"),
            false,
        ),
        (
            Terminal::Spelled(75).reads(SCRIPT, TokenKind::Word, "if"),
            true,
        ),
        (
            Terminal::Spelled(105).reads(SCRIPT, TokenKind::End, ""),
            false,
        ),
    ];
    for (read, expected) in cases {
        assert_eq!(rt; read, expected);
    }
    Ok(())
}

/// By the rules alone: an argument can begin with a name and with `...`, not with `)`; the further
/// declarators of a list with a comma alone.
#[test]
fn tokens_that_begin_turns(rt: HostRuntime) -> Result<(), Fail> {
    assert_eq!(rt; Terminal::Name.code(), 1);
    assert_eq!(rt; Terminal::Spelled(7).code(), 27);
    let (name, close, spread, comma) = (1u128 << 1, 1u128 << 23, 1u128 << 27, 1u128 << 29);
    let cases = [
        (can_begin(Symbol::ArgumentList, name), true),
        (can_begin(Symbol::ArgumentList, spread), true),
        (can_begin(Symbol::ArgumentList, close), false),
        (can_begin(Symbol::DeclaratorList, name), false),
        (can_begin(Symbol::DeclaratorList, name | comma), true),
        (can_begin(Symbol::Block, name), false),
    ];
    for (begins, expected) in cases {
        assert_eq!(rt; begins, expected);
    }
    Ok(())
}

/// `Block : "{" ^StatementList "}"` and `Semicolon`.
#[test]
fn rows_of_rules(rt: HostRuntime) -> Result<(), Fail> {
    if let Rule::Choice(rows) = rule_at(Symbol::Block) {
        assert_eq!(rt; rows.len(), 1);
        assert!(rt;
            matches!(
                rows[0].parts,
                [
                    _,
                    Part::Deeper(Symbol::StatementList, Change::Brackets, _),
                    _
                ]
            )
        );
    } else {
        assert!(rt; false);
    }
    if let Rule::Choice(rows) = rule_at(Symbol::Semicolon) {
        assert_eq!(rt; rows.len(), 2);
    } else {
        assert!(rt; false);
    }
    Ok(())
}
