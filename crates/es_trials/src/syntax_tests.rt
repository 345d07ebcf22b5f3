//! What rules say of statements, clauses and white space, and of their options.
use crate::plain_texts::{DEBUGGER, EOL};
use crate::rule_tests::expect;
use crate::syntax_texts::{DUPLICATE, FINALLY, RESTRICTED, SEMI, SEMI_OPTIONS, TRAILING};
use es_host::{EachFile, EachNode};
use es_rules_plain::{
    EolLast, NoDebugger, NoDuplicateCase, NoRestrictedSyntax, NoTrailingSpaces, NoUnsafeFinally,
    Semi,
};
use std::test::Fail;

#[test]
fn what_rules_of_syntax_say(rt: HostRuntime) -> Result<(), Fail> {
    let alloc = rt.alloc();
    expect(&rt, alloc, EachNode::new(alloc, Semi), "[]", &SEMI)?;
    expect(
        &rt,
        alloc,
        EachNode::new(alloc, Semi),
        "[\"always\"]",
        &SEMI,
    )?;
    expect(&rt, alloc, EachFile::new(NoTrailingSpaces), "[]", &TRAILING)?;
    expect(&rt, alloc, EachFile::new(EolLast), "[]", &EOL)?;
    let rule = EachNode::new(alloc, NoDebugger);
    expect(&rt, alloc, rule, "[]", &DEBUGGER)?;
    expect(
        &rt,
        alloc,
        EachNode::new(alloc, NoDuplicateCase),
        "[]",
        &DUPLICATE,
    )?;
    expect(
        &rt,
        alloc,
        EachNode::new(alloc, NoUnsafeFinally),
        "[]",
        &FINALLY,
    )?;
    for (options, case) in &SEMI_OPTIONS {
        expect(&rt, alloc, EachNode::new(alloc, Semi), options, &[case])?;
    }
    for (options, case) in &RESTRICTED {
        let rule = EachNode::new(alloc, NoRestrictedSyntax::new(alloc));
        expect(&rt, alloc, rule, options, &[case])?;
    }
    Ok(())
}
