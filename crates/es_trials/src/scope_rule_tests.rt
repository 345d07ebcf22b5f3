//! What the rules over scopes say.
use crate::rule_tests::{config_of, expect, expect_set};
use crate::scope_rule_texts::{CONST, GLOBALS, LABELS, UNDEF, VARS};
use es_host::EachFile;
use es_rules_scope::{NoConstAssign, NoUndef, NoUnusedLabels, NoUnusedVars};
use es_settings::{FileConfig, GlobalUse};
use es_text::{SourceType, Txt};
use std::alloc::Global;
use std::test::Fail;

/// A configuration of one rule, at error, with names that are global variables and names that aren't.
fn config_with(
    alloc: Global,
    source_type: SourceType,
    on: &[&str],
    off: &[&str],
) -> Result<FileConfig, Fail> {
    let mut config = config_of(alloc, "[]")?;
    config.source_type = source_type;
    for name in on {
        config
            .globals
            .push((Txt::new(alloc, name)?, GlobalUse::On))?;
    }
    for name in off {
        config
            .globals
            .push((Txt::new(alloc, name)?, GlobalUse::Off))?;
    }
    Ok(config)
}

#[test]
fn what_rules_over_scopes_say(rt: HostRuntime) -> Result<(), Fail> {
    let alloc = rt.alloc();
    expect(&rt, alloc, EachFile::new(NoUndef), "[]", &UNDEF)?;
    expect(&rt, alloc, EachFile::new(NoConstAssign), "[]", &CONST)?;
    expect(&rt, alloc, EachFile::new(NoUnusedVars), "[]", &VARS)?;
    expect(&rt, alloc, EachFile::new(NoUnusedLabels), "[]", &LABELS)?;
    for (source_type, on, off, case) in &GLOBALS {
        let config = config_with(alloc, *source_type, on, off)?;
        expect_set(&rt, alloc, EachFile::new(NoUndef), &config, &[case])?;
    }
    Ok(())
}
