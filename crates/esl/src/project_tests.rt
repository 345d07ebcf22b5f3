//! What comes of runs over files in memory.
ghost use Rattle.std.specs.Prelude.{◌≡◌, ◌<◌, ◌^◌, All, [], length};
ghost use Rattle.es_host.specs.Kits.{NeedsNoOptions};
ghost use Rattle.es_settings.specs.declared.verdict.Verdict.TheVariants.{Fine};

use crate::tests::status_of;
use crate::{run_cases, text_cases};
use es_files::{MemoryFiles, MemorySink};
use es_host::{EachFile, EachNode, Kit, Rule};
use es_rules_plain::{EolLast, Eqeqeq, NoDebugger, NoRestrictedSyntax, Semi};
use es_rules_scope::{NoUndef, NoUnusedVars};
use es_run::status_code;
use std::alloc::Global;
use std::process::Abort;
use std::test::Fail;

/// What stands behind this word in the part of a case that it begins.
fn part<'a>(case: &'a str, word: &str) -> Option<&'a str> {
    for part in case.split('@') {
        if let Some(rest) = part.strip_prefix(word) {
            return Some(rest);
        }
    }
    None
}

/// The two numbers of a text.
fn numbers(text: &str) -> (u64, u64) {
    let (first, second) = text.split_once(' ').unwrap_or((text, ""));
    (
        first.parse::<u64>().unwrap_or(0),
        second.parse::<u64>().unwrap_or(0),
    )
}

/// The files that the case holds, with its failure.
fn files_in(alloc: Global, case: &str) -> Result<MemoryFiles, Fail> {
    let mut files = MemoryFiles::new(alloc)?;
    for part in case.split('@') {
        if let Some(rest) = part.strip_prefix("held ") {
            let (name, bytes) = rest.split_once('\n').unwrap_or((rest, ""));
            files.hold(alloc, name, bytes.as_bytes())?;
        }
    }
    if let Some(rest) = part(case, "fails read\n") {
        let (call, left) = numbers(rest);
        files.fail(alloc, false, call, left)?;
    }
    if let Some(rest) = part(case, "fails write\n") {
        let (call, left) = numbers(rest);
        files.fail(alloc, true, call, left)?;
    }
    Ok(files)
}

/// The output of the case, which takes what it takes.
fn output_of(alloc: Global, case: &str) -> Result<MemorySink, Fail> {
    let mut out = MemorySink::new(alloc)?;
    if let Some(rest) = part(case, "cut\n") {
        out.fail(alloc, 1, numbers(rest).0)?;
    }
    Ok(out)
}

/// The words of the case.
fn words_of<'a>(alloc: Global, case: &'a str) -> Result<Vec<&'a str>, Fail> {
    let mut words = Vec::new(alloc);
    if let Some(rest) = part(case, "words\n") {
        for word in rest.split('\n') {
            words.push(word)?;
        }
    }
    Ok(words)
}

/// What is held of the files that the parts ask for, as parts of a case.
fn left_of(alloc: Global, files: &MemoryFiles, wanted: &str) -> Result<Vec<u8>, Fail> {
    let mut left = Vec::new(alloc);
    for part in wanted.split('@') {
        if let Some(rest) = part.strip_prefix("left ") {
            let (name, _) = rest.split_once('\n').unwrap_or((rest, ""));
            left.extend_from_slice(format!(in alloc; "@left {name}\n")?.as_bytes())?;
            left.extend_from_slice(files.held(name).unwrap_or(b"(nothing)"))?;
        }
    }
    Ok(left)
}

/// What comes of the first parts of a case with the first kit, as the parts behind them.
fn told_of<R: Rule>(
    alloc: Global,
    kits: &mut Vec<Kit<R>>,
    given: &str,
    wanted: &str,
) -> Result<Vec<u8>, Fail>
    requires kits { length kits.old.items ≡ 1 }
    requires options { All (NeedsNoOptions R.meaning) kits.old.items }
    ensures kits { length kits.new.items ≡ length kits.old.items }
    ensures options { All (NeedsNoOptions R.meaning) kits.new.items }
{
    let before = kits[0].lints();
    let mut files = files_in(alloc, given)?;
    let mut out = output_of(alloc, given)?;
    let mut err = MemorySink::new(alloc)?;
    let words = words_of(alloc, given)?;
    let status = status_of(
        alloc,
        words.as_slice(),
        kits,
        &mut files,
        &mut out,
        &mut err,
    )?;
    let code = status_code(&status);
    let heard = kits[0].lints().wrapping_sub(before);
    let mut told = Vec::new(alloc);
    told.extend_from_slice(format!(in alloc; "{code} {heard}\n@out\n")?.as_bytes())?;
    told.extend_from_slice(out.got())?;
    told.extend_from_slice(b"@err\n")?;
    told.extend_from_slice(err.got())?;
    told.extend_from_slice(left_of(alloc, &files, wanted)?.as_slice())?;
    Ok(told)
}

/// Asserts what comes of each case with the first kit.
fn expect_runs<R: Rule>(
    rt: &impl Abort,
    alloc: Global,
    kits: &mut Vec<Kit<R>>,
    cases: &[&str],
) -> Result<(), Fail>
    requires kits { length kits.old.items ≡ 1 }
    requires options { All (NeedsNoOptions R.meaning) kits.old.items }
    ensures kits { length kits.new.items ≡ length kits.old.items }
    ensures options { All (NeedsNoOptions R.meaning) kits.new.items }
{
    for case in cases {
        let (given, wanted) = case.split_once("@status ").unwrap_or((case, ""));
        let told = told_of(alloc, kits, given, wanted)?;
        assert_eq!(rt; told.as_slice(), wanted.as_bytes(), "{given}");
    }
    Ok(())
}

/// Asserts what comes of all cases with one kit of these rules.
fn expect_all<R: Rule>(rt: &impl Abort, alloc: Global, rules: Vec<R>) -> Result<(), Fail>
    requires few { length rules.items < 2 ^ 32 }
    requires options { All (λ rule. (R.meaning rule).verdict [] ≡ Fine) rules.items }
{
    let mut kits = Vec::new(alloc);
    kits.push(Kit::new(rules))?;
    expect_runs(rt, alloc, &mut kits, &run_cases::CASES)?;
    expect_runs(rt, alloc, &mut kits, &text_cases::CASES)
}

/// Runs with the rules that the cases name, and those that find something in a generated text.
#[test]
fn runs(rt: HostRuntime) -> Result<(), Fail> {
    let alloc = rt.alloc();
    let mut rules: Vec<Box<dyn Rule + Send>> = Vec::new(alloc);
    rules.push(Box::new(alloc, EachNode::new(alloc, Semi))?)?;
    rules.push(Box::new(alloc, EachFile::new(EolLast))?)?;
    rules.push(Box::new(alloc, EachNode::new(alloc, NoDebugger))?)?;
    rules.push(Box::new(alloc, EachNode::new(alloc, Eqeqeq::new()))?)?;
    rules.push(Box::new(alloc, EachNode::new(alloc, NoRestrictedSyntax::new(alloc)))?)?;
    rules.push(Box::new(alloc, EachFile::new(NoUndef))?)?;
    rules.push(Box::new(alloc, EachFile::new(NoUnusedVars))?)?;
    expect_all(&rt, alloc, rules)
}
