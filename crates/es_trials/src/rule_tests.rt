//! What rules say of texts, a table for each rule.
ghost use Rattle.std.specs.Prelude.{◌≡◌, ◌<◌, IfOk};
ghost use Rattle.es_text.specs.Texts.{text_bytes};
ghost use Rattle.es_host.specs.Files.{IsWhole, file_in};
ghost use Rattle.es_parser.specs.Parsing.{AreInText, IsParsed};

use crate::plain_texts::{
    COND_ASSIGN, DEFAULT_LAST, EMPTY, EQUAL, EQUAL_SMART, EXTRA_SEMI, NEGATION, REFUSED, SPARSE,
    TYPEOF,
};
use es_host::{EachNode, FileView, Kit, Rule, listen};
use es_parser::{ParseFault, parse};
use es_rules_plain::{
    DefaultCaseLast, Eqeqeq, NoCondAssign, NoEmpty, NoExtraSemi, NoSparseArrays, NoUnsafeNegation,
    ValidTypeof,
};
use es_scopes::analyse;
use es_settings::{FileConfig, Known, RuleSetting, Verdict};
use es_text::{Items, NoMemory, Report, Severity, Source, SourceType, Span, Steps};
use es_tree::Parsed;
use serde_json::Value;
use std::alloc::Global;
use std::marker::Brand;
use std::process::Abort;
use std::sync::ledger::{Blank, Ledger};
use std::test::Fail;

/// A configuration of one rule, at error, with the options of this JSON array.
pub(crate) fn config_of(alloc: Global, options: &str) -> Result<FileConfig, Fail> {
    let given = match Value::from_str(alloc, options)? {
        Value::Array(given) => given,
        _ => Vec::new(alloc),
    };
    let mut rules = Items::new(alloc);
    rules.push(RuleSetting {
        severity: Some(Severity::Error),
        options: Items::from_vec(given),
    })?;
    Ok(FileConfig {
        source_type: SourceType::Module,
        globals: Items::new(alloc),
        inline: true,
        unused: None,
        rules,
    })
}

/// What the kit of one rule says of the text, or why it doesn't take its options: `Fine` where the kit has
/// several rules.
fn reports_of<R: Rule>(
    alloc: Global,
    file: &FileView,
    kit: &mut Kit<R>,
) -> Result<Result<Vec<Report>, Verdict>, NoMemory>
    requires { IsWhole (file_in file.now) }
{
    let settings = file.config.rules.as_slice();
    if kit.count() != 1 || settings.len() != 1 {
        return Ok(Err(Verdict::Fine));
    }
    match kit.verdict(alloc, 0, settings[0].options.as_slice())? {
        Verdict::Fine => Ok(Ok(listen(alloc, file, kit)?)),
        refused => Ok(Err(refused)),
    }
}

/// The places of a span, as `LINE:COLUMN-LINE:COLUMN`.
fn places(alloc: Global, source: &Source, span: Span) -> Result<String, Fail> {
    let text = source.text();
    if !text.is_char_boundary(span.start as usize) || !text.is_char_boundary(span.end as usize) {
        return Ok(String::from_str(alloc, "inside of a character")?);
    }
    let (start, end) = (source.place(span.start), source.place(span.end));
    Ok(format!(in alloc;
        "{}:{}-{}:{}",
        start.line, start.column, end.line, end.column
    )?)
}

/// What is said, as `PLACES MESSAGE`, and of a fix ` [PLACES TEXT]`; several one behind the other.
fn told(alloc: Global, source: &Source, reports: &[Report]) -> Result<String, Fail> {
    let mut all = String::new(alloc);
    for report in reports {
        if !all.is_empty() {
            all.push_str("; ")?;
        }
        all.push_str(places(alloc, source, report.span)?.as_str())?;
        all.push_str(" ")?;
        all.push_str(report.text.as_str())?;
        if let Some(fix) = &report.fix {
            let fixed = places(alloc, source, fix.span)?;
            let text = fix.text.as_str();
            all.push_str(format!(in alloc; " [{fixed} {text}]")?.as_str())?;
        }
    }
    Ok(all)
}

/// What parsing the source gives, on a count of its own.
fn counted_parse<L: Ledger>(
    alloc: Global,
    source: &Source,
    source_type: SourceType,
    blank: Blank,
) -> Result<Parsed, ParseFault>
    requires name { blank.name ≡ L.name }
    requires parts { blank.parts ≡ L.parts }
    requires some { 0 < blank.parts }
    ensures parsed { IfOk result (IsParsed (text_bytes source.now) source_type) }
    ensures spans { IfOk result (λ parsed. AreInText (text_bytes source.now) parsed.tree) }
{
    let mut steps = Steps::<L>::new(blank);
    parse(alloc, source, source_type, &mut steps)
}

/// What the rule of the kit says of a text.
fn told_of<R: Rule>(
    alloc: Global,
    kit: &mut Kit<R>,
    config: &FileConfig,
    text: &str,
) -> Result<String, Fail> {
    let Ok(source) = Source::from_text(alloc, text) else {
        return Ok(String::from_str(alloc, "too long")?);
    };
    let blank = Blank::new(1);
    let Ok(parsed) = counted_parse::<Brand>(alloc, &source, config.source_type, blank) else {
        return Ok(String::from_str(alloc, "not parsed")?);
    };
    let scopes = analyse(alloc, &parsed.tree)?;
    let file = FileView {
        source: &source,
        parsed: &parsed,
        scopes: &scopes,
        config,
    };
    match reports_of(alloc, &file, kit)? {
        Ok(reports) => told(alloc, &source, reports.as_slice()),
        Err(Verdict::Fine) => Ok(String::from_str(alloc, "several rules")?),
        Err(Verdict::BadOption) => Ok(String::from_str(alloc, "bad option")?),
        Err(Verdict::BadSelector) => Ok(String::from_str(alloc, "bad selector")?),
    }
}

/// Asserts what a rule says, under the options of this JSON array, of the texts of a table: a case is a
/// text, ` -> `, and what is said of it.
pub(crate) fn expect<R: Rule>(
    rt: &impl Abort,
    alloc: Global,
    rule: R,
    options: &str,
    table: &[&str],
) -> Result<(), Fail> {
    let config = config_of(alloc, options)?;
    expect_set(rt, alloc, rule, &config, table)
}

/// Asserts what a rule says, as it is set, of the texts of a table.
pub(crate) fn expect_set<R: Rule>(
    rt: &impl Abort,
    alloc: Global,
    rule: R,
    config: &FileConfig,
    table: &[&str],
) -> Result<(), Fail> {
    let mut rules = Vec::new(alloc);
    rules.push(rule)?;
    let mut kit = Kit::new(rules);
    for case in table {
        let (text, want) = case.split_once(" ->").unwrap_or((*case, ""));
        let said = told_of(alloc, &mut kit, config, text)?;
        assert_eq!(rt; said.as_str(), want.trim_start(), "{}", text);
    }
    Ok(())
}

/// Options of eqeqeq that mean the same as none.
static ALWAYS: [&str; 2] = ["[]", "[\"always\"]"];

/// Options that eqeqeq doesn't take.
static NEVER: [&str; 3] = ["[\"never\"]", "[\"smart\", 1.5]", "[1.5]"];

#[test]
fn what_rules_say(rt: HostRuntime) -> Result<(), Fail> {
    let alloc = rt.alloc();
    let rule = EachNode::new(alloc, NoExtraSemi);
    expect(&rt, alloc, rule, "[]", &EXTRA_SEMI)?;
    let rule = EachNode::new(alloc, NoEmpty);
    expect(&rt, alloc, rule, "[]", &EMPTY)?;
    let rule = EachNode::new(alloc, NoEmpty);
    expect(&rt, alloc, rule, "[\"smart\"]", &REFUSED)?;
    for options in &ALWAYS {
        let rule = EachNode::new(alloc, Eqeqeq::new());
        expect(&rt, alloc, rule, options, &EQUAL)?;
    }
    let rule = EachNode::new(alloc, Eqeqeq::new());
    expect(&rt, alloc, rule, "[\"smart\"]", &EQUAL_SMART)?;
    for options in &NEVER {
        let rule = EachNode::new(alloc, Eqeqeq::new());
        expect(&rt, alloc, rule, options, &REFUSED)?;
    }
    let rule = EachNode::new(alloc, NoCondAssign);
    expect(&rt, alloc, rule, "[]", &COND_ASSIGN)?;
    let rule = EachNode::new(alloc, NoUnsafeNegation);
    expect(&rt, alloc, rule, "[]", &NEGATION)?;
    let rule = EachNode::new(alloc, ValidTypeof);
    expect(&rt, alloc, rule, "[]", &TYPEOF)?;
    let rule = EachNode::new(alloc, NoSparseArrays);
    expect(&rt, alloc, rule, "[]", &SPARSE)?;
    let rule = EachNode::new(alloc, DefaultCaseLast);
    expect(&rt, alloc, rule, "[]", &DEFAULT_LAST)?;
    Ok(())
}
