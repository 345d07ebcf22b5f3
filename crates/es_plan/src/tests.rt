use crate::{LintPlan, Plan, PlanFault, read_plan};
use es_settings::Mode;
use es_text::Txt;
use std::alloc::Global;
use std::test::Fail;

// Words, with `''` for an empty one and `()` for none, and behind ` => ` what they ask for: `bad`, `generate N`, or what
// differs from the plain run, in the order config, json, fix or fix-errors, quiet, max, plain (directives aren't read),
// and behind `:` the names. The values come by hand from the table of ESLint's guide, "Command Line Interface", as this
// program takes it: an option once, digits alone, no abbreviations, and names by their parts.
static WORDS: [&str; 112] = [
    "() => bad",
    "a.js => : a.js",
    "a.js b.js => : a.js b.js",
    "./a.js => : a.js",
    "src//a.js => : src/a.js",
    "src/./a.js => : src/a.js",
    "a/../b.js => : b.js",
    "../a.js => : ../a.js",
    "a/../../b.js => : ../b.js",
    "a/b/../../c/./d.js => : c/d.js",
    "/../a.js => : /a.js",
    "/a/../../b.js => : /b.js",
    "/ => : /",
    "// => : /",
    "/.. => : /",
    ". => : .",
    "./ => : .",
    "a/.. => : .",
    ".. => : ..",
    "../.. => : ../..",
    "../a/.. => : ..",
    "/a/./b/ => : /a/b",
    "..a ... .a => : ..a ... .a",
    "./é.js 日/../é.js => : é.js",
    "a.js ./a.js b/../a.js => : a.js",
    "b.js a.js ./b.js a.js c.js => : b.js a.js c.js",
    "a /a => : a /a",
    "a A => : a A",
    "'' => bad",
    "a.js '' => bad",
    "'' a.js => bad",
    "-c x a.js => config=x : a.js",
    "-cx a.js => config=x : a.js",
    "-c=x a.js => config=x : a.js",
    "--config x a.js => config=x : a.js",
    "--config=x a.js => config=x : a.js",
    "a.js --config x => config=x : a.js",
    "--config ./x/../y a.js => config=y : a.js",
    "--config /x//y a.js => config=/x/y : a.js",
    "-c '' a.js => config=. : a.js",
    "--config= a.js => config=. : a.js",
    "-c a.js => bad",
    "a.js -c => bad",
    "-c -f a.js => bad",
    "-c x -c y a.js => bad",
    "-c x --config x a.js => bad",
    "--conf x a.js => bad",
    "-cf x a.js => config=f : x a.js",
    "-f json a.js => json : a.js",
    "-fjson a.js => json : a.js",
    "-f=json a.js => json : a.js",
    "--format json a.js => json : a.js",
    "--format=json a.js => json : a.js",
    "-f stylish a.js => : a.js",
    "-f JSON a.js => bad",
    "-f '' a.js => bad",
    "--format=unix a.js => bad",
    "-f json -f json a.js => bad",
    "--fix a.js => fix : a.js",
    "--fix --quiet a.js => fix-errors quiet : a.js",
    "--quiet a.js --fix => fix-errors quiet : a.js",
    "--quiet a.js => quiet : a.js",
    "--fix => bad",
    "--fix --fix a.js => bad",
    "--quiet --quiet a.js => bad",
    "--fix=true a.js => bad",
    "--max-warnings 0 a.js => max=0 : a.js",
    "--max-warnings=7 a.js => max=7 : a.js",
    "--max-warnings 007 a.js => max=7 : a.js",
    "--max-warnings 4294967295 a.js => max=4294967295 : a.js",
    "--max-warnings 0000000000000000000004294967295 a.js => max=4294967295 : a.js",
    "--max-warnings 4294967296 a.js => bad",
    "--max-warnings 99999999999999999999999 a.js => bad",
    "--max-warnings +1 a.js => bad",
    "--max-warnings -1 a.js => bad",
    "--max-warnings=-1 a.js => bad",
    "--max-warnings 1.0 a.js => bad",
    "--max-warnings 1e1 a.js => bad",
    "--max-warnings '' a.js => bad",
    "--max-warnings ٣ a.js => bad",
    "--max-warnings 1 --max-warnings 1 a.js => bad",
    "--max-warnings 1 => bad",
    "--no-inline-config a.js => plain : a.js",
    "--no-inline-config --no-inline-config a.js => bad",
    "--no-inline-config=1 a.js => bad",
    "--max-warnings 3 --quiet --fix -f json -c a/b --no-inline-config x y => config=a/b json fix-errors quiet max=3 plain : x y",
    "--generate 3 => generate 3",
    "--generate=0 => generate 0",
    "--generate 10000 => generate 10000",
    "--generate 0010000 => generate 10000",
    "--generate 10001 => bad",
    "--generate x => bad",
    "--generate '' => bad",
    "--generate => bad",
    "--generate 3 --generate 3 => bad",
    "--generate 3 a.js => bad",
    "--generate 3 '' => bad",
    "--generate 3 -c x => bad",
    "--generate 3 -f stylish => bad",
    "--generate 3 --fix => bad",
    "--generate 3 --quiet => bad",
    "--generate 3 --max-warnings 1 => bad",
    "--generate 3 --no-inline-config => bad",
    "--help => bad",
    "a.js -h => bad",
    "--version a.js => bad",
    "--cache a.js => bad",
    "-x a.js => bad",
    "-- => bad",
    "-- -c --fix => : -c --fix",
    "a.js -- --quiet => : a.js --quiet",
    "- => : -",
];

fn words_of(alloc: Global, text: &str) -> Result<Vec<String>, Fail> {
    let mut words = Vec::new(alloc);
    if text == "()" {
        return Ok(words);
    }
    for word in text.split(' ') {
        let word = if word == "''" { "" } else { word };
        words.push(String::from_str(alloc, word)?)?;
    }
    Ok(words)
}

fn mark_of(mode: Mode) -> &'static str {
    match mode {
        Mode::Report => "",
        Mode::FixAll => "fix ",
        Mode::FixErrors => "fix-errors ",
    }
}

fn show_lint(alloc: Global, plan: &LintPlan, text: &mut String) -> Result<(), Fail> {
    if plan.config.as_str() != "eslint.config.json" {
        text.push_str("config=")?;
        text.push_str(plan.config.as_str())?;
        text.push_str(" ")?;
    }
    if plan.json {
        text.push_str("json ")?;
    }
    text.push_str(mark_of(plan.mode))?;
    if plan.quiet {
        text.push_str("quiet ")?;
    }
    if let Some(most) = plan.max_warnings {
        text.push_str(format!(in alloc; "max={most} ")?.as_str())?;
    }
    if !plan.inline {
        text.push_str("plain ")?;
    }
    text.push_str(":")?;
    for name in plan.names.as_slice() {
        text.push_str(" ")?;
        text.push_str(name.as_str())?;
    }
    Ok(())
}

fn shown(alloc: Global, words: &[String]) -> Result<String, Fail> {
    let mut text = String::new(alloc);
    match read_plan(alloc, words) {
        Ok(Plan::Lint(plan)) => show_lint(alloc, &plan, &mut text)?,
        Ok(Plan::Generate { count }) => text.push_str(format!(in alloc;
            "generate {count}"
        )?.as_str())?,
        Err(PlanFault::BadWords) => text.push_str("bad")?,
        Err(PlanFault::TooMany { names }) => text.push_str(format!(in alloc;
            "too many {names}"
        )?.as_str())?,
        Err(PlanFault::NoMemory) => text.push_str("no memory")?,
    }
    Ok(text)
}

#[test]
fn words_are_read(rt: HostRuntime) -> Result<(), Fail> {
    let alloc = rt.alloc();
    for line in &WORDS {
        let (words, plan) = line.split_once(" => ").unwrap_or((*line, ""));
        let words = words_of(alloc, words)?;
        let shown = shown(alloc, words.as_slice())?;
        assert_eq!(rt; (*line, shown.as_str()), (*line, plan));
    }
    Ok(())
}

/// So many names `a`, and behind them these words.
fn many(alloc: Global, count: u32, more: &str) -> Result<Vec<String>, Fail> {
    let mut words = Vec::new(alloc);
    for _ in 0..count {
        words.push(String::from_str(alloc, "a")?)?;
    }
    for word in words_of(alloc, more)? {
        words.push(word)?;
    }
    Ok(words)
}

#[test]
fn names_are_counted_as_they_are_given(rt: HostRuntime) -> Result<(), Fail> {
    let alloc = rt.alloc();
    for (count, more, plan) in [
        (10_000, "()", ": a"),
        (10_001, "()", "too many 10001"),
        (10_001, "--quiet", "too many 10001"),
        (10_001, "-f xml", "bad"),
        (10_001, "--max-warnings x", "bad"),
        (10_001, "--generate 3", "bad"),
        (10_001, "''", "bad"),
    ] {
        let words = many(alloc, count, more)?;
        let shown = shown(alloc, words.as_slice())?;
        assert_eq!(rt; (count, more, shown.as_str()), (count, more, plan));
    }
    Ok(())
}
