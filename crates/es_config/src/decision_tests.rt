use crate::{Config, Decision, Entry, RuleChange, for_name};
use es_globs::{Glob, split_first};
use es_settings::{FileConfig, GlobalUse, RuleSetting};
use es_text::{Items, Severity, SourceType, Txt};
use serde_json::Value;
use std::alloc::Global;
use std::test::Fail;

// Entries, with ` ; ` between them, and behind ` => ` names, each with what becomes of it in front: `+` it is linted,
// `-` ignored, `?` unmatched, `^` outside. A word of an entry is `files:GLOB`, or `files:GLOB&GLOB` where both have to
// match, `ignores:GLOB`, what it sets, as in the table below, `alone` where it has `ignores` and nothing else, or `.`.
// The values come by hand from the rules of ESLint's guide, "Configuration files", for a working folder whose
// configuration is this one.
static DECISIONS: [&str; 32] = [
    ". => +a.js +a.mjs +a.cjs +src/b/c.js +.js +.hidden.js +src/.a.mjs ?a.ts ?a.jsx ?js ?a.js.map ?src/notes.txt ?a.js/b",
    ". => ^/a.js ^/ ^../a.js ^.. ^../../b.js ^/src/a.js ?..a ?... +..a.js +.../a.js +.a.js +..js",
    ". => -node_modules/a.js -node_modules/a/b.txt -src/node_modules/a.js +node_modules.js ?node_modules +modules/a.js",
    ". => -.git/a.js -.git/hooks/a +src/.git/a.js ?.git +.github/a.js",
    "alone ignores:dist/** => -dist/a.js -dist/b/c.js -dist +a.js +src/dist/a.js ?dist.txt",
    "alone ignores:dist/ => -dist/a.js -dist/b/c.js ?dist +src/dist/a.js",
    "alone ignores:dist/** ignores:!dist/keep.js => -dist/a.js +dist/keep.js +keep.js",
    "alone ignores:!dist/keep.js ignores:dist/** => -dist/a.js -dist/keep.js",
    "alone ignores:dist/** ; alone ignores:!dist/keep.js => -dist/a.js +dist/keep.js",
    "alone ignores:!dist/keep.js ; alone ignores:dist/** => -dist/a.js -dist/keep.js",
    "alone ignores:!**/node_modules/ => +node_modules/a.js +b/node_modules/c.js -.git/a.js",
    "alone ignores:!node_modules/ ignores:!.git/ => +node_modules/a.js -b/node_modules/c.js +.git/a.js",
    "alone ignores:!!a.js => +a.js +!a.js",
    "alone ignores:** => -a.js -a.txt -a/b.txt ^/a.js ^../a",
    "alone => +a.js -node_modules/a.js ?a",
    "script ignores:dist/** => +dist/a.js +a.js ?dist/a.ts",
    "ignores:dist/** => +dist/a.js ?dist/a",
    "files:**/*.js ignores:src/** => +src/a.js +a.js",
    "files:**/*.ts ignores:**/*.d.ts => +a.ts +src/a.ts ?a.d.ts ?src/a.d.ts +a.js",
    "files:**/*.ts ignores:src/** ignores:!src/keep.ts => ?src/a.ts +src/keep.ts +a.ts",
    "files:**/*.ts ignores:!a.ts => +a.ts +b.ts",
    "files:*.ts => +a.ts ?src/a.ts",
    "files:*.ts files:lib/** => +a.ts +lib/a +lib/b.txt +lib ?src/a.ts",
    "files:src/**&**/*.ts => +src/a.ts +src/b/c.ts ?a.ts ?src/a.txt",
    "files:src/**&!**/*.txt => +src/a.ts +src/b ?src/a.txt ?a.ts",
    "files:src/**&**/*.ts files:*.md => +src/a.ts +a.md ?src/a.md ?a.ts",
    "files:!*.txt => +a.md +a.js ?a.txt +src/a.txt",
    "files:!!a => +a +b ?!a",
    "files:a.ts ; files:b.ts => +a.ts +b.ts ?c.ts",
    "files:*.ts ; alone ignores:a.ts => -a.ts +b.ts",
    "script => +a.js ?a.ts",
    "alone ignores:dist/** ; . => -dist/a.js ^../b.js +c.js ?notes.txt",
];

// Entries, a name, and what is set for it: what it is read as, whether comments may change what is set, how serious a
// comment is that disables nothing, global variables, and of two rules the severities and options. A word of an entry
// is `module`, `commonjs`, `script`, `inline`, `fixed`, `unused:SEVERITY`, `on:NAME`, `off:NAME`, or `set:PLACE:SEVERITY`,
// behind which options in JSON may stand. The values come by hand from the same guide.
static SETTINGS: [&str; 48] = [
    ". => a.js => module inline warn off[] off[]",
    ". => a.mjs => module inline warn off[] off[]",
    ". => a.cjs => commonjs inline warn off[] off[]",
    ". => src/a.b.cjs => commonjs inline warn off[] off[]",
    "module => a.cjs => module inline warn off[] off[]",
    "script => a.mjs => script inline warn off[] off[]",
    "script ; commonjs => a.js => commonjs inline warn off[] off[]",
    "commonjs ; . ; script => a.js => script inline warn off[] off[]",
    "files:**/*.mjs script => a.js => module inline warn off[] off[]",
    "files:**/*.mjs script => a.mjs => script inline warn off[] off[]",
    "files:**/*.ts script => a.ts => script inline warn off[] off[]",
    "fixed => a.js => module fixed warn off[] off[]",
    "fixed ; inline => a.js => module inline warn off[] off[]",
    "fixed ; script => a.js => script fixed warn off[] off[]",
    "unused:error => a.js => module inline error off[] off[]",
    "unused:off => a.js => module inline off off[] off[]",
    "unused:off ; unused:error => a.js => module inline error off[] off[]",
    "unused:error ; unused:off => a.js => module inline off off[] off[]",
    "unused:error ; fixed => a.js => module fixed error off[] off[]",
    "set:0:error => a.js => module inline warn error[] off[]",
    "set:1:warn => a.js => module inline warn off[] warn[]",
    "set:1:warn set:0:error:[1] => a.js => module inline warn error[1] warn[]",
    r#"set:0:error:["smart"] ; set:0:warn => a.js => module inline warn warn["smart"] off[]"#,
    r#"set:0:error:["smart"] ; set:0:off => a.js => module inline warn off["smart"] off[]"#,
    r#"set:0:error:["smart"] ; set:0:off ; set:0:error => a.js => module inline warn error["smart"] off[]"#,
    r#"set:1:warn:["always",{"a":1}] ; set:1:error:[2] => a.js => module inline warn off[] error[2]"#,
    r#"set:1:warn:[2] ; set:1:error:["always",{"a":1}] => a.js => module inline warn off[] error["always",{"a":1}]"#,
    "set:0:error:[1] ; set:1:warn:[2] => a.js => module inline warn error[1] warn[2]",
    "set:0:error:[1] ; set:0:warn:[2] ; set:0:off => a.js => module inline warn off[2] off[]",
    "set:0:warn ; set:0:error:[1] => a.js => module inline warn error[1] off[]",
    "set:2:error => a.js => module inline warn off[] off[]",
    "files:*.ts set:0:error ; . => a.js => module inline warn off[] off[]",
    "files:*.ts set:0:error ; . => a.ts => module inline warn error[] off[]",
    "files:*.ts set:0:error ; set:0:warn => a.ts => module inline warn warn[] off[]",
    "set:0:warn ; files:*.ts set:0:error => a.ts => module inline warn error[] off[]",
    "ignores:src/** set:0:error => src/a.js => module inline warn off[] off[]",
    "ignores:src/** set:0:error => a.js => module inline warn error[] off[]",
    "ignores:src/** ignores:!src/a.js set:0:error => src/a.js => module inline warn error[] off[]",
    "files:*.js ignores:a.js script => a.js => module inline warn off[] off[]",
    "files:*.js ignores:a.js script => b.js => script inline warn off[] off[]",
    "alone ignores:b.js ; script => a.js => script inline warn off[] off[]",
    "on:b on:a => a.js => module inline warn a=on b=on off[] off[]",
    "on:a ; off:a => a.js => module inline warn a=off off[] off[]",
    "off:a on:b ; on:a => a.js => module inline warn a=on b=on off[] off[]",
    "on:c on:e ; off:d ; off:b on:e off:c => a.js => module inline warn b=off c=off d=off e=on off[] off[]",
    "on:é on:z on:Z on:_ on:$ => a.js => module inline warn $=on Z=on _=on z=on é=on off[] off[]",
    "on:𝒜 on:ﬀ on:aa on:a => a.js => module inline warn a=on aa=on ﬀ=on 𝒜=on off[] off[]",
    "files:*.ts on:a ; on:b => a.js => module inline warn b=on off[] off[]",
];

fn severity_of(word: &str) -> Option<Severity> {
    match word {
        "warn" => Some(Severity::Warn),
        "error" => Some(Severity::Error),
        _ => None,
    }
}

fn shown_severity(severity: Option<Severity>) -> &'static str {
    match severity {
        None => "off",
        Some(Severity::Warn) => "warn",
        Some(Severity::Error) => "error",
    }
}

/// The change that `PLACE:SEVERITY` or `PLACE:SEVERITY:OPTIONS` is.
fn change_of(alloc: Global, text: &str) -> Result<RuleChange, Fail> {
    let (place, rest) = text.split_once(':').unwrap_or((text, ""));
    let (severity, options) = rest.split_once(':').unwrap_or((rest, ""));
    let options = match Value::from_str(alloc, options) {
        Ok(Value::Array(options)) => Some(Items::from_vec(options)),
        Ok(_other) => None,
        Err(_fault) => None,
    };
    Ok(RuleChange {
        place: place.parse::<u32>().unwrap_or(0),
        severity: severity_of(severity),
        options,
    })
}

/// Adds an element of `files`.
fn add_files(alloc: Global, text: &str, entry: &mut Entry) -> Result<(), Fail> {
    let mut globs = Items::new(alloc);
    for glob in text.split('&') {
        globs.push(Glob::read(alloc, glob)?)?;
    }
    if let Some(files) = &mut entry.files {
        files.push(globs)?;
        return Ok(());
    }
    let mut files = Items::new(alloc);
    files.push(globs)?;
    entry.files = Some(files);
    Ok(())
}

fn add_global(alloc: Global, name: &str, is: GlobalUse, entry: &mut Entry) -> Result<(), Fail> {
    entry.globals.push((Txt::new(alloc, name)?, is))?;
    Ok(())
}

fn add_word(alloc: Global, word: &str, entry: &mut Entry) -> Result<(), Fail> {
    let (key, value) = word.split_once(':').unwrap_or((word, ""));
    match key {
        "alone" => entry.alone = true,
        "module" => entry.source_type = Some(SourceType::Module),
        "commonjs" => entry.source_type = Some(SourceType::Commonjs),
        "script" => entry.source_type = Some(SourceType::Script),
        "inline" => entry.inline = Some(true),
        "fixed" => entry.inline = Some(false),
        "unused" => entry.unused = Some(severity_of(value)),
        "files" => add_files(alloc, value, entry)?,
        "ignores" => entry.ignores.push(Glob::read(alloc, value)?)?,
        "on" => add_global(alloc, value, GlobalUse::On, entry)?,
        "off" => add_global(alloc, value, GlobalUse::Off, entry)?,
        "set" => entry.rules.push(change_of(alloc, value)?)?,
        _ => {}
    }
    Ok(())
}

fn entry_of(alloc: Global, words: &str) -> Result<Entry, Fail> {
    let mut entry = Entry {
        files: None,
        ignores: Items::new(alloc),
        alone: false,
        source_type: None,
        globals: Items::new(alloc),
        inline: None,
        unused: None,
        rules: Items::new(alloc),
    };
    for word in words.split(' ') {
        add_word(alloc, word, &mut entry)?;
    }
    Ok(entry)
}

fn config_of(alloc: Global, text: &str) -> Result<Config, Fail> {
    let mut entries = Vec::new(alloc);
    for words in text.split(" ; ") {
        entries.push(entry_of(alloc, words)?)?;
    }
    Ok(Config::with_built_in(alloc, entries, 2)?)
}

fn mark_of(decision: &Decision) -> char {
    match decision {
        Decision::Lint(_) => '+',
        Decision::Ignored => '-',
        Decision::Unmatched => '?',
        Decision::Outside => '^',
    }
}

/// The first name of the line of which something else becomes than it says.
fn wrong_name<'a>(alloc: Global, line: &'a str) -> Result<Option<&'a str>, Fail> {
    let Some((entries, names)) = line.split_once(" => ") else {
        return Ok(Some(line));
    };
    let config = config_of(alloc, entries)?;
    for word in names.split(' ') {
        if let Some((mark, name)) = split_first(word) {
            if mark_of(&for_name(alloc, &config, name)?) != mark {
                return Ok(Some(word));
            }
        }
    }
    Ok(None)
}

#[test]
fn names_are_decided(rt: HostRuntime) -> Result<(), Fail> {
    let alloc = rt.alloc();
    for line in &DECISIONS {
        assert_eq!(rt; (*line, wrong_name(alloc, line)?), (*line, None));
    }
    Ok(())
}

fn show_rule(alloc: Global, rule: &RuleSetting, text: &mut String) -> Result<(), Fail> {
    text.push_str(" ")?;
    text.push_str(shown_severity(rule.severity))?;
    text.push_str("[")?;
    for (place, option) in rule.options.as_slice().iter().enumerate() {
        if place > 0 {
            text.push_str(",")?;
        }
        text.push_str(option.to_string(alloc)?.as_str())?;
    }
    text.push_str("]")?;
    Ok(())
}

fn shown(alloc: Global, config: &FileConfig) -> Result<String, Fail> {
    let mut text = String::from_str(
        alloc,
        match config.source_type {
            SourceType::Module => "module ",
            SourceType::Commonjs => "commonjs ",
            SourceType::Script => "script ",
        },
    )?;
    text.push_str(if config.inline { "inline " } else { "fixed " })?;
    text.push_str(shown_severity(config.unused))?;
    for (name, is) in config.globals.as_slice() {
        text.push_str(" ")?;
        text.push_str(name.as_str())?;
        text.push_str(if *is == GlobalUse::On { "=on" } else { "=off" })?;
    }
    for rule in config.rules.as_slice() {
        show_rule(alloc, rule, &mut text)?;
    }
    Ok(text)
}

/// What is set by the entries of the line for its name.
fn settings_of(alloc: Global, entries: &str, name: &str) -> Result<String, Fail> {
    match for_name(alloc, &config_of(alloc, entries)?, name)? {
        Decision::Lint(config) => shown(alloc, &config),
        _ => Ok(String::from_str(alloc, "nothing")?),
    }
}

#[test]
fn entries_are_laid_over_each_other(rt: HostRuntime) -> Result<(), Fail> {
    let alloc = rt.alloc();
    for line in &SETTINGS {
        let (entries, rest) = line.split_once(" => ").unwrap_or((line, ""));
        let (name, said) = rest.split_once(" => ").unwrap_or((rest, ""));
        assert_eq!(rt;
            (*line, settings_of(alloc, entries, name)?.as_str()),
            (*line, said)
        );
    }
    Ok(())
}
