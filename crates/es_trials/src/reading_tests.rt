//! What configurations set without rules, and their first faults.
use es_config::{Config, ConfigFault, Entry, read};
use es_globs::Glob;
use es_host::{EachNode, Kit};
use es_rules_plain::Semi;
use es_settings::GlobalUse;
use es_text::{Items, Severity, SourceType};
use std::alloc::Global;
use std::test::Fail;

// A configuration, and behind ` => ` its entries with ` ; ` between them. What an entry sets is told by words: the globs
// of `files` and `ignores`, each as `g`, or `!` where it is negated, `alone`, a source type, names that are global
// variables or not, `inline` or `fixed`, how serious it is that a comment disables nothing, and `.` where it sets
// nothing. The values come by hand from ESLint's guide, "Configuration files".
static READ: [&str; 62] = [
    r#"[] => "#,
    r#"{} => ."#,
    r#"[{}] => ."#,
    r#" [ { } , { } ] => . ; ."#,
    r#"[{},{},{}] => . ; . ; ."#,
    r#"[{"files":["a"]}] => files:g"#,
    r#"{"files":["a"]} => files:g"#,
    r#"[{"files":["a","!b","c"]}] => files:g,!,g"#,
    r#"[{"files":[["a","!b"],"c"]}] => files:g&!,g"#,
    r#"[{"files":[["a"]]}] => files:g"#,
    r#"[{"files":[["!a","!b","!c"],["d","e"]]}] => files:!&!&!,g&g"#,
    r#"[{"ignores":[]}] => alone"#,
    r#"[{"ignores":["a","!b"]}] => ignores:g,! alone"#,
    r#"[{"ignores":["a"],"name":"b"}] => ignores:g alone"#,
    r#"[{"name":"b","ignores":["a"]}] => ignores:g alone"#,
    r#"[{"name":"b"}] => ."#,
    r#"[{"name":""}] => ."#,
    r#"[{"ignores":["a"],"settings":{}}] => ignores:g"#,
    r#"[{"ignores":["a"],"rules":{}}] => ignores:g"#,
    r#"[{"ignores":["a"],"languageOptions":{}}] => ignores:g"#,
    r#"[{"ignores":["a"],"linterOptions":{}}] => ignores:g"#,
    r#"[{"ignores":["a"],"files":["b"]}] => files:g ignores:g"#,
    r#"[{"ignores":["a"],"files":["b"],"name":"c"}] => files:g ignores:g"#,
    r#"[{"rules":{}}] => ."#,
    r#"[{"settings":{"a":[1.5,{"b":null}]}}] => ."#,
    r#"[{"languageOptions":{}}] => ."#,
    r#"[{"languageOptions":{"sourceType":"module"}}] => module"#,
    r#"[{"languageOptions":{"sourceType":"commonjs"}}] => commonjs"#,
    r#"[{"languageOptions":{"sourceType":"script"}}] => script"#,
    r#"[{"languageOptions":{"ecmaVersion":"latest"}}] => ."#,
    r#"[{"languageOptions":{"ecmaVersion":3}}] => ."#,
    r#"[{"languageOptions":{"ecmaVersion":2022}}] => ."#,
    r#"[{"languageOptions":{"ecmaVersion":2030}}] => ."#,
    r#"[{"languageOptions":{"ecmaVersion":1000,"sourceType":"script"}}] => script"#,
    r#"[{"languageOptions":{"globals":{}}}] => ."#,
    r#"[{"languageOptions":{"globals":{"a":true}}}] => on:a"#,
    r#"[{"languageOptions":{"globals":{"a":false}}}] => on:a"#,
    r#"[{"languageOptions":{"globals":{"a":"readonly"}}}] => on:a"#,
    r#"[{"languageOptions":{"globals":{"a":"readable"}}}] => on:a"#,
    r#"[{"languageOptions":{"globals":{"a":"writable"}}}] => on:a"#,
    r#"[{"languageOptions":{"globals":{"a":"writeable"}}}] => on:a"#,
    r#"[{"languageOptions":{"globals":{"a":"off"}}}] => off:a"#,
    r#"[{"languageOptions":{"globals":{"b":true,"a":"off","c":false}}}] => off:a on:b on:c"#,
    r#"[{"languageOptions":{"globals":{"é":true,"z":true,"Z":"off"}}}] => off:Z on:z on:é"#,
    r#"[{"languageOptions":{"globals":{"\u0061":true}}}] => on:a"#,
    r#"[{"linterOptions":{}}] => ."#,
    r#"[{"linterOptions":{"noInlineConfig":true}}] => fixed"#,
    r#"[{"linterOptions":{"noInlineConfig":false}}] => inline"#,
    r#"[{"linterOptions":{"reportUnusedDisableDirectives":true}}] => unused:warn"#,
    r#"[{"linterOptions":{"reportUnusedDisableDirectives":false}}] => unused:off"#,
    r#"[{"linterOptions":{"reportUnusedDisableDirectives":"off"}}] => unused:off"#,
    r#"[{"linterOptions":{"reportUnusedDisableDirectives":"warn"}}] => unused:warn"#,
    r#"[{"linterOptions":{"reportUnusedDisableDirectives":"error"}}] => unused:error"#,
    r#"[{"linterOptions":{"reportUnusedDisableDirectives":0}}] => unused:off"#,
    r#"[{"linterOptions":{"reportUnusedDisableDirectives":1}}] => unused:warn"#,
    r#"[{"linterOptions":{"reportUnusedDisableDirectives":2}}] => unused:error"#,
    r#"[{"linterOptions":{"noInlineConfig":true,"reportUnusedDisableDirectives":2}}] => fixed unused:error"#,
    r#"[{"name":1,"name":"a"}] => ."#,
    r#"[{"languageOptions":{"sourceType":"x"},"languageOptions":{"sourceType":"script"}}] => script"#,
    r#"[{"languageOptions":{"globals":{"a":true,"a":"off"}}}] => off:a"#,
    r#"[{"\u0066iles":["a"]}] => files:g"#,
    r#"[{"languageOptions":{"sourceType":"script"}},{"ignores":["a"]},{"linterOptions":{"noInlineConfig":true}}] => script ; ignores:g alone ; fixed"#,
];

// A configuration, and behind ` => ` its first fault, and where it stands. The values come by hand from the same guide and
// from RFC 6901.
static FAULTS: [&str; 96] = [
    r#" => NotJson at "#,
    r#"x => NotJson at "#,
    r#"[ => NotJson at "#,
    r#"[{}] {} => NotJson at "#,
    r#"[{},] => NotJson at "#,
    r#"[{"a":}] => NotJson at "#,
    r#"[{"name":"\ud800"}] => NotJson at "#,
    r#"[{"name":1e999}] => NotJson at "#,
    r#"[{"settings":{"a":[01]}}] => NotJson at "#,
    r#"// a => NotJson at "#,
    r#"null => WrongShape at "#,
    r#"true => WrongShape at "#,
    r#"0 => WrongShape at "#,
    r#""a" => WrongShape at "#,
    r#"[null] => WrongShape at /0"#,
    r#"[{},1] => WrongShape at /1"#,
    r#"[{},{},"a"] => WrongShape at /2"#,
    r#"[[]] => WrongShape at /0"#,
    r#"[{},{},{},{},{},{},{},{},{},{},false] => WrongShape at /10"#,
    r#"{"plugins":{}} => UnknownKey at /0/plugins"#,
    r#"[{"plugins":{}}] => UnknownKey at /0/plugins"#,
    r#"[{},{"processor":null}] => UnknownKey at /1/processor"#,
    r#"[{"":1}] => UnknownKey at /0/"#,
    r#"[{"a/b":1}] => UnknownKey at /0/a~1b"#,
    r#"[{"a~b":1}] => UnknownKey at /0/a~0b"#,
    r#"[{"~1/~0":1}] => UnknownKey at /0/~01~1~00"#,
    r#"[{"é✖":1}] => UnknownKey at /0/é✖"#,
    r#"[{"Files":["a"]}] => UnknownKey at /0/Files"#,
    r#"[{"file":["a"]}] => UnknownKey at /0/file"#,
    r#"[{"zz":1,"files":1}] => WrongShape at /0/files"#,
    r#"[{"name":1,"files":1}] => WrongShape at /0/files"#,
    r#"[{"zz":1,"Zz":1}] => UnknownKey at /0/Zz"#,
    r#"[{"name":1},{"files":1}] => WrongShape at /0/name"#,
    r#"[{"name":"a","name":1}] => WrongShape at /0/name"#,
    r#"[{"name":null}] => WrongShape at /0/name"#,
    r#"{"name":["a"]} => WrongShape at /0/name"#,
    r#"[{"settings":[]}] => WrongShape at /0/settings"#,
    r#"[{"settings":"a"}] => WrongShape at /0/settings"#,
    r#"[{"files":"a"}] => WrongShape at /0/files"#,
    r#"[{"files":[]}] => WrongShape at /0/files"#,
    r#"[{"files":{}}] => WrongShape at /0/files"#,
    r#"[{"files":[1]}] => WrongShape at /0/files/0"#,
    r#"[{"files":["a",[]]}] => WrongShape at /0/files/1"#,
    r#"[{"files":["a",{}]}] => WrongShape at /0/files/1"#,
    r#"[{"files":["a",["b",null]]}] => WrongShape at /0/files/1/1"#,
    r#"[{"files":[["a",["b"]]]}] => WrongShape at /0/files/0/1"#,
    r#"[{"files":["["]}] => BadGlob at /0/files/0"#,
    r#"[{"files":["a",""]}] => BadGlob at /0/files/1"#,
    r#"[{"files":["a",["b","c","!"]]}] => BadGlob at /0/files/1/2"#,
    r#"[{"files":["a","{b","["]}] => BadGlob at /0/files/1"#,
    r#"[{"files":["a",1,"["]}] => WrongShape at /0/files/1"#,
    r#"[{"files":["a","[",1]}] => BadGlob at /0/files/1"#,
    r#"[{"ignores":"a"}] => WrongShape at /0/ignores"#,
    r#"[{"ignores":[["a"]]}] => WrongShape at /0/ignores/0"#,
    r#"[{"ignores":["a","./"]}] => BadGlob at /0/ignores/1"#,
    r#"[{"ignores":["a",true]}] => WrongShape at /0/ignores/1"#,
    r#"[{"ignores":["?(a)"]}] => BadGlob at /0/ignores/0"#,
    r#"[{"languageOptions":[]}] => WrongShape at /0/languageOptions"#,
    r#"[{"languageOptions":{"parser":{}}}] => UnknownKey at /0/languageOptions/parser"#,
    r#"[{"languageOptions":{"ecmaVersion":2}}] => WrongShape at /0/languageOptions/ecmaVersion"#,
    r#"[{"languageOptions":{"ecmaVersion":2031}}] => WrongShape at /0/languageOptions/ecmaVersion"#,
    r#"[{"languageOptions":{"ecmaVersion":6.0}}] => WrongShape at /0/languageOptions/ecmaVersion"#,
    r#"[{"languageOptions":{"ecmaVersion":6e0}}] => WrongShape at /0/languageOptions/ecmaVersion"#,
    r#"[{"languageOptions":{"ecmaVersion":-6}}] => WrongShape at /0/languageOptions/ecmaVersion"#,
    r#"[{"languageOptions":{"ecmaVersion":"2022"}}] => WrongShape at /0/languageOptions/ecmaVersion"#,
    r#"[{"languageOptions":{"ecmaVersion":18446744073709551619}}] => WrongShape at /0/languageOptions/ecmaVersion"#,
    r#"[{"languageOptions":{"sourceType":"Module"}}] => WrongShape at /0/languageOptions/sourceType"#,
    r#"[{"languageOptions":{"sourceType":true}}] => WrongShape at /0/languageOptions/sourceType"#,
    r#"[{"languageOptions":{"globals":["a"]}}] => WrongShape at /0/languageOptions/globals"#,
    r#"[{"languageOptions":{"globals":{"a":"on"}}}] => WrongShape at /0/languageOptions/globals/a"#,
    r#"[{"languageOptions":{"globals":{"a":null}}}] => WrongShape at /0/languageOptions/globals/a"#,
    r#"[{"languageOptions":{"globals":{"a":1}}}] => WrongShape at /0/languageOptions/globals/a"#,
    r#"[{"languageOptions":{"globals":{"b":1,"a":true,"a/":0}}}] => WrongShape at /0/languageOptions/globals/a~1"#,
    r#"[{"languageOptions":{"sourceType":1,"globals":{"a":1}}}] => WrongShape at /0/languageOptions/globals/a"#,
    r#"[{"linterOptions":null}] => WrongShape at /0/linterOptions"#,
    r#"[{"linterOptions":{"reportUnusedInlineConfigs":1}}] => UnknownKey at /0/linterOptions/reportUnusedInlineConfigs"#,
    r#"[{"linterOptions":{"noInlineConfig":"true"}}] => WrongShape at /0/linterOptions/noInlineConfig"#,
    r#"[{"linterOptions":{"noInlineConfig":1}}] => WrongShape at /0/linterOptions/noInlineConfig"#,
    r#"[{"linterOptions":{"reportUnusedDisableDirectives":3}}] => WrongShape at /0/linterOptions/reportUnusedDisableDirectives"#,
    r#"[{"linterOptions":{"reportUnusedDisableDirectives":1.0}}] => WrongShape at /0/linterOptions/reportUnusedDisableDirectives"#,
    r#"[{"linterOptions":{"reportUnusedDisableDirectives":-0}}] => WrongShape at /0/linterOptions/reportUnusedDisableDirectives"#,
    r#"[{"linterOptions":{"reportUnusedDisableDirectives":1e0}}] => WrongShape at /0/linterOptions/reportUnusedDisableDirectives"#,
    r#"[{"linterOptions":{"reportUnusedDisableDirectives":"Warn"}}] => WrongShape at /0/linterOptions/reportUnusedDisableDirectives"#,
    r#"[{"linterOptions":{"reportUnusedDisableDirectives":["warn"]}}] => WrongShape at /0/linterOptions/reportUnusedDisableDirectives"#,
    r#"[{"rules":[]}] => WrongShape at /0/rules"#,
    r#"[{"rules":"off"}] => WrongShape at /0/rules"#,
    r#"[{"rules":{"semi":2}}] => UnknownRule at /0/rules/semi"#,
    r#"[{"rules":{"semi":{}}}] => UnknownRule at /0/rules/semi"#,
    r#"[{"rules":{"z":1,"a/b":1}}] => UnknownRule at /0/rules/a~1b"#,
    r#"[{"rules":{"a":1},"plugins":1}] => UnknownKey at /0/plugins"#,
    r#"[{"rules":{"a":1},"settings":1}] => UnknownRule at /0/rules/a"#,
    r#"[{"ignores":["a"]},{"files":["a"],"rules":{"b":1}}] => UnknownRule at /1/rules/b"#,
    r#"[{"linterOptions":{"noInlineConfig":1},"languageOptions":{"globals":1}}] => WrongShape at /0/languageOptions/globals"#,
    r#"[{"linterOptions":1,"languageOptions":{}}] => WrongShape at /0/linterOptions"#,
    r#"[{"settings":1,"rules":1,"name":1,"linterOptions":1,"languageOptions":1,"ignores":1,"files":1}] => WrongShape at /0/files"#,
    r#"[{"settings":1,"rules":1,"name":1,"linterOptions":1,"languageOptions":1,"ignores":1}] => WrongShape at /0/ignores"#,
];

/// Puts a word at the end, parted from the one in front.
fn add_word(text: &mut String, word: &str) -> Result<(), Fail> {
    if !text.is_empty() && !text.ends_with("; ") {
        text.push_str(" ")?;
    }
    text.push_str(word)?;
    Ok(())
}

/// Puts globs at the end, with this between them.
fn add_globs(text: &mut String, globs: &Items<Glob>, between: &str) -> Result<(), Fail> {
    let mut first = true;
    for glob in globs.as_slice() {
        if !first {
            text.push_str(between)?;
        }
        first = false;
        text.push_str(if glob.is_negated() { "!" } else { "g" })?;
    }
    Ok(())
}

fn add_lists(text: &mut String, entry: &Entry) -> Result<(), Fail> {
    if let Some(files) = &entry.files {
        add_word(text, "files:")?;
        let mut first = true;
        for globs in files.as_slice() {
            if !first {
                text.push_str(",")?;
            }
            first = false;
            add_globs(text, globs, "&")?;
        }
    }
    if entry.ignores.len() > 0 {
        add_word(text, "ignores:")?;
        add_globs(text, &entry.ignores, ",")?;
    }
    Ok(())
}

fn severity_name(severity: Option<Severity>) -> &'static str {
    match severity {
        None => "off",
        Some(Severity::Warn) => "warn",
        Some(Severity::Error) => "error",
    }
}

fn add_options(text: &mut String, entry: &Entry) -> Result<(), Fail> {
    match entry.source_type {
        None => {}
        Some(SourceType::Module) => add_word(text, "module")?,
        Some(SourceType::Commonjs) => add_word(text, "commonjs")?,
        Some(SourceType::Script) => add_word(text, "script")?,
    }
    for (name, said) in entry.globals.as_slice() {
        let on = *said == GlobalUse::On;
        add_word(text, if on { "on:" } else { "off:" })?;
        text.push_str(name.as_str())?;
    }
    match entry.inline {
        None => {}
        Some(true) => add_word(text, "inline")?,
        Some(false) => add_word(text, "fixed")?,
    }
    if let Some(unused) = entry.unused {
        add_word(text, "unused:")?;
        text.push_str(severity_name(unused))?;
    }
    Ok(())
}

/// What the entries set, without those that stand in front of each configuration's own.
fn shown(alloc: Global, config: &Config) -> Result<String, Fail> {
    let mut text = String::new(alloc);
    for (index, entry) in config.entries().iter().enumerate() {
        if index < 3 {
            continue;
        }
        if index > 3 {
            text.push_str(" ; ")?;
        }
        let before = text.len();
        add_lists(&mut text, entry)?;
        if entry.alone {
            add_word(&mut text, "alone")?;
        }
        add_options(&mut text, entry)?;
        if text.len() == before {
            text.push_str(".")?;
        }
    }
    Ok(text)
}

/// What the configuration comes to where no rule is known.
fn outcome(alloc: Global, config: &str) -> Result<String, Fail> {
    let none: Vec<EachNode<Semi>> = Vec::new(alloc);
    let kit = Kit::new(none);
    match read(alloc, config.as_bytes(), &kit) {
        Ok(config) => shown(alloc, &config),
        Err(ConfigFault::NoMemory) => Ok(String::from_str(alloc, "NoMemory")?),
        Err(ConfigFault::Bad { kind, pointer }) => {
            let pointer = pointer.as_str();
            Ok(format!(in alloc; "{kind:?} at {pointer}")?)
        }
    }
}

/// The first row whose configuration comes to something else than the row says.
fn wrong_row<'a>(alloc: Global, rows: &[&'a str]) -> Result<Option<&'a str>, Fail> {
    for row in rows {
        let Some((config, wanted)) = row.split_once(" => ") else {
            return Ok(Some(*row));
        };
        if outcome(alloc, config)?.as_str() != wanted {
            return Ok(Some(*row));
        }
    }
    Ok(None)
}

#[test]
fn configurations_are_read(rt: HostRuntime) -> Result<(), Fail> {
    assert_eq!(rt; wrong_row(rt.alloc(), &READ)?, None);
    Ok(())
}

#[test]
fn first_faults_are_told(rt: HostRuntime) -> Result<(), Fail> {
    assert_eq!(rt; wrong_row(rt.alloc(), &FAULTS)?, None);
    Ok(())
}
