//! What configurations set for rules, by the verdicts of the rules themselves.
use es_config::{Config, ConfigFault, RuleChange, read};
use es_host::{EachNode, Kit, Rule};
use es_rules_plain::{Eqeqeq, NoDebugger, NoRestrictedSyntax, Semi};
use es_text::Severity;
use std::alloc::Global;
use std::test::Fail;

// What `rules` of an only entry says, and behind ` => ` what is set, where the rules at the places from 0 are eqeqeq,
// no-restricted-syntax, no-debugger and semi: severities, with options where some are given; or the first fault and
// where it stands. The values come by hand from ESLint's guide, "Configuration files", and from the rules' pages.
static RULES: [&str; 48] = [
    r#"{} => "#,
    r#"{"eqeqeq":"off"} => 0:off"#,
    r#"{"eqeqeq":"warn"} => 0:warn"#,
    r#"{"eqeqeq":"error"} => 0:error"#,
    r#"{"eqeqeq":0} => 0:off"#,
    r#"{"eqeqeq":1} => 0:warn"#,
    r#"{"eqeqeq":2} => 0:error"#,
    r#"{"eqeqeq":["error"]} => 0:error"#,
    r#"{"eqeqeq":[0]} => 0:off"#,
    r#"{"eqeqeq":["error","smart"]} => 0:error["smart"]"#,
    r#"{"eqeqeq":["off","smart"]} => 0:off["smart"]"#,
    r#"{"eqeqeq":[2,"always"]} => 0:error["always"]"#,
    r#"{"semi":1,"eqeqeq":2,"no-debugger":0} => 0:error 2:off 3:warn"#,
    r#"{"no-restricted-syntax":[1,"A",{"selector":"B"}]} => 1:warn["A",{"selector":"B"}]"#,
    r#"{"no-restricted-syntax":[1,{"selector":"B","message":"c"}]} => 1:warn[{"message":"c","selector":"B"}]"#,
    r#"{"no-restricted-syntax":2} => 1:error"#,
    r#"{"semi":["error","always"]} => 3:error["always"]"#,
    r#"{"eqeqeq":1,"eqeqeq":2} => 0:error"#,
    r#"{"eqeqeq":[1,"x"],"eqeqeq":2} => 0:error"#,
    r#"{"semi":["error","never"]} => BadOption at /0/rules/semi"#,
    r#"{"eqeqeq":["error","never"]} => BadOption at /0/rules/eqeqeq"#,
    r#"{"eqeqeq":["off","never"]} => BadOption at /0/rules/eqeqeq"#,
    r#"{"eqeqeq":["error","smart","smart"]} => BadOption at /0/rules/eqeqeq"#,
    r#"{"no-debugger":["error",{}]} => BadOption at /0/rules/no-debugger"#,
    r#"{"no-restricted-syntax":[2,"[a"]} => BadSelector at /0/rules/no-restricted-syntax"#,
    r#"{"no-restricted-syntax":[2,"A",{"selector":"["}]} => BadSelector at /0/rules/no-restricted-syntax"#,
    r#"{"no-restricted-syntax":[2,1,"["]} => BadOption at /0/rules/no-restricted-syntax"#,
    r#"{"no-restricted-syntax":[2,"[",1]} => BadSelector at /0/rules/no-restricted-syntax"#,
    r#"{"eqeqeq":"Error"} => BadSeverity at /0/rules/eqeqeq"#,
    r#"{"eqeqeq":3} => BadSeverity at /0/rules/eqeqeq"#,
    r#"{"eqeqeq":-1} => BadSeverity at /0/rules/eqeqeq"#,
    r#"{"eqeqeq":1.0} => BadSeverity at /0/rules/eqeqeq"#,
    r#"{"eqeqeq":1e0} => BadSeverity at /0/rules/eqeqeq"#,
    r#"{"eqeqeq":-0} => BadSeverity at /0/rules/eqeqeq"#,
    r#"{"eqeqeq":true} => BadSeverity at /0/rules/eqeqeq"#,
    r#"{"eqeqeq":null} => BadSeverity at /0/rules/eqeqeq"#,
    r#"{"eqeqeq":{}} => BadSeverity at /0/rules/eqeqeq"#,
    r#"{"eqeqeq":[]} => BadSeverity at /0/rules/eqeqeq"#,
    r#"{"eqeqeq":[[1]]} => BadSeverity at /0/rules/eqeqeq"#,
    r#"{"eqeqeq":["smart"]} => BadSeverity at /0/rules/eqeqeq"#,
    r#"{"eqeqeq":["smart","error"]} => BadSeverity at /0/rules/eqeqeq"#,
    r#"{"eqeqeq":[1.0,"never"]} => BadSeverity at /0/rules/eqeqeq"#,
    r#"{"no-alert":"error"} => UnknownRule at /0/rules/no-alert"#,
    r#"{"no-alert":[]} => UnknownRule at /0/rules/no-alert"#,
    r#"{"Semi":1} => UnknownRule at /0/rules/Semi"#,
    r#"{"a/b":1,"semi":9} => UnknownRule at /0/rules/a~1b"#,
    r#"{"semi":9,"eqeqeq":["error","never"]} => BadOption at /0/rules/eqeqeq"#,
    r#"{"semi":["error","never"],"no-debugger":"x"} => BadSeverity at /0/rules/no-debugger"#,
];

fn severity_name(severity: Option<Severity>) -> &'static str {
    match severity {
        None => "off",
        Some(Severity::Warn) => "warn",
        Some(Severity::Error) => "error",
    }
}

fn add_change(alloc: Global, change: &RuleChange, text: &mut String) -> Result<(), Fail> {
    if !text.is_empty() {
        text.push_str(" ")?;
    }
    let place = change.place;
    let severity = severity_name(change.severity);
    text.push_str(format!(in alloc; "{place}:{severity}")?.as_str())?;
    if let Some(options) = &change.options {
        let mut between = "[";
        for option in options.as_slice() {
            text.push_str(between)?;
            text.push_str(option.to_string(alloc)?.as_str())?;
            between = ",";
        }
        text.push_str("]")?;
    }
    Ok(())
}

/// What the entries set for rules.
fn changes_shown(alloc: Global, config: &Config) -> Result<String, Fail> {
    let mut text = String::new(alloc);
    for entry in config.entries() {
        for change in entry.rules.as_slice() {
            add_change(alloc, change, &mut text)?;
        }
    }
    Ok(text)
}

/// What a configuration with these rules comes to.
fn outcome<R: Rule>(alloc: Global, kit: &Kit<R>, rules: &str) -> Result<String, Fail> {
    let config = format!(in alloc; "[{{\"rules\":{rules}}}]")?;
    match read(alloc, config.as_str().as_bytes(), kit) {
        Ok(config) => changes_shown(alloc, &config),
        Err(ConfigFault::NoMemory) => Ok(String::from_str(alloc, "NoMemory")?),
        Err(ConfigFault::Bad { kind, pointer }) => {
            let pointer = pointer.as_str();
            Ok(format!(in alloc; "{kind:?} at {pointer}")?)
        }
    }
}

/// The first row whose rules come to something else than the row says.
fn wrong_row<'a, R: Rule>(
    alloc: Global,
    kit: &Kit<R>,
    rows: &[&'a str],
) -> Result<Option<&'a str>, Fail> {
    for row in rows {
        let Some((rules, wanted)) = row.split_once(" => ") else {
            return Ok(Some(*row));
        };
        if outcome(alloc, kit, rules)?.as_str() != wanted {
            return Ok(Some(*row));
        }
    }
    Ok(None)
}

#[test]
fn what_is_set_for_rules(rt: HostRuntime) -> Result<(), Fail> {
    let alloc = rt.alloc();
    let mut rules: Vec<Box<dyn Rule + Send>> = Vec::new(alloc);
    rules.push(Box::new(alloc, EachNode::new(alloc, Eqeqeq::new()))?)?;
    rules.push(Box::new(alloc, EachNode::new(alloc, NoRestrictedSyntax::new(alloc)))?)?;
    rules.push(Box::new(alloc, EachNode::new(alloc, NoDebugger))?)?;
    rules.push(Box::new(alloc, EachNode::new(alloc, Semi))?)?;
    let kit = Kit::new(rules);
    assert_eq!(rt; wrong_row(alloc, &kit, &RULES)?, None);
    Ok(())
}
