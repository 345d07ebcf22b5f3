use crate::{FileConfig, GlobalUse, RuleSetting};
use es_text::{Items, Severity, SourceType, Txt};
use serde_json::Value;
use std::alloc::Global;
use std::test::Fail;

/// A rule's setting with these options, in a JSON array.
fn setting(alloc: Global, severity: Option<Severity>, options: &str) -> Result<RuleSetting, Fail> {
    let options = match Value::from_str(alloc, options)? {
        Value::Array(options) => options,
        _ => Vec::new(alloc),
    };
    Ok(RuleSetting {
        severity,
        options: Items::from_vec(options),
    })
}

/// A configuration with something in each field.
fn config(alloc: Global) -> Result<FileConfig, Fail> {
    let mut globals = Items::new(alloc);
    globals.push((Txt::new(alloc, "a")?, GlobalUse::On))?;
    globals.push((Txt::new(alloc, "b")?, GlobalUse::Off))?;
    let mut rules = Items::new(alloc);
    rules.push(setting(alloc, Some(Severity::Warn), OPTIONS)?)?;
    rules.push(setting(alloc, None, "[]")?)?;
    Ok(FileConfig {
        source_type: SourceType::Script,
        globals,
        inline: false,
        unused: Some(Severity::Error),
        rules,
    })
}

static OPTIONS: &str = r#"["smart",{"a":[null,-1]},true]"#;

/// The options of the setting at this place, in JSON.
fn options(alloc: Global, config: &FileConfig, place: usize) -> Result<String, Fail> {
    let mut text = String::from_str(alloc, "[")?;
    if let Some(setting) = config.rules.as_slice().get(place) {
        for option in setting.options.as_slice() {
            if text.len() > 1 {
                text.push_str(",")?;
            }
            text.push_str(option.to_string(alloc)?.as_str())?;
        }
    }
    text.push_str("]")?;
    Ok(text)
}

#[test]
fn a_copy_is_equal(rt: HostRuntime) -> Result<(), Fail> {
    let alloc = rt.alloc();
    let copy = config(alloc)?.copy(alloc)?;
    assert_eq!(rt; copy.source_type, SourceType::Script);
    assert_eq!(rt; copy.globals.len(), 2);
    for (name, global) in copy.globals.as_slice() {
        assert_eq!(rt; *global == GlobalUse::On, name.as_str() == "a");
    }
    assert_eq!(rt; copy.inline, false);
    assert_eq!(rt; copy.unused, Some(Severity::Error));
    assert_eq!(rt; copy.rules.len(), 2);
    assert_eq!(rt; options(alloc, &copy, 0)?.as_str(), OPTIONS);
    assert_eq!(rt; options(alloc, &copy, 1)?.as_str(), "[]");
    Ok(())
}
