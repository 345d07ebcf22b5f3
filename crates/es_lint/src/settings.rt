//! What the comments of a text lay over what is set for it.
ghost use Rattle.std.specs.Prelude.{◌≡◌, IfOk, length, map};
ghost use Rattle.es_settings.specs.Settings.{setting_of, settings_of};
ghost use Rattle.es_lint.specs.Laid.{rules_under, setting_under, settings_under, severity_under};

use crate::globals::globals_under;
use es_messages::{DirectiveList, Entry, is_same};
use es_settings::{FileConfig, RuleSetting};
use es_text::{Items, NoMemory, Severity, Txt};
use std::alloc::Global;

/// The severity of the rule of this id under the entries.
fn severity_under(entries: &[Entry], id: &Txt, severity: Option<Severity>) -> Option<Severity>
    ensures { result ≡ severity_under entries.now id.now severity }
{
    let mut last = severity;
    for entry in entries {
        if is_same(&entry.rule, id) {
            last = entry.severity;
        }
    }
    last
}

/// What is set for the rule of this id under the entries.
fn setting_under(
    alloc: Global,
    entries: &[Entry],
    id: &Txt,
    setting: &RuleSetting,
) -> Result<RuleSetting, NoMemory>
    ensures { IfOk result (λ made.
        setting_of made ≡ setting_under entries.now id.now (setting_of setting.now)) }
{
    let copy = setting.copy(alloc)?;
    Ok(RuleSetting {
        severity: severity_under(entries, id, copy.severity),
        options: copy.options,
    })
}

/// What is set for each of the rules with these ids under the entries.
fn rules_under(
    alloc: Global,
    entries: &[Entry],
    ids: &[Txt],
    settings: &[RuleSetting],
) -> Result<Vec<RuleSetting>, NoMemory>
    requires { length ids.now ≡ length settings.now }
    ensures { IfOk result (λ rules.
        map setting_of rules.items ≡ rules_under entries.now ids.now (map setting_of settings.now)) }
{
    let mut rules = Vec::with_capacity(alloc, settings.len())?;
    for (place, setting) in settings.iter().enumerate() {
        rules.push(setting_under(alloc, entries, &ids[place], setting)?)?;
    }
    Ok(rules)
}

/// What is set for a text whose comments say this, where the rules have these ids.
pub fn settings_under(
    alloc: Global,
    list: &DirectiveList,
    ids: &[Txt],
    config: &FileConfig,
) -> Result<FileConfig, NoMemory>
    requires { length ids.now ≡ length config.now.rules }
    ensures { IfOk result (λ made.
        settings_of made ≡ settings_under list.now ids.now (settings_of config.now)) }
{
    let globals = globals_under(alloc, list.globals.as_slice(), config.globals.as_slice())?;
    let rules = rules_under(alloc, list.entries.as_slice(), ids, config.rules.as_slice())?;
    Ok(FileConfig {
        source_type: config.source_type,
        globals: Items::from_vec(globals),
        inline: config.inline,
        unused: config.unused,
        rules: Items::from_vec(rules),
    })
}
