//! What entries set for a file, laid over each other.
ghost use Rattle.std.specs.Prelude.{◌≡◌, map, replicate, IfOk, OnOk};
ghost use Rattle.std.specs.List.{filter};
ghost use Rattle.std.specs.Str.{chars};
ghost use Rattle.es_config.specs.Drafts.{set_in};
ghost use Rattle.es_config.specs.Entries.{change_of, layer_of, layers_of};
ghost use Rattle.es_config.specs.Laying.{all_laid, changed, defaults, laid, with_change, with_changes};
ghost use Rattle.es_settings.specs.Settings.{unset};
ghost use Rattle.es_config.specs.Outcomes.{settings_for};
ghost use Rattle.es_settings.specs.Settings.{setting_of, settings_of};
ghost use Rattle.es_config.specs.Standing.{is_for};

use crate::entry::{Entry, RuleChange};
use crate::standing::is_for;
use es_settings::{FileConfig, GlobalUse, RuleSetting, add_copies, copy_options, last_of_each};
use es_text::{Items, NoMemory, Severity, SourceType, Txt};
use std::alloc::Global;

/// What is set so far, with all that was said of global variables.
#[derive(Drop)]
struct Draft {
    source_type: SourceType,
    globals: Vec<(Txt, GlobalUse)>,
    inline: bool,
    unused: Option<Severity>,
    rules: Vec<RuleSetting>,
}

/// So many rules that are off, without options.
fn unset_rules(alloc: Global, count: u32) -> Result<Vec<RuleSetting>, NoMemory>
    ensures { IfOk result (λ rules. map setting_of rules.items ≡ replicate count unset) }
{
    let mut rules = Vec::with_capacity(alloc, count as usize)?;
    for _ in 0..count {
        rules.push(RuleSetting {
            severity: None,
            options: Items::new(alloc),
        })?;
    }
    Ok(rules)
}

/// What is set where no entry sets anything.
fn defaults(alloc: Global, count: u32) -> Result<Draft, NoMemory>
    ensures { IfOk result (λ draft. set_in draft ≡ defaults count) }
{
    Ok(Draft {
        source_type: SourceType::Module,
        globals: Vec::new(alloc),
        inline: true,
        unused: Some(Severity::Warn),
        rules: unset_rules(alloc, count)?,
    })
}

/// Changes a rule's setting.
fn change(alloc: Global, change: &RuleChange, rule: &mut RuleSetting) -> Result<(), NoMemory>
    ensures { OnOk result (setting_of rule.new ≡ changed (setting_of rule.old) (change_of change.now)) }
{
    if let Some(options) = &change.options {
        rule.options = Items::from_vec(copy_options(alloc, options.as_slice())?);
    }
    rule.severity = change.severity;
    Ok(())
}

/// Changes the setting of the rule at the place of the change, if there is one.
fn change_one(
    alloc: Global,
    given: &RuleChange,
    rules: &mut Vec<RuleSetting>,
) -> Result<(), NoMemory>
    ensures { OnOk result (map setting_of rules.new.items
        ≡ with_change (map setting_of rules.old.items) (change_of given.now)) }
{
    let place = given.place as usize;
    if place >= rules.len() {
        return Ok(());
    }
    change(alloc, given, &mut rules[place])?;
    Ok(())
}

/// Changes the settings of rules, each at its place.
fn change_all(
    alloc: Global,
    changes: &[RuleChange],
    rules: &mut Vec<RuleSetting>,
) -> Result<(), NoMemory>
    ensures { OnOk result (map setting_of rules.new.items
        ≡ with_changes (map setting_of rules.old.items) (map change_of changes.now)) }
{
    for given in changes {
        change_one(alloc, given, rules)?;
    }
    Ok(())
}

/// Lays an entry over what is set.
fn lay(alloc: Global, entry: &Entry, draft: &mut Draft) -> Result<(), NoMemory>
    ensures { OnOk result (set_in draft.new ≡ laid (set_in draft.old) (layer_of entry.now)) }
{
    draft.source_type = entry.source_type.unwrap_or(draft.source_type);
    draft.inline = entry.inline.unwrap_or(draft.inline);
    draft.unused = entry.unused.unwrap_or(draft.unused);
    add_copies(alloc, entry.globals.as_slice(), &mut draft.globals)?;
    change_all(alloc, entry.rules.as_slice(), &mut draft.rules)
}

/// Lays the entries that are for a file with this name over what is set, in their order.
fn lay_all(alloc: Global, entries: &[Entry], name: &str, draft: &mut Draft) -> Result<(), NoMemory>
    ensures { OnOk result (set_in draft.new
        ≡ all_laid (set_in draft.old) (filter (is_for (chars name.now)) (layers_of entries.now))) }
{
    for entry in entries {
        if is_for(entry, name) {
            lay(alloc, entry, draft)?;
        }
    }
    Ok(())
}

/// What the entries set for a file with this name, where there are so many rules.
pub fn settings_for(
    alloc: Global,
    entries: &[Entry],
    count: u32,
    name: &str,
) -> Result<FileConfig, NoMemory>
    ensures { IfOk result (λ config.
        settings_of config ≡ settings_for count (layers_of entries.now) (chars name.now)) }
{
    let mut draft = defaults(alloc, count)?;
    lay_all(alloc, entries, name, &mut draft)?;
    let Draft {
        source_type,
        globals,
        inline,
        unused,
        rules,
    } = draft;
    Ok(FileConfig {
        source_type,
        globals: Items::from_vec(last_of_each(alloc, globals)?),
        inline,
        unused,
        rules: Items::from_vec(rules),
    })
}
