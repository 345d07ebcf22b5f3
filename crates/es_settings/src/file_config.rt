ghost use Rattle.std.specs.Prelude.{◌≡◌, map, IfOk};
ghost use Rattle.es_settings.specs.Settings.{options_of, setting_of, settings_of};

use crate::global_use::GlobalUse;
use crate::globals::add_copies;
use es_text::{Items, NoMemory, Severity, SourceType, Txt};
use serde_json::Value;
use std::alloc::Global;

/// What is set for a rule.
#[derive(Drop)]
pub struct RuleSetting {
    /// How serious its reports are, or `None` where the rule is off.
    pub severity: Option<Severity>,
    /// Its options, as ESLint's configuration has them behind the severity.
    pub options: Items<Value>,
}

/// What is set for a file.
#[derive(Drop)]
pub struct FileConfig {
    /// What it is read as.
    pub source_type: SourceType,
    /// Names that are global variables, or aren't, each once, in the order of their bytes.
    pub globals: Items<(Txt, GlobalUse)>,
    /// Whether comments may change what is set.
    pub inline: bool,
    /// How serious it is that a comment disables nothing, or `None` where that isn't told.
    pub unused: Option<Severity>,
    /// What is set for each rule of a kit, in the kit's order.
    pub rules: Items<RuleSetting>,
}

impl RuleSetting {
    /// An equal setting in memory of its own.
    pub fn copy(&self, alloc: Global) -> Result<RuleSetting, NoMemory>
        ensures { IfOk result (λ copy. setting_of copy ≡ setting_of self.now) }
    {
        Ok(RuleSetting {
            severity: self.severity,
            options: Items::from_vec(copy_options(alloc, self.options.as_slice())?),
        })
    }
}

impl FileConfig {
    /// An equal configuration in memory of its own. Options are equal as the JSON values that they hold.
    pub fn copy(&self, alloc: Global) -> Result<FileConfig, NoMemory>
        ensures { IfOk result (λ copy. settings_of copy ≡ settings_of self.now) }
    {
        Ok(FileConfig {
            source_type: self.source_type,
            globals: Items::from_vec(copy_globals(alloc, self.globals.as_slice())?),
            inline: self.inline,
            unused: self.unused,
            rules: Items::from_vec(copy_rules(alloc, self.rules.as_slice())?),
        })
    }
}

pub fn copy_options(alloc: Global, options: &[Value]) -> Result<Vec<Value>, NoMemory>
    ensures { IfOk result (λ copies. options_of copies.items ≡ options_of options.now) }
{
    let mut copies = Vec::with_capacity(alloc, options.len())?;
    for option in options {
        copies.push(option.clone()?)?;
    }
    Ok(copies)
}

fn copy_globals(
    alloc: Global,
    globals: &[(Txt, GlobalUse)],
) -> Result<Vec<(Txt, GlobalUse)>, NoMemory>
    ensures { IfOk result (λ copies. copies.items ≡ globals.now) }
{
    let mut copies = Vec::with_capacity(alloc, globals.len())?;
    add_copies(alloc, globals, &mut copies)?;
    Ok(copies)
}

fn copy_rules(alloc: Global, rules: &[RuleSetting]) -> Result<Vec<RuleSetting>, NoMemory>
    ensures { IfOk result (λ copies. map setting_of copies.items ≡ map setting_of rules.now) }
{
    let mut copies = Vec::with_capacity(alloc, rules.len())?;
    for rule in rules {
        copies.push(rule.copy(alloc)?)?;
    }
    Ok(copies)
}
