//! The rules of a kit begin.
ghost use Rattle.std.specs.Prelude.{◌≡◌, [], map, OnOk, IsTrue};
ghost use Rattle.es_settings.specs.declared.verdict.Verdict.TheVariants.{Fine};
ghost use Rattle.es_settings.specs.Settings.{options_of, setting_of};
ghost use Rattle.es_host.specs.Files.{File, file_in};
ghost use Rattle.es_host.specs.Hearing.{EachHeard};
ghost use Rattle.es_host.specs.Meanings.{Fits, is_on};

use crate::file::FileView;
use crate::rule::Rule;
use es_settings::RuleSetting;
use es_text::NoMemory;
use std::alloc::Global;

/// The rule begins under its options, if it is on.
fn begin_one<R: Rule>(alloc: Global, setting: &RuleSetting, rule: &mut R) -> Result<(), NoMemory>
    requires fine { (R.meaning rule.old).verdict (options_of setting.now.options) ≡ Fine }
    ensures same { R.meaning rule.new ≡ R.meaning rule.old }
    ensures nothing { OnOk result (IsTrue (is_on (setting_of setting.now)) →
        (file : File) → R.heard rule.new file (options_of setting.now.options) []) }
{
    if setting.severity.is_some() {
        rule.begin(alloc, setting.options.as_slice())?;
    }
    Ok(())
}

/// Each rule that is on begins, under the options that are set for it.
pub fn begin_all<R: Rule>(alloc: Global, file: &FileView, rules: &mut [R]) -> Result<(), NoMemory>
    requires fits { Fits (map R.meaning rules.old) (file_in file.now) }
    ensures same { map R.meaning rules.new ≡ map R.meaning rules.old }
    ensures nothing { OnOk result (EachHeard R.heard (file_in file.now) (λ _. []) rules.new) }
{
    let settings = file.config.rules.as_slice();
    for place in 0..rules.len() {
        begin_one(alloc, &settings[place], &mut rules[place])?;
    }
    Ok(())
}
