//! What is set for a text that isn't a file's.
ghost use Rattle.std.specs.Prelude.{◌≡◌, IfOk};
ghost use Rattle.es_settings.specs.Settings.{settings_of};
ghost use Rattle.es_run.specs.Generated.{all_at_error};

use es_settings::{FileConfig, RuleSetting};
use es_text::{Items, NoMemory, Severity, SourceType};
use std::alloc::Global;

/// Each of so many rules at error and without options, and for all else ESLint's defaults.
pub(crate) fn config_at_error(alloc: Global, count: u32) -> Result<FileConfig, NoMemory>
    ensures { IfOk result (λ config. settings_of config ≡ all_at_error count) }
{
    let mut rules = Vec::new(alloc);
    for _ in 0..count {
        rules.push(RuleSetting {
            severity: Some(Severity::Error),
            options: Items::new(alloc),
        })?;
    }
    Ok(FileConfig {
        source_type: SourceType::Module,
        globals: Items::new(alloc),
        inline: true,
        unused: Some(Severity::Warn),
        rules: Items::from_vec(rules),
    })
}
