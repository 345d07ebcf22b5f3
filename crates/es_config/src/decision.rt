//! What becomes of a file under a configuration.
ghost use Rattle.std.specs.Prelude.{◌≡◌, IfOk};
ghost use Rattle.std.specs.Str.{chars};
ghost use Rattle.es_config.specs.Outcomes.{KeepsTaken, outcome_in, outcome_of};

use crate::config::Config;
use crate::laying::settings_for;
use crate::standing::{is_ignored, is_outside, is_taken};
use es_settings::FileConfig;
use es_text::NoMemory;
use std::alloc::Global;

/// What becomes of a file.
#[derive(Drop)]
pub enum Decision {
    /// It is linted, and this is set for it.
    Lint(FileConfig),
    /// An ignore list that is for all entries applies to it.
    Ignored,
    /// No entry with `files` is for it.
    Unmatched,
    /// Its name is absolute, or begins with `..`.
    Outside,
}

/// What the configuration decides for a file with this name, which is normalised: parts with single slashes
/// between, none of them `.`, and `..` at the beginning alone.
///
/// It takes time in the length of the name times that of the globs, and in that of what is set.
pub fn for_name(alloc: Global, config: &Config, name: &str) -> Result<Decision, NoMemory>
    ensures value { IfOk result (λ decision. outcome_of decision ≡ outcome_in config.now (chars name.now)) }
    ensures taken { IfOk result (λ decision. KeepsTaken config.now (outcome_of decision)) }
{
    let entries = config.entries();
    if is_outside(name) {
        return Ok(Decision::Outside);
    }
    if is_ignored(entries, name) {
        return Ok(Decision::Ignored);
    }
    if !is_taken(entries, name) {
        return Ok(Decision::Unmatched);
    }
    Ok(Decision::Lint(settings_for(alloc, entries, config.count(), name)?))
}
