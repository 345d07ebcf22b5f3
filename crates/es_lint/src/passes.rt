//! Linting a text, with passes of fixes.
ghost use Rattle.std.specs.Prelude.{◌≡◌, suc, IfOk};
ghost use Rattle.es_text.specs.Texts.{text_bytes};
ghost use Rattle.es_settings.specs.Settings.{settings_of};
ghost use Rattle.es_host.specs.Kits.{meanings_of};
ghost use Rattle.es_lint.specs.Lintings.{FitsKit};
ghost use Rattle.es_lint.specs.Passes.{Fixed, Fixes, most_passes};
ghost use Rattle.es_lint.specs.Results.{AtMost};
ghost use Rattle.es_lint.specs.Stages.{IsPassed, LiesWithin};

use crate::linting::{Found, lint_text};
use crate::pass::next_text;
use es_host::{Kit, Rule};
use es_settings::{FileConfig, Mode};
use es_text::{NoMemory, Source};
use std::alloc::Global;

/// What passes give: the last text, what linting gives of it, and whether a fix was taken.
#[derive(Drop)]
pub struct Passed {
    pub source: Source,
    pub found: Found,
    pub changed: bool,
}

/// How many passes there are at most.
pub fn most_passes(mode: Mode) -> u32
    ensures { result ≡ most_passes mode }
{
    match mode {
        Mode::Report => 0,
        Mode::FixAll => 10,
        Mode::FixErrors => 10,
    }
}

/// What linting the source gives after passes that take a fix each, of which there are so many at most.
///
/// Each text is linted once, and the last one stands as it is linted. Only one text and what is said of it are kept
/// at a time.
pub fn fix_text<R: Rule>(
    alloc: Global,
    source: Source,
    mode: Mode,
    left: u32,
    config: &FileConfig,
    kit: &mut Kit<R>,
) -> Result<Passed, NoMemory>
    requires { FitsKit (meanings_of R.meaning kit.old) (settings_of config.now) }
    ensures passes { IfOk result (λ passed. IsPassed (meanings_of R.meaning kit.old) (settings_of config.now) mode
        left source kit.old.lints passed kit.new.lints) }
    ensures inside { IfOk result (λ passed. LiesWithin (text_bytes passed.source) passed.found) }
    ensures same { meanings_of R.meaning kit.new ≡ meanings_of R.meaning kit.old }
    ensures lintings { (fixed : Fixed) → Fixes (meanings_of R.meaning kit.old) (settings_of config.now) mode
        left source fixed → AtMost fixed.heard kit.old.lints kit.new.lints }
    ensures most { AtMost (suc left) kit.old.lints kit.new.lints }
{
    let found = lint_text(alloc, &source, config, kit)?;
    match next_text(alloc, &source, mode, left, found.stand.as_slice())? {
        None => Ok(Passed {
            source,
            found,
            changed: false,
        }),
        Some(next) => {
            drop(found);
            drop(source);
            let later = fix_text(alloc, next, mode, left - 1, config, kit)?;
            Ok(Passed {
                source: later.source,
                found: later.found,
                changed: true,
            })
        }
    }
}
