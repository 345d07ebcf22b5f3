//! Global variables that comments tell of.
ghost use Rattle.std.specs.Prelude.{◌≡◌, IfOk};
ghost use Rattle.es_lint.specs.Laid.{globals_under};

use es_settings::{GlobalUse, add_copies, last_of_each};
use es_text::{NoMemory, Txt};
use std::alloc::Global;

/// The names that were said or set, each once and in order: what was said last of it, or else what is set.
pub fn globals_under(
    alloc: Global,
    said: &[(Txt, GlobalUse)],
    set: &[(Txt, GlobalUse)],
) -> Result<Vec<(Txt, GlobalUse)>, NoMemory>
    ensures { IfOk result (λ all. all.items ≡ globals_under said.now set.now) }
{
    let mut all = Vec::new(alloc);
    add_copies(alloc, set, &mut all)?;
    add_copies(alloc, said, &mut all)?;
    last_of_each(alloc, all)
}
