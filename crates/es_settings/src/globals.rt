//! Global variables, as they were said last.
ghost use Rattle.std.specs.Prelude.{◌≡◌, ◌++◌, reverse, IfOk, OnOk};
ghost use Rattle.std.specs.Ordering.{is_lt};
ghost use Rattle.es_settings.specs.Globals.{firsts, is_name, last_of_each, name_cmp};
ghost use Rattle.es_settings.specs.Sorting.{in_order};

use crate::global_use::GlobalUse;
use es_text::{NoMemory, Txt};
use std::alloc::Global;
use std::cmp::Ordering;

/// Which of two names goes first, by their bytes.
fn compare(a: &(Txt, GlobalUse), b: &(Txt, GlobalUse)) -> Ordering
    ensures { result ≡ name_cmp a.now b.now }
{
    a.0.as_str().cmp(b.0.as_str())
}

/// Puts copies of the names behind the others.
pub fn add_copies(
    alloc: Global,
    globals: &[(Txt, GlobalUse)],
    all: &mut Vec<(Txt, GlobalUse)>,
) -> Result<(), NoMemory>
    ensures { OnOk result (all.new.items ≡ all.old.items ++ globals.now) }
{
    for (name, global) in globals {
        all.push((name.copy(alloc)?, *global))?;
    }
    Ok(())
}

/// The names in order. Of those that are the same the first stays first.
fn in_order(mut globals: Vec<(Txt, GlobalUse)>) -> Result<Vec<(Txt, GlobalUse)>, NoMemory>
    ensures { IfOk result (λ sorted.
        sorted.items ≡ in_order (λ x y. is_lt (name_cmp x y)) globals.items) }
{
    globals.sort_by(|a, b| compare(a, b))?;
    Ok(globals)
}

/// Whether this is the name, if one is given.
fn is_name(last: &Option<Txt>, name: &Txt) -> bool
    ensures { result ≡ is_name last.now name.now }
{
    match last {
        Some(last) => last.as_str() == name.as_str(),
        None => false,
    }
}

/// Of neighbours with one name the first.
fn firsts(
    alloc: Global,
    mut globals: Vec<(Txt, GlobalUse)>,
) -> Result<Vec<(Txt, GlobalUse)>, NoMemory>
    ensures { IfOk result (λ each. each.items ≡ firsts globals.items) }
{
    let mut each = Vec::new(alloc);
    let mut last = None;
    globals.reverse();
    while let Some(global) = globals.pop() {
        if !is_name(&last, &global.0) {
            last = Some(global.0.copy(alloc)?);
            each.push(global)?;
        }
    }
    Ok(each)
}

/// Each name once, in the order of the bytes of names, as it was said last.
pub fn last_of_each(
    alloc: Global,
    mut said: Vec<(Txt, GlobalUse)>,
) -> Result<Vec<(Txt, GlobalUse)>, NoMemory>
    ensures { IfOk result (λ each. each.items ≡ last_of_each said.items) }
{
    said.reverse();
    firsts(alloc, in_order(said)?)
}
