//! Which entries of a configuration are for a file, and whether they take it.
ghost use Rattle.std.specs.Prelude.{◌≡◌, map};
ghost use Rattle.std.specs.List.{list_all};
ghost use Rattle.std.specs.Str.{chars};
ghost use Rattle.es_globs.specs.Fitting.{is_none_left};
ghost use Rattle.es_globs.specs.Globs.{matches};
ghost use Rattle.es_globs.specs.Patterns.{up_to_slash};
ghost use Rattle.es_config.specs.Entries.{layer_of, layers_of};
ghost use Rattle.es_config.specs.Standing.{applies, deciding, files_match, general_ignores, is_for, is_ignored, is_outside, is_taken, last_says, takes};

use crate::entry::Entry;
use es_globs::{Glob, glob_matches, split_first};
use es_text::Items;

/// Whether a part of a name ends where the text begins.
fn ends_part(text: &str) -> bool
    ensures { result ≡ is_none_left (up_to_slash (chars text.now)) }
{
    match split_first(text) {
        Some((c, _)) => c == '/',
        None => true,
    }
}

/// Whether the name is absolute, or its first part is `..`.
pub fn is_outside(name: &str) -> bool
    ensures { result ≡ is_outside (chars name.now) }
{
    let Some((first, behind_first)) = split_first(name) else {
        return true;
    };
    if first != '.' {
        return first == '/';
    }
    let Some((second, behind_second)) = split_first(behind_first) else {
        return false;
    };
    second == '.' && ends_part(behind_second)
}

/// What the last glob that matches the name without its `!` says, where this was said before.
fn last_says(before: bool, globs: &[Glob], name: &str) -> bool
    ensures { result ≡ last_says before (deciding (chars name.now) globs.now) }
{
    let mut said = before;
    for glob in globs {
        if glob.plain_matches(name) {
            said = !glob.is_negated();
        }
    }
    said
}

/// What the entry ignores for all entries.
fn general_ignores(entry: &Entry) -> &[Glob]
    ensures { result.now ≡ general_ignores (layer_of entry.now) }
{
    if entry.alone {
        entry.ignores.as_slice()
    } else {
        &[]
    }
}

/// Whether an ignore list that is for all entries applies to the name.
pub fn is_ignored(entries: &[Entry], name: &str) -> bool
    ensures { result ≡ is_ignored (chars name.now) (layers_of entries.now) }
{
    let mut said = false;
    for entry in entries {
        said = last_says(said, general_ignores(entry), name);
    }
    said
}

fn all_match(globs: &[Glob], name: &str) -> bool
    ensures { result ≡ list_all (λ glob. matches glob (chars name.now)) globs.now }
{
    for glob in globs {
        if !glob_matches(glob, name) {
            return false;
        }
    }
    true
}

fn files_match(files: &[Items<Glob>], name: &str) -> bool
    ensures { result ≡ files_match (chars name.now) files.now }
{
    for globs in files {
        if all_match(globs.as_slice(), name) {
            return true;
        }
    }
    false
}

/// Whether what the entry sets holds for a file with this name.
pub fn is_for(entry: &Entry, name: &str) -> bool
    ensures { result ≡ is_for (chars name.now) (layer_of entry.now) }
{
    let chosen = match &entry.files {
        Some(files) => files_match(files.as_slice(), name),
        None => true,
    };
    chosen && !last_says(false, entry.ignores.as_slice(), name)
}

/// Whether an entry with `files` is for a file with this name.
pub fn is_taken(entries: &[Entry], name: &str) -> bool
    ensures { result ≡ is_taken (chars name.now) (layers_of entries.now) }
{
    for entry in entries {
        if entry.files.is_some() && is_for(entry, name) {
            return true;
        }
    }
    false
}
