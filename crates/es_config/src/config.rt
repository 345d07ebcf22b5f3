//! Configurations, and the entries that stand in front of each.
ghost use Rattle.std.specs.Prelude.{◌≡◌, ◌++◌, ◌∷◌, [], map, IfOk, OnOk};
ghost use Rattle.std.specs.Str.{chars};
ghost use Rattle.es_config.specs.Configurations.{any_of, built_in, commonjs_at_first, front, globs_of, ignored_at_first, taken_at_first};
ghost use Rattle.es_config.specs.Entries.{layer_of, layers_of};

use crate::entry::Entry;
use es_globs::{Glob, GlobFault};
use es_text::{Items, NoMemory, SourceType};
use std::alloc::Global;
use std::marker::Model;

/// A configuration: entries in their order, which may speak of so many rules.
///
/// Contracts see the list of the entries and the number.
#[derive(Drop)]
pub struct Config {
    entries: Vec<Entry>,
    count: u32,
}

impl Model for Config {
    ghost use Rattle.es_config.specs.contracts.entry.Entry as e;
    ghost use Rattle.es_config.specs.Configurations.{Configuration, configuration_code};

    ghost Value = { Configuration };

    ghost coded = { configuration_code e.the_row.coded };

    ghost view = { λ config. record { entries = config.entries.items; count = config.count } };
}

impl Config {
    /// The configuration of these entries behind those that stand in front of each: one that ignores what is in
    /// `node_modules` and `.git`, one that takes `.js`, `.mjs` and `.cjs`, and one that reads `.cjs` as CommonJS.
    pub fn with_built_in(
        alloc: Global,
        mut given: Vec<Entry>,
        count: u32,
    ) -> Result<Config, NoMemory>
        ensures entries { IfOk result (λ config. layers_of config.entries ≡ built_in ++ layers_of given.items) }
        ensures count { IfOk result (λ config. config.count ≡ count) }
    {
        let mut entries = built_in(alloc)?;
        entries.append(&mut given)?;
        Ok(Config { entries, count })
    }

    /// How many rules there are.
    pub fn count(&self) -> u32
        ensures { result ≡ self.now.count }
    {
        self.count
    }

    /// Its entries.
    pub fn entries(&self) -> &[Entry]
        ensures { result.now ≡ self.now.entries }
    {
        self.entries.as_slice()
    }
}

/// Puts the glob that the text is at the end, if it is one.
fn add_glob(alloc: Global, text: &str, globs: &mut Items<Glob>) -> Result<(), NoMemory>
    ensures { OnOk result (globs.new ≡ globs.old ++ globs_of (chars text.now ∷ [])) }
{
    match Glob::read(alloc, text) {
        Ok(glob) => Ok(globs.push(glob)?),
        Err(GlobFault::BadGlob) => Ok(()),
        Err(GlobFault::NoMemory) => Err(NoMemory),
    }
}

/// Puts one more glob at the end, which is for files by itself.
fn add_choice(alloc: Global, text: &str, files: &mut Items<Items<Glob>>) -> Result<(), NoMemory>
    ensures { OnOk result (files.new ≡ files.old ++ any_of (chars text.now ∷ [])) }
{
    let mut globs = Items::new(alloc);
    add_glob(alloc, text, &mut globs)?;
    Ok(files.push(globs)?)
}

/// An entry that sets a source type at most.
fn front(
    alloc: Global,
    files: Option<Items<Items<Glob>>>,
    ignores: Items<Glob>,
    alone: bool,
    source_type: Option<SourceType>,
) -> Entry
    ensures { layer_of result ≡ front files ignores alone source_type }
{
    Entry {
        files,
        ignores,
        alone,
        source_type,
        globals: Items::new(alloc),
        inline: None,
        unused: None,
        rules: Items::new(alloc),
    }
}

/// What isn't the user's own is ignored.
fn ignored_at_first(alloc: Global) -> Result<Entry, NoMemory>
    ensures { IfOk result (λ entry. layer_of entry ≡ ignored_at_first) }
{
    let mut ignores = Items::new(alloc);
    add_glob(alloc, "**/node_modules/", &mut ignores)?;
    add_glob(alloc, ".git/", &mut ignores)?;
    Ok(front(alloc, None, ignores, true, None))
}

/// These files are taken.
fn taken_at_first(alloc: Global) -> Result<Entry, NoMemory>
    ensures { IfOk result (λ entry. layer_of entry ≡ taken_at_first) }
{
    let mut files = Items::new(alloc);
    add_choice(alloc, "**/*.js", &mut files)?;
    add_choice(alloc, "**/*.mjs", &mut files)?;
    add_choice(alloc, "**/*.cjs", &mut files)?;
    Ok(front(alloc, Some(files), Items::new(alloc), false, None))
}

/// And of them these are in CommonJS.
fn commonjs_at_first(alloc: Global) -> Result<Entry, NoMemory>
    ensures { IfOk result (λ entry. layer_of entry ≡ commonjs_at_first) }
{
    let mut files = Items::new(alloc);
    add_choice(alloc, "**/*.cjs", &mut files)?;
    let read_as = Some(SourceType::Commonjs);
    Ok(front(alloc, Some(files), Items::new(alloc), false, read_as))
}

/// The entries that stand in front of a configuration's own.
fn built_in(alloc: Global) -> Result<Vec<Entry>, NoMemory>
    ensures { IfOk result (λ entries. layers_of entries.items ≡ built_in) }
{
    let mut entries = Vec::new(alloc);
    entries.push(ignored_at_first(alloc)?)?;
    entries.push(taken_at_first(alloc)?)?;
    entries.push(commonjs_at_first(alloc)?)?;
    Ok(entries)
}
