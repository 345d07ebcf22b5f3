//! What `clap` found.
ghost use Rattle.std.specs.Prelude.{◌≡◌, ◌==◌, codes, length, map, option_map};
ghost use Rattle.std.specs.List.{list_any};
ghost use Rattle.clap.specs.Matches.{found_of};
ghost use Rattle.clap.specs.Walk.{all_of, first_of, rows_of};
ghost use Rattle.es_plan.specs.Plans.{are_names, files_of, format_of, is_bare, is_on, limit_of, mode_of};

use crate::number::number_of;
use clap::ArgMatches;
use es_settings::Mode;

/// The value of an option.
pub fn value<'a>(found: &ArgMatches<'a>, name: &str) -> Option<&'a str>
    ensures { option_map (λ value. value.now) result ≡ first_of name.now (rows_of (found_of found.now)) }
{
    found.get_str(name)
}

/// Whether an option without a value is given.
pub fn is_on(found: &ArgMatches, name: &str) -> bool
    ensures { result ≡ is_on name.now (rows_of (found_of found.now)) }
{
    match value(found, name) {
        Some(text) => text == "true",
        None => false,
    }
}

/// The words that are no options; `None` where there are none.
pub fn files<'m, 'a>(found: &'m ArgMatches<'a>) -> Option<&'m [&'a str]>
    ensures { option_map (λ files. map (λ file. file.now) files.now) result
        ≡ all_of (codes "file") (rows_of (found_of found.now)) }
{
    found.get_strs("file")
}

/// Whether each word is an option, or an option's value.
fn has_no_file(found: &ArgMatches) -> bool
    ensures { result ≡ (length (files_of (rows_of (found_of found.now))) == 0) }
{
    match files(found) {
        Some(files) => files.is_empty(),
        None => true,
    }
}

/// Whether one of the names has no character.
fn has_empty(files: &[&str]) -> bool
    ensures { result ≡ list_any (λ file. length file == 0) (map (λ file. file.now) files.now) }
{
    for file in files {
        if file.is_empty() {
            return true;
        }
    }
    false
}

/// Whether there is a name, and each has a character.
pub fn are_names(files: &[&str]) -> bool
    ensures { result ≡ are_names (map (λ file. file.now) files.now) }
{
    !files.is_empty() && !has_empty(files)
}

/// Whether neither a name nor an option of linting is given.
pub fn is_bare(found: &ArgMatches) -> bool
    ensures { result ≡ is_bare (rows_of (found_of found.now)) }
{
    has_no_file(found)
        && value(found, "config").is_none()
        && value(found, "format").is_none()
        && value(found, "max-warnings").is_none()
        && !is_on(found, "fix")
        && !is_on(found, "quiet")
        && !is_on(found, "no-inline-config")
}

/// Whether the format is JSON; `None` where there is no such format.
pub fn format_of(format: Option<&str>) -> Option<bool>
    ensures { result ≡ format_of (option_map (λ text. text.now) format.entry) }
{
    match format {
        None => Some(false),
        Some("json") => Some(true),
        Some("stylish") => Some(false),
        Some(_) => None,
    }
}

/// The most warnings, where they are limited; `None` where the text is no number within 32 bits.
pub fn limit_of(number: Option<&str>) -> Option<Option<u32>>
    ensures { result ≡ limit_of (option_map (λ text. text.now) number.entry) }
{
    match number {
        None => Some(None),
        Some(text) => Some(Some(number_of(text, u32::MAX)?)),
    }
}

/// What is done with fixes, from `--fix` and `--quiet`.
pub fn mode_of(fix: bool, quiet: bool) -> Mode
    ensures { result ≡ mode_of fix quiet }
{
    match (fix, quiet) {
        (false, _) => Mode::Report,
        (true, false) => Mode::FixAll,
        (true, true) => Mode::FixErrors,
    }
}
