//! The lines at the end of the stylish report, which tell how many problems there are.

ghost use Rattle.std.specs.Prelude.{◌≡◌, IfOk, length, encode_utf8_all, string_bytes};
ghost use Rattle.es_format.specs.Stylish.{counted, ending_of, fixable_end, fixable_line, fixable_text, summary};
ghost use Rattle.es_format.specs.Tallies.{end_of, number_in, tallied_error, tallied_fixable_error, tallied_fixable_warning, tallied_warning};

use crate::tally::Tally;
use es_text::NoMemory;
use std::alloc::Global;

/// The lines at the end, where these are the tallies of all messages.
pub(crate) fn end(alloc: Global, tallies: &[Tally]) -> Result<String, NoMemory>
    ensures { IfOk result (λ text. string_bytes text ≡ encode_utf8_all (end_of tallies.now)) }
{
    if tallies.is_empty() {
        return Ok(String::new(alloc));
    }
    let summary = summary(alloc, tallies.len(), errors(tallies), warnings(tallies))?;
    let fixable = fixable_line(alloc, fixable_errors(tallies), fixable_warnings(tallies))?;
    Ok(format!(in alloc; "\n{summary}{fixable}")?)
}

fn errors(tallies: &[Tally]) -> usize
    ensures { result ≡ number_in tallied_error tallies.now }
{
    tallies.iter().filter(|tally| tally.is_error).count()
}

fn warnings(tallies: &[Tally]) -> usize
    ensures { result ≡ number_in tallied_warning tallies.now }
{
    tallies.iter().filter(|tally| !tally.is_error).count()
}

fn fixable_errors(tallies: &[Tally]) -> usize
    ensures { result ≡ number_in tallied_fixable_error tallies.now }
{
    tallies
        .iter()
        .filter(|tally| tally.is_error && tally.has_fix)
        .count()
}

fn fixable_warnings(tallies: &[Tally]) -> usize
    ensures { result ≡ number_in tallied_fixable_warning tallies.now }
{
    tallies
        .iter()
        .filter(|tally| !tally.is_error && tally.has_fix)
        .count()
}

/// `✖ N problems (E errors, W warnings)`.
fn summary(
    alloc: Global,
    problems: usize,
    errors: usize,
    warnings: usize,
) -> Result<String, NoMemory>
    ensures { IfOk result (λ text. string_bytes text ≡ encode_utf8_all (summary problems errors warnings)) }
{
    let problems = counted(alloc, problems, "problem")?;
    let errors = counted(alloc, errors, "error")?;
    let warnings = counted(alloc, warnings, "warning")?;
    Ok(format!(in alloc; "✖ {problems} ({errors}, {warnings})\n")?)
}

/// The line of the problems that have a fix, where there are any.
#[tactic(auto, unfolding(crate::specs::Stylish::fixable_line))]
fn fixable_line(alloc: Global, errors: usize, warnings: usize) -> Result<String, NoMemory>
    ensures { IfOk result (λ text. string_bytes text ≡ encode_utf8_all (fixable_line errors warnings)) }
{
    if errors == 0 && warnings == 0 {
        Ok(String::new(alloc))
    } else {
        fixable_text(alloc, errors, warnings)
    }
}

/// How many errors and warnings have a fix.
fn fixable_text(alloc: Global, errors: usize, warnings: usize) -> Result<String, NoMemory>
    ensures { IfOk result (λ text. string_bytes text ≡ encode_utf8_all (fixable_text errors warnings)) }
{
    let errors = counted(alloc, errors, "error")?;
    let warnings = counted(alloc, warnings, "warning")?;
    let end = fixable_end();
    Ok(format!(in alloc; "  {errors} and {warnings}{end}\n")?)
}

/// What follows the numbers of problems that have a fix.
#[tactic(auto, unfolding(crate::specs::Stylish::fixable_end))]
fn fixable_end() -> &'static str
    ensures { result.now ≡ fixable_end }
{
    " potentially fixable with the `--fix` option."
}

/// A number and its noun, which is singular where the number is 1.
fn counted(alloc: Global, number: usize, noun: &str) -> Result<String, NoMemory>
    ensures { IfOk result (λ text. string_bytes text ≡ counted number noun.now) }
{
    let ending = ending(number);
    Ok(format!(in alloc; "{number} {noun}{ending}")?)
}

/// What follows the noun: nothing where the number is 1, else an s.
fn ending(number: usize) -> &'static str
    ensures { result.now ≡ ending_of number }
{
    if number == 1 { "" } else { "s" }
}
