ghost use Rattle.std.specs.Prelude.{◌≡◌, ◌≢◌, ◌≤◌, ◌⊎◌, ℕ, [], Ok, Err, IfOk, IfErr, map, string_bytes};
ghost use Rattle.clap.specs.Faults.{fault_of};
ghost use Rattle.clap.specs.Simple.{matches_of};
ghost use Rattle.clap.specs.Matches.{found_of};
ghost use Rattle.clap.specs.Walk.{rows_of};
ghost use Rattle.es_plan.specs.Command.{command};
ghost use Rattle.es_plan.specs.Plans.{MOST_LINES, lint_plan, plan_of};
ghost use Rattle.es_plan.specs.Steps.{asked_by, to_generate, to_lint};

use crate::command::command;
use crate::names::{name_of, names_of};
use crate::number::number_of;
use crate::plan::{LintPlan, Plan, PlanFault};
use crate::words::{are_names, files, format_of, is_bare, is_on, limit_of, mode_of, value};
use clap::ArgMatches;
use clap::error::ErrorKind;
use es_text::NoMemory;
use std::alloc::Global;

/// The most names in one run.
const MOST_NAMES: usize = 10_000;

/// The most lines of a generated text.
const MOST_LINES: u32 = 10_000;

/// The plan for linting, where all values are as they have to be.
fn lint_plan(
    alloc: Global,
    found: &ArgMatches,
    files: &[&str],
    json: bool,
    limit: Option<u32>,
) -> Result<LintPlan, NoMemory>
    ensures { IfOk result (λ plan. plan
        ≡ lint_plan (rows_of (found_of found.now)) (map (λ file. file.now) files.now) json limit) }
{
    let quiet = is_on(found, "quiet");
    Ok(LintPlan {
        config: name_of(
            alloc,
            value(found, "config").unwrap_or("eslint.config.json"),
        )?,
        json,
        mode: mode_of(is_on(found, "fix"), quiet),
        quiet,
        max_warnings: limit,
        inline: !is_on(found, "no-inline-config"),
        names: names_of(alloc, files)?,
    })
}

/// What the words of a lint run ask for.
fn to_lint(alloc: Global, found: &ArgMatches) -> Result<Plan, PlanFault>
    ensures value { IfOk result (λ plan. to_lint (rows_of (found_of found.now)) ≡ Ok plan) }
    ensures fault { IfErr result
        (λ fault. (fault ≡ PlanFault.NoMemory) ⊎ (to_lint (rows_of (found_of found.now)) ≡ Err fault)) }
    ensures lints { (n : ℕ) → result ≢ Ok (Plan.Generate n) }
{
    let Some(files) = files(found) else {
        return Err(PlanFault::BadWords);
    };
    if !are_names(files) {
        return Err(PlanFault::BadWords);
    }
    let Some(json) = format_of(value(found, "format")) else {
        return Err(PlanFault::BadWords);
    };
    let Some(limit) = limit_of(value(found, "max-warnings")) else {
        return Err(PlanFault::BadWords);
    };
    if files.len() > MOST_NAMES {
        let names = files.len() as u64;
        return Err(PlanFault::TooMany { names });
    }
    Ok(Plan::Lint(lint_plan(alloc, found, files, json, limit)?))
}

/// What the words with `--generate` ask for.
#[tactic(auto, using(crate::proofs::NumbersLemmas::within))]
fn to_generate(found: &ArgMatches, number: &str) -> Result<Plan, PlanFault>
    ensures value { result ≡ to_generate (rows_of (found_of found.now)) number.now }
    ensures few { (n : ℕ) → result ≡ Ok (Plan.Generate n) → n ≤ MOST_LINES }
{
    if !is_bare(found) {
        return Err(PlanFault::BadWords);
    }
    match number_of(number, MOST_LINES) {
        Some(count) => Ok(Plan::Generate { count }),
        None => Err(PlanFault::BadWords),
    }
}

/// What the words ask for that `clap` takes.
fn to_do(alloc: Global, found: &ArgMatches) -> Result<Plan, PlanFault>
    ensures value { IfOk result (λ plan. asked_by (rows_of (found_of found.now)) ≡ Ok plan) }
    ensures fault { IfErr result
        (λ fault. (fault ≡ PlanFault.NoMemory) ⊎ (asked_by (rows_of (found_of found.now)) ≡ Err fault)) }
    ensures few { (n : ℕ) → result ≡ Ok (Plan.Generate n) → n ≤ MOST_LINES }
{
    match value(found, "generate") {
        Some(number) => to_generate(found, number),
        None => to_lint(alloc, found),
    }
}

/// What `clap` finds in the words.
fn taken<'a>(alloc: Global, words: &'a [String]) -> Result<ArgMatches<'a>, PlanFault>
    ensures ok { IfOk result
        (λ found. (fault_of command (map string_bytes words.entry.now) ≡ [])
        × (rows_of (found_of found) ≡ matches_of command (map string_bytes words.entry.now))) }
    ensures fault { IfErr result (λ fault. (fault ≡ PlanFault.NoMemory)
        ⊎ ((fault ≡ PlanFault.BadWords) × (fault_of command (map string_bytes words.entry.now) ≢ []))) }
{
    let Ok(command) = command(alloc) else {
        return Err(PlanFault::NoMemory);
    };
    match command.try_get_matches_from(words) {
        Ok(found) => Ok(found),
        Err(error) => {
            if error.kind() == ErrorKind::OutOfMemory {
                Err(PlanFault::NoMemory)
            } else {
                Err(PlanFault::BadWords)
            }
        }
    }
}

/// What the words of a command line, without the program's name, ask for.
///
/// `BadWords` comes where `clap` refuses them, a value isn't as listed, a name is empty, there is
/// neither a name nor `--generate`, or `--generate` stands with anything else. `TooMany` comes where
/// they are no bad words, and there are more than 10,000 names. A text to make has at most 10,000 lines.
#[tactic(auto, using(crate::proofs::PlansLemmas::taken_words, crate::proofs::PlansLemmas::refused_words))]
pub fn read_plan(alloc: Global, words: &[String]) -> Result<Plan, PlanFault>
    ensures value { IfOk result (λ plan. plan_of (map string_bytes words.now) ≡ Ok plan) }
    ensures bad_words { result ≡ Err PlanFault.BadWords
        → plan_of (map string_bytes words.now) ≡ Err PlanFault.BadWords }
    ensures too_many { (n : ℕ) → result ≡ Err (PlanFault.TooMany n)
        → plan_of (map string_bytes words.now) ≡ Err (PlanFault.TooMany n) }
    ensures few { (n : ℕ) → result ≡ Ok (Plan.Generate n) → n ≤ MOST_LINES }
{
    match taken(alloc, words) {
        Ok(found) => to_do(alloc, &found),
        Err(fault) => Err(fault),
    }
}
