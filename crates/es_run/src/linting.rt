//! What a run has to tell of each file.
ghost use Rattle.std.specs.Prelude.{◌≡◌, ◌≤◌, ◌+◌, ◌*◌, suc, All, IfOk, OnOk, length, map};
ghost use Rattle.std.specs.Str.{chars};
ghost use Rattle.es_host.specs.Kits.{meanings_of};
ghost use Rattle.es_lint.specs.Passes.{most_passes};
ghost use Rattle.es_lint.specs.Results.{AtMost};
ghost use Rattle.es_run.specs.Linting.{left_out_result, linted_count};
ghost use Rattle.es_run.specs.Stages.{AreLinted, FitsPart, IsLintedAs, ListenAtMost, ListensAtMost, named_part_in, part_count, part_in};

use crate::gathering::Part;
use es_host::{Kit, Rule};
use es_lint::lint;
use es_messages::{FileResult, Message};
use es_settings::Mode;
use es_text::{Items, NoMemory, Severity, Steps, Txt};
use std::alloc::Global;
use std::sync::ledger::Ledger;

/// What is told of a file that isn't linted: one warning without a rule, at no place of the text.
pub(crate) fn left_out_result(alloc: Global, text: &str) -> Result<FileResult, NoMemory>
    ensures { IfOk result (λ told. told ≡ left_out_result (chars text.now)) }
{
    let mut messages = Items::new(alloc);
    messages.push(Message {
        rule: None,
        severity: Severity::Warn,
        text: Txt::new(alloc, text)?,
        line: 0,
        column: 0,
        end_line: 0,
        end_column: 0,
        fix: None,
        fatal: false,
    })?;
    Ok(FileResult {
        messages,
        suppressed: Items::new(alloc),
        output: None,
    })
}

/// What a part comes to. A file that is linted takes one step, and the rules listen at most as often as what it comes to
/// says, also where that runs out of memory.
#[tactic(auto, using(crate::proofs::LintingLemmas::source_linted, crate::proofs::LintingLemmas::source_listens, crate::proofs::LintingLemmas::never))]
pub(crate) fn result_of<R: Rule, L: Ledger>(
    alloc: Global,
    part: Part,
    mode: Mode,
    kit: &mut Kit<R>,
    steps: &mut Steps<L>,
) -> Result<FileResult, NoMemory>
    requires { FitsPart (meanings_of R.meaning kit.old) part }
    ensures linted { IfOk result (λ told. IsLintedAs (meanings_of R.meaning kit.old) mode (part_in part)
        kit.old.lints told kit.new.lints) }
    ensures same { meanings_of R.meaning kit.new ≡ meanings_of R.meaning kit.old }
    ensures lintings { ListensAtMost (meanings_of R.meaning kit.old) mode (part_in part) kit.old.lints kit.new.lints }
    ensures most { AtMost (suc (most_passes mode)) kit.old.lints kit.new.lints }
    ensures ticked { OnOk result (steps.new ≡ steps.old + part_count part) }
    ensures few { steps.new ≤ steps.old + part_count part }
    ensures later { steps.old ≤ steps.new }
{
    match part {
        Part::Source(config, bytes) => {
            let told = lint(alloc, bytes.as_slice(), &config, mode, kit, steps)?;
            Ok(told)
        }
        Part::LeftOut(text) => left_out_result(alloc, text),
    }
}

/// What all parts come to, each under its name and in their order. The bytes of a file are dropped once it is linted.
/// Out of memory, some first files were linted, each as one step, and the last of them perhaps in part.
pub(crate) fn lint_all<R: Rule, L: Ledger>(
    alloc: Global,
    parts: Vec<(Txt, Part)>,
    mode: Mode,
    kit: &mut Kit<R>,
    steps: &mut Steps<L>,
) -> Result<Vec<(Txt, FileResult)>, NoMemory>
    requires { All (λ named. FitsPart (meanings_of R.meaning kit.old) named.1) parts.items }
    ensures linted { IfOk result (λ results. AreLinted (meanings_of R.meaning kit.old) mode
        (map named_part_in parts.items) kit.old.lints results.items kit.new.lints) }
    ensures same { meanings_of R.meaning kit.new ≡ meanings_of R.meaning kit.old }
    ensures lintings { ListenAtMost (meanings_of R.meaning kit.old) mode (map named_part_in parts.items)
        kit.old.lints kit.new.lints }
    ensures most { AtMost (suc (most_passes mode) * length parts.items) kit.old.lints kit.new.lints }
    ensures ticked { OnOk result
        (steps.new ≡ steps.old + linted_count (map named_part_in parts.items)) }
    ensures few { steps.new ≤ steps.old + linted_count (map named_part_in parts.items) }
    ensures later { steps.old ≤ steps.new }
{
    let mut results = Vec::new(alloc);
    for (name, part) in parts {
        let result = result_of(alloc, part, mode, kit, steps)?;
        results.push((name, result))?;
    }
    Ok(results)
}
