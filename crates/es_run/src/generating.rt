//! The text of `--generate`, a workload of known size, and what a run makes of it.
ghost use Rattle.std.specs.Prelude.{◌≡◌, ◌≤◌, ◌+◌, ◌==◌, [], IfOk, OnOk, length, string_bytes};
ghost use Rattle.es_text.specs.SourceFaults.{most_bytes};
ghost use Rattle.es_host.specs.Kits.{NeedsNoOptions, meanings_of};
ghost use Rattle.es_lint.specs.Results.{AtMost};
ghost use Rattle.es_run.specs.Generated.{IsReportOnText, counts_line, generated_text, numbered_line, set_text};
ghost use Rattle.es_run.specs.Stages.{FitsPart, ListensAtMost, part_in};

use crate::gathering::Part;
use crate::linting::result_of;
use crate::reporting::Made;
use crate::settings::config_at_error;
use es_host::{Kit, Rule};
use es_settings::{Known, Mode};
use es_text::{NoMemory, Steps};
use std::alloc::Global;
use std::sync::ledger::Ledger;

/// The line of this number, counted from 1: a loop that no statement leaves but a `return`, and a statement behind it.
fn line_of(alloc: Global, index: u32) -> Result<String, NoMemory>
    ensures { IfOk result (λ line. string_bytes line ≡ numbered_line index) }
{
    let line = format!(in alloc;
        "function f{index}(a) {{ for (;;) {{ if (a > {index}) {{ return a; }} a++; }} debugger; }}\n"
    )?;
    Ok(line)
}

/// A text of so many lines, which is short enough to be linted.
#[tactic(auto, using(crate::proofs::GeneratedLemmas::text_short))]
pub(crate) fn generated_text(alloc: Global, count: u32) -> Result<Vec<u8>, NoMemory>
    requires few { count ≤ 10000 }
    ensures text { IfOk result (λ text. text.items ≡ generated_text count) }
    ensures short { IfOk result (λ text. length text.items ≤ most_bytes) }
{
    let mut text = Vec::new(alloc);
    for index in 0..count {
        let line = line_of(alloc, index + 1)?;
        text.extend_from_slice(line.as_bytes())?;
    }
    Ok(text)
}

/// The text as a file that is linted as a module, with each rule of the kit at error.
fn part_of<R: Rule>(alloc: Global, text: Vec<u8>, kit: &Kit<R>) -> Result<Part, NoMemory>
    requires short { length text.items ≤ most_bytes }
    requires options { NeedsNoOptions R.meaning kit.now }
    ensures part { IfOk result
        (λ part. part_in part ≡ set_text (length (meanings_of R.meaning kit.now)) text.items) }
    ensures fits { IfOk result (FitsPart (meanings_of R.meaning kit.now)) }
{
    let config = config_at_error(alloc, kit.count())?;
    Ok(Part::Source(config, text))
}

/// What a run makes of so many messages of a text of so many lines and bytes.
fn make(alloc: Global, count: u32, bytes: usize, problems: usize) -> Result<Made, NoMemory>
    ensures text { IfOk result (λ made. string_bytes made.text ≡ counts_line count bytes problems) }
    ensures clean { IfOk result (λ made. made.clean ≡ (problems == 0)) }
    ensures line { IfOk result (λ made. string_bytes made.line ≡ []) }
    ensures writes { IfOk result (λ made. made.writes.items ≡ []) }
{
    let text = format!(in alloc; "generated {count}: {bytes} bytes, {problems} problems\n")?;
    Ok(Made {
        text,
        clean: problems == 0,
        line: String::new(alloc),
        writes: Vec::new(alloc),
    })
}

/// Lints a text of so many lines with each rule of the kit at error, and tells how many messages that gives. One step.
pub(crate) fn generate<R: Rule, L: Ledger>(
    alloc: Global,
    count: u32,
    kit: &mut Kit<R>,
    steps: &mut Steps<L>,
) -> Result<Made, NoMemory>
    requires few { count ≤ 10000 }
    requires options { NeedsNoOptions R.meaning kit.old }
    ensures made { IfOk result
        (IsReportOnText (meanings_of R.meaning kit.old) count kit.old.lints kit.new.lints) }
    ensures nothing { IfOk result (λ made. made.writes.items ≡ []) }
    ensures same { meanings_of R.meaning kit.new ≡ meanings_of R.meaning kit.old }
    ensures most { AtMost 1 kit.old.lints kit.new.lints }
    ensures lintings { ListensAtMost (meanings_of R.meaning kit.old) Mode.Report
        (set_text (length (meanings_of R.meaning kit.old)) (generated_text count)) kit.old.lints kit.new.lints }
    ensures ticked { OnOk result (steps.new ≡ steps.old + 1) }
    ensures few { steps.new ≤ steps.old + 1 }
    ensures later { steps.old ≤ steps.new }
{
    let text = generated_text(alloc, count)?;
    let bytes = text.len();
    let part = part_of(alloc, text, kit)?;
    let told = result_of(alloc, part, Mode::Report, kit, steps)?;
    make(alloc, count, bytes, told.messages.len())
}
