ghost use Rattle.std.specs.Prelude.{◌≡◌, ◌+◌, ◌≤◌, ◌∷◌, length, suc, IfOk};
ghost use Rattle.std.specs.Str.{chars};
ghost use Rattle.es_text.specs.SourceFaults.{most_bytes};
ghost use Rattle.es_text.specs.Texts.{byte_order_mark, text_bytes, text_of};
ghost use Rattle.es_settings.specs.Settings.{settings_of};
ghost use Rattle.es_host.specs.Kits.{meanings_of};
ghost use Rattle.es_lint.specs.Lintings.{FitsKit};
ghost use Rattle.es_lint.specs.Passes.{most_passes};
ghost use Rattle.es_lint.specs.Results.{AtMost, IsLinted, ListensAtMost, output_of, result_of, with_mark};
ghost use Rattle.es_lint.specs.Stages.{LiesWithin, fixed_of};

use crate::message::messages_of;
use crate::passes::{Passed, fix_text, most_passes};
use es_host::{Kit, Rule};
use es_messages::FileResult;
use es_settings::{FileConfig, Mode};
use es_text::{Items, NoMemory, Source, SourceFault, Steps, Txt};
use std::alloc::Global;
use std::sync::ledger::Ledger;

/// The source of so few bytes.
fn source_of(alloc: Global, bytes: &[u8]) -> Result<Source, NoMemory>
    requires { length bytes.now ≤ most_bytes }
    ensures { IfOk result (λ source. source ≡ text_of bytes.now) }
{
    match Source::new(alloc, bytes) {
        Ok(source) => Ok(source),
        Err(SourceFault::NoMemory) => Err(NoMemory),
        Err(SourceFault::TooLong { bytes: _ }) => unreachable!(),
    }
}

/// The text with a byte order mark in front.
fn behind_mark(alloc: Global, text: &str) -> Result<Txt, NoMemory>
    ensures { IfOk result (λ marked. marked ≡ byte_order_mark ∷ chars text.now) }
{
    let mut marked = String::from_str(alloc, "\u{feff}")?;
    marked.push_str(text)?;
    Ok(Txt::new(alloc, marked.as_str())?)
}

/// The text, with a byte order mark in front where the file had it.
fn with_mark(alloc: Global, marked: bool, source: &Source) -> Result<Txt, NoMemory>
    ensures { IfOk result (λ text. text ≡ with_mark marked source.now.characters) }
{
    if marked {
        behind_mark(alloc, source.text())
    } else {
        Txt::new(alloc, source.text())
    }
}

/// The last text, where a fix was taken.
fn output_of(alloc: Global, marked: bool, passed: &Passed) -> Result<Option<Txt>, NoMemory>
    ensures { IfOk result (λ output. output ≡ output_of marked (fixed_of passed.now 0)) }
{
    if passed.changed {
        let text = with_mark(alloc, marked, &passed.source)?;
        Ok(Some(text))
    } else {
        Ok(None)
    }
}

/// What is told where passes give this, and a mark stood in front of the file or didn't.
fn told_of(alloc: Global, marked: bool, passed: Passed) -> Result<FileResult, NoMemory>
    requires { LiesWithin (text_bytes passed.source) passed.found }
    ensures { IfOk result (λ told. told ≡ result_of marked (fixed_of passed 0)) }
{
    let output = output_of(alloc, marked, &passed)?;
    let Passed { source, found, .. } = passed;
    let stand = messages_of(alloc, &source, found.stand)?;
    let suppressed = messages_of(alloc, &source, found.suppressed)?;
    Ok(FileResult {
        messages: Items::from_vec(stand),
        suppressed: Items::from_vec(suppressed),
        output,
    })
}

/// Lints the bytes of a file, of which there are at most `MOST_BYTES`, with the kit's rules and under what is set
/// for it. It takes one step, and knows neither the file's name nor what the kit was used for before.
///
/// The messages are those of the reports that stand, of comments that disable nothing, and of parts of comments
/// that set nothing, or the one of a text that isn't parsed; they stand in order, and so do those that comments
/// suppress.
///
/// In a mode that makes fixes, passes over the text go on while one takes a fix, ten at most. The messages are
/// then those on the last text, which is the `output` if a fix was taken, with a byte order mark in front where
/// the file had it, and U+FFFD for bytes that were no UTF-8. A pass whose text would have more than `MOST_BYTES`
/// bytes isn't made.
///
/// The rules listen once to each text that is parsed. After `NoMemory` the kit may listen again.
pub fn lint<R: Rule, L: Ledger>(
    alloc: Global,
    bytes: &[u8],
    config: &FileConfig,
    mode: Mode,
    kit: &mut Kit<R>,
    steps: &mut Steps<L>,
) -> Result<FileResult, NoMemory>
    requires short { length bytes.now ≤ most_bytes }
    requires fits { FitsKit (meanings_of R.meaning kit.old) (settings_of config.now) }
    ensures linted { IfOk result (λ told. IsLinted (meanings_of R.meaning kit.old) (settings_of config.now) mode
        bytes.now kit.old.lints told kit.new.lints) }
    ensures same { meanings_of R.meaning kit.new ≡ meanings_of R.meaning kit.old }
    ensures lintings { ListensAtMost (meanings_of R.meaning kit.old) (settings_of config.now) mode
        bytes.now kit.old.lints kit.new.lints }
    ensures most { AtMost (suc (most_passes mode)) kit.old.lints kit.new.lints }
    ensures tick { steps.new ≡ steps.old + 1 }
{
    steps.tick();
    let source = source_of(alloc, bytes)?;
    let marked = source.marked();
    let passed = fix_text(alloc, source, mode, most_passes(mode), config, kit)?;
    told_of(alloc, marked, passed)
}
