//! One pass of fixes over a text.
ghost use Rattle.std.specs.Prelude.{◌≡◌, ◌++◌, ◌≤◌, IfOk, IsTrue, MatchOption, OnOk, false, length, true};
ghost use Rattle.std.specs.List.{list_any};
ghost use Rattle.std.specs.Option.{option_to_list};
ghost use Rattle.std.specs.Str.{chars, encode_utf8_all};
ghost use Rattle.es_text.specs.SourceFaults.{most_bytes};
ghost use Rattle.es_text.specs.Texts.{IsPlain, text_bytes};
ghost use Rattle.es_host.specs.Spans.{fixes_fit};
ghost use Rattle.es_lint.specs.Passes.{after, fix_in, fixes_in, may_take, takes_one};
ghost use Rattle.es_lint.specs.Stages.{goes_on};

use es_messages::{Applied, apply};
use es_settings::Mode;
use es_text::{Fix, NoMemory, Report, Severity, Source, SourceFault};
use std::alloc::Global;

/// Whether a pass may take the fix of a report of this severity.
fn may_take(mode: Mode, severity: Severity) -> bool
    ensures { result ≡ may_take mode severity }
{
    match mode {
        Mode::Report => false,
        Mode::FixAll => true,
        Mode::FixErrors => match severity {
            Severity::Error => true,
            Severity::Warn => false,
        },
    }
}

/// An equal fix in memory of its own.
fn copy_of(alloc: Global, fix: &Fix) -> Result<Fix, NoMemory>
    ensures { IfOk result (λ copy. copy ≡ fix.now) }
{
    Ok(Fix {
        span: fix.span,
        text: fix.text.copy(alloc)?,
    })
}

/// Puts a copy of the fix of the report behind the others, if a pass may take it.
fn add_fix(alloc: Global, mode: Mode, report: &Report, fixes: &mut Vec<Fix>) -> Result<(), NoMemory>
    ensures { OnOk result (fixes.new.items ≡ fixes.old.items ++ option_to_list (fix_in mode report.now)) }
{
    if may_take(mode, report.severity) {
        if let Some(fix) = &report.fix {
            let copy = copy_of(alloc, fix)?;
            fixes.push(copy)?;
        }
    }
    Ok(())
}

/// Copies of the fixes of the reports that a pass may take.
fn fixes_in(alloc: Global, mode: Mode, reports: &[Report]) -> Result<Vec<Fix>, NoMemory>
    ensures { IfOk result (λ fixes. fixes.items ≡ fixes_in mode reports.now) }
{
    let mut fixes = Vec::new(alloc);
    for report in reports {
        add_fix(alloc, mode, report, &mut fixes)?;
    }
    Ok(fixes)
}

/// Whether a pass took a fix.
fn took_one(applied: &Applied) -> bool
    ensures { result ≡ list_any (λ taken. taken) applied.now.taken }
{
    applied.taken.as_slice().iter().any(|taken| *taken)
}

/// The text that a pass made.
fn text_after(alloc: Global, applied: &Applied) -> Result<Source, NoMemory>
    requires { length (encode_utf8_all applied.now.text) ≤ most_bytes }
    ensures { IfOk result (IsPlain (chars (encode_utf8_all applied.now.text))) }
{
    match Source::from_text(alloc, applied.text.as_str()) {
        Ok(source) => Ok(source),
        Err(SourceFault::NoMemory) => Err(NoMemory),
        Err(SourceFault::TooLong { bytes: _ }) => unreachable!(),
    }
}

/// The text after a pass of the fixes of the reports on a text, or `None` where it takes none.
fn pass(
    alloc: Global,
    source: &Source,
    mode: Mode,
    reports: &[Report],
) -> Result<Option<Source>, NoMemory>
    requires { IsTrue (fixes_fit (text_bytes source.now) reports.now) }
    ensures { IfOk result (λ next. MatchOption next
        (takes_one (text_bytes source.now) (fixes_in mode reports.now) ≡ false)
        (λ next. (takes_one (text_bytes source.now) (fixes_in mode reports.now) ≡ true)
        × (next ≡ after (text_bytes source.now) (fixes_in mode reports.now)))) }
{
    let fixes = fixes_in(alloc, mode, reports)?;
    let applied = apply(alloc, source, fixes.as_slice())?;
    if took_one(&applied) {
        let next = text_after(alloc, &applied)?;
        Ok(Some(next))
    } else {
        Ok(None)
    }
}

/// The text after one more pass, of which so many are left, or `None` where none is or it takes no fix.
pub fn next_text(
    alloc: Global,
    source: &Source,
    mode: Mode,
    left: u32,
    reports: &[Report],
) -> Result<Option<Source>, NoMemory>
    requires { IsTrue (fixes_fit (text_bytes source.now) reports.now) }
    ensures { IfOk result (λ next. MatchOption next
        (goes_on mode left (text_bytes source.now) reports.now ≡ false)
        (λ next. (goes_on mode left (text_bytes source.now) reports.now ≡ true)
        × (next ≡ after (text_bytes source.now) (fixes_in mode reports.now)))) }
{
    if left == 0 {
        Ok(None)
    } else {
        pass(alloc, source, mode, reports)
    }
}
