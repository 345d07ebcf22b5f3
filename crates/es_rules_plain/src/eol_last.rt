ghost use Rattle.std.specs.Prelude.{◌≡◌, IfOk, IsTrue};
ghost use Rattle.es_text.specs.Spans.{is_part};
ghost use Rattle.es_text.specs.Texts.{text_bytes};
ghost use Rattle.es_rules_plain.specs.EolLast.{end_of, lacks_newline, required};

use es_host::{FileView, SimpleFileRule, plain};
use es_text::{Finding, Fix, NoMemory, Source, Span, Txt};
use std::alloc::Global;

/// Finds that a text doesn't end in an LF, and mends it by putting one there.
#[derive(Drop)]
pub struct EolLast;

impl SimpleFileRule for EolLast {
    ghost use Rattle.es_rules_plain.specs.EolLast.{eol_last};

    ghost meaning = { eol_last };

    fn id(&self) -> &str {
        "eol-last"
    }

    fn judge(&self, alloc: Global, file: &FileView) -> Result<Vec<Finding>, NoMemory> {
        let mut findings = Vec::new(alloc);
        if lacks_newline(file.source.text()) {
            let span = end_of(file.source);
            let fix = Fix {
                span,
                text: plain(alloc, "\n")?,
            };
            findings.push(Finding {
                span,
                text: required(alloc)?,
                fix: Some(fix),
            })?;
        }
        Ok(findings)
    }
}

/// Whether the text isn't empty and ends in something else than LF.
fn lacks_newline(text: &str) -> bool
    ensures { result ≡ lacks_newline text.now }
{
    match text.as_bytes().last() {
        None => false,
        Some(byte) => *byte != b'\n',
    }
}

/// The end of the text.
fn end_of(source: &Source) -> Span
    ensures end { result ≡ end_of (text_bytes source.now) }
    ensures inside { IsTrue (is_part (text_bytes source.now) result) }
{
    let end = source.text().len() as u32;
    Span { start: end, end }
}

#[tactic(auto, unfolding(crate::specs::EolLast::required))]
fn required(alloc: Global) -> Result<Txt, NoMemory>
    ensures { IfOk result (λ text. text ≡ required) }
{
    plain(alloc, "Newline required at end of file but not found.")
}
