ghost use Rattle.std.specs.Prelude.{◌≡◌, ◌++◌, All, IfOk, IsTrue, OnOk};
ghost use Rattle.std.specs.List.{flat_map};
ghost use Rattle.es_text.specs.Spans.{is_part};
ghost use Rattle.es_text.specs.Texts.{text_bytes};
ghost use Rattle.es_host.specs.Files.{IsWhole, file_in};
ghost use Rattle.es_host.specs.Spans.{findings_fit};
ghost use Rattle.es_rules_plain.specs.NoTrailingSpaces.{is_in_template, is_template, not_allowed, said_of};

use crate::trailing_spaces::trailing;
use es_host::{FileView, SimpleFileRule, plain};
use es_text::{Finding, Fix, NoMemory, Span, TokenKind, Txt};
use std::alloc::Global;

/// Finds white space at the end of a line, but for that in a template, and mends it by taking it away.
#[derive(Drop)]
pub struct NoTrailingSpaces;

impl SimpleFileRule for NoTrailingSpaces {
    ghost use Rattle.es_rules_plain.specs.NoTrailingSpaces.{no_trailing_spaces};

    ghost meaning = { no_trailing_spaces };

    fn id(&self) -> &str {
        "no-trailing-spaces"
    }

    fn judge(&self, alloc: Global, file: &FileView) -> Result<Vec<Finding>, NoMemory> {
        let spans = trailing(alloc, file.source.text())?;
        say_all(alloc, file, spans.as_slice())
    }
}

/// What is said of white space at the ends of lines.
fn say_all(alloc: Global, file: &FileView, spans: &[Span]) -> Result<Vec<Finding>, NoMemory>
    requires whole { IsWhole (file_in file.now) }
    requires parts { All (λ span. IsTrue (is_part (text_bytes (file_in file.now).text) span)) spans.now }
    ensures found { IfOk result (λ findings. findings.items ≡ flat_map (said_of (file_in file.now)) spans.now) }
    ensures inside { IfOk result (λ findings.
        IsTrue (findings_fit (text_bytes (file_in file.now).text) findings.items)) }
{
    let mut findings = Vec::new(alloc);
    for span in spans {
        say_of(alloc, file, *span, &mut findings)?;
    }
    Ok(findings)
}

/// Puts what is said of white space at the end of a line behind the findings.
fn say_of(
    alloc: Global,
    file: &FileView,
    span: Span,
    findings: &mut Vec<Finding>,
) -> Result<(), NoMemory>
    requires whole { IsWhole (file_in file.now) }
    requires part { IsTrue (is_part (text_bytes (file_in file.now).text) span) }
    ensures found { OnOk result (findings.new.items ≡ findings.old.items ++ said_of (file_in file.now) span) }
    ensures inside { OnOk result (IsTrue (findings_fit (text_bytes (file_in file.now).text) findings.old.items)
        → IsTrue (findings_fit (text_bytes (file_in file.now).text) findings.new.items)) }
{
    if is_in_template(file, span.start) {
        return Ok(());
    }
    let fix = Fix {
        span,
        text: plain(alloc, "")?,
    };
    findings.push(Finding {
        span,
        text: not_allowed(alloc)?,
        fix: Some(fix),
    })?;
    Ok(())
}

/// Whether the white space that begins here stands in a template, or in a part of one.
fn is_in_template(file: &FileView, offset: u32) -> bool
    requires { IsWhole (file_in file.now) }
    ensures { result ≡ is_in_template (file_in file.now) offset }
{
    match file.token_before(offset) {
        Some(token) => is_template(token.kind) && offset < token.span.end,
        None => false,
    }
}

/// Whether a token of this kind is a template or a part of one.
fn is_template(kind: TokenKind) -> bool
    ensures { result ≡ is_template kind }
{
    matches!(
        kind,
        TokenKind::Full | TokenKind::Head | TokenKind::Middle | TokenKind::Tail
    )
}

#[tactic(auto, unfolding(crate::specs::NoTrailingSpaces::not_allowed))]
fn not_allowed(alloc: Global) -> Result<Txt, NoMemory>
    ensures { IfOk result (λ text. text ≡ not_allowed) }
{
    plain(alloc, "Trailing spaces not allowed.")
}
