ghost use Rattle.std.specs.Prelude.{◌≡◌, ◌≤◌, ◌+◌, Some, None, IfOk, IfErr, OnErr};
ghost use Rattle.std.specs.Str.{IsCharBoundary};
ghost use Rattle.es_text.specs.Texts.{text_bytes};
ghost use Rattle.es_text.specs.Skipped.{hold_line};
ghost use Rattle.es_text.specs.Tokens.{first_offset, skipped_at, token};

use crate::cursor::Cursor;
use crate::form::form_at;
use crate::skip::skip;
use es_text::{LexMode, Source, Span, Steps, Token};
use std::sync::ledger::Ledger;

/// Why no token is read.
#[derive(Clone, Copy, Debug, PartialEq, Eq)]
pub enum LexFault {
    /// No form of a token fits at this offset, the first one behind what is skipped.
    NoToken { at: u32 },
}

/// Skips white space, line ends and comments from the offset `at` on, and reads one token in this
/// mode (ECMA-262, 12). At the text's end it's `End`, which is empty.
///
/// `NoToken` where no form of a token fits. It takes no memory, and time in the length of what it
/// goes over.
pub fn next<L: Ledger>(
    source: &Source,
    at: u32,
    mode: LexMode,
    steps: &mut Steps<L>,
) -> Result<Token, LexFault>
    requires { IsCharBoundary (text_bytes source.now) at }
    ensures token { IfOk result (λ read. token (text_bytes source.now) at mode ≡ Some read) }
    ensures order { IfOk result (λ read.
        (at ≤ read.span.start) × (read.span.start ≤ read.span.end)) }
    ensures start { IfOk result (λ read. IsCharBoundary (text_bytes source.now) read.span.start) }
    ensures end { IfOk result (λ read. IsCharBoundary (text_bytes source.now) read.span.end) }
    ensures no_token { OnErr result (token (text_bytes source.now) at mode ≡ None) }
    ensures offset { IfErr result (λ fault.
        fault ≡ LexFault.NoToken (first_offset (text_bytes source.now) at)) }
    ensures place { OnErr result (
        IsCharBoundary (text_bytes source.now) (first_offset (text_bytes source.now) at)) }
    ensures ticks { steps.new ≡ steps.old + 1 }
{
    steps.tick();
    let gap = skip(Cursor::at(source.text(), at as usize));
    let start = gap.end.offset as u32;
    match form_at(gap.end, mode) {
        Some(form) => Ok(Token {
            kind: form.kind,
            span: Span {
                start,
                end: form.end.offset as u32,
            },
            line_before: gap.line,
        }),
        None => Err(LexFault::NoToken { at: start }),
    }
}

/// Whether a line ends in what is skipped from the offset `at` on. Takes time in the length of that.
pub fn has_line(source: &Source, at: u32) -> bool
    requires { IsCharBoundary (text_bytes source.now) at }
    ensures { result ≡ hold_line (skipped_at (text_bytes source.now) at) }
{
    skip(Cursor::at(source.text(), at as usize)).line
}
