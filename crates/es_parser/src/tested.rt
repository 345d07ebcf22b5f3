//! The tokens that terminals read, by tests of their texts.
ghost use Rattle.std.specs.Prelude.{◌≡◌, IfSome};
ghost use Rattle.std.specs.Str.{IsCharBoundary};
ghost use Rattle.es_grammar.specs.Terminals.{mode_of, terminal_at};
ghost use Rattle.es_parser.specs.Kept.{IsWithin};

use crate::reader::Reader;
use es_grammar::{Context, Terminal};
use es_text::{LexMode, Steps, Token};
use std::sync::ledger::Ledger;

/// The mode in which the terminal reads its token.
#[tactic(auto, unfolding(es_grammar::specs::Terminals::mode_of))]
pub fn mode_of(terminal: Terminal) -> LexMode
    ensures { result ≡ mode_of terminal }
{
    match terminal {
        Terminal::RegExp => LexMode::RegExp,
        Terminal::Middle | Terminal::Tail => LexMode::TemplateTail,
        _ => LexMode::Division,
    }
}

/// The token that the terminal reads from this offset on, by a test of its text.
#[tactic(auto, unfolding(es_grammar::specs::Terminals::terminal_at))]
pub fn tested<L: Ledger>(
    reader: &mut Reader,
    context: Context,
    terminal: Terminal,
    at: u32,
    steps: &mut Steps<L>,
) -> Option<Token>
    requires { IsCharBoundary reader.old at }
    ensures same { reader.new ≡ reader.old }
    ensures token { result ≡ terminal_at reader.old context terminal at }
    ensures within { IfSome result (λ found. IsWithin reader.old at found) }
{
    let found = reader.token(at, mode_of(terminal), steps)?;
    if terminal.reads(context, found.kind, reader.text_of(found)) {
        Some(found)
    } else {
        None
    }
}
