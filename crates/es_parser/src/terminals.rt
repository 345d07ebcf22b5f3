//! The tokens that the terminals of the grammar read.
ghost use Rattle.std.specs.Prelude.{◌≡◌, ◌<◌, ◌==◌, IfSome, false};
ghost use Rattle.std.specs.Int.{bit_at};
ghost use Rattle.std.specs.Str.{IsCharBoundary};
ghost use Rattle.es_grammar.specs.Reading.{comma_at};
ghost use Rattle.es_grammar.specs.Terminals.{terminal_at};
ghost use Rattle.es_grammar.specs.TerminalSets.{code_of};
ghost use Rattle.es_parser.specs.Kept.{IsWithin, goes_on};

use crate::reader::Reader;
use crate::sets::terminals_at;
use crate::tested::{mode_of, tested};
use es_grammar::{Context, Spot, Terminal};
use es_text::{Steps, Token};
use std::sync::ledger::Ledger;

/// Whether the set has the terminal.
pub fn has(set: u128, terminal: Terminal) -> bool
    ensures { result ≡ (bit_at set (code_of terminal) == 1) }
{
    let code = terminal.code();
    code < 128 && set >> code & 1 == 1
}

/// The token that the terminal reads from this offset on: a look-up in the set that is kept, but for the
/// later parts of templates.
pub fn terminal_at<L: Ledger>(
    reader: &mut Reader,
    context: Context,
    terminal: Terminal,
    at: u32,
    steps: &mut Steps<L>,
) -> Option<Token>
    requires { IsCharBoundary reader.old at }
    ensures same { reader.new ≡ reader.old }
    ensures token { result ≡ terminal_at reader.old context terminal at }
    ensures within { IfSome result (λ found. IsWithin reader.old at found) }
{
    match terminal {
        Terminal::Middle | Terminal::Tail => tested(reader, context, terminal, at, steps),
        _ => plain_terminal_at(reader, context, terminal, at, steps),
    }
}

/// The same for a terminal that reads no later part of a template.
fn plain_terminal_at<L: Ledger>(
    reader: &mut Reader,
    context: Context,
    terminal: Terminal,
    at: u32,
    steps: &mut Steps<L>,
) -> Option<Token>
    requires boundary { IsCharBoundary reader.old at }
    requires plain { goes_on terminal ≡ false }
    ensures same { reader.new ≡ reader.old }
    ensures token { result ≡ terminal_at reader.old context terminal at }
    ensures within { IfSome result (λ found. IsWithin reader.old at found) }
{
    let spot = Spot {
        at,
        context,
        room: 0,
    };
    let set = terminals_at(reader, spot, steps);
    if has(set, terminal) {
        reader.token(at, mode_of(terminal), steps)
    } else {
        None
    }
}

/// The code of the comma among the texts of single tokens.
const COMMA: u8 = 9;

/// The comma that is the next token.
pub fn comma_at<L: Ledger>(reader: &mut Reader, spot: Spot, steps: &mut Steps<L>) -> Option<Token>
    requires { IsCharBoundary reader.old spot.at }
    ensures same { reader.new ≡ reader.old }
    ensures comma { result ≡ comma_at reader.old spot }
    ensures moves { IfSome result (λ comma. spot.at < comma.span.end) }
    ensures ends { IfSome result (λ comma. IsCharBoundary reader.old comma.span.end) }
{
    terminal_at(
        reader,
        spot.context,
        Terminal::Spelled(COMMA),
        spot.at,
        steps,
    )
}
