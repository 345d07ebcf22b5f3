//! Whether the next token can begin a turn of a rule.
ghost use Rattle.std.specs.Prelude.{◌≡◌, ◌<◌};
ghost use Rattle.std.specs.Bool.{OnTrue, OnFalse};
ghost use Rattle.std.specs.Str.{IsCharBoundary};
ghost use Rattle.es_grammar.specs.Firsts.{CanBegin, turn_rows};
ghost use Rattle.es_grammar.specs.Grammar.{rule_of};
ghost use Rattle.es_grammar.specs.TerminalSets.{code_of};
ghost use Rattle.es_parser.specs.Begins.{BeginsNext};
ghost use Rattle.es_parser.specs.Kept.{HasTerminals};

use crate::reader::Reader;
use crate::sets::terminals_at;
use crate::terminals::terminal_at;
use es_grammar::{Spot, Symbol, Terminal, one_code};
use es_text::Steps;
use std::sync::ledger::Ledger;

/// Whether a token that the terminal reads is the next one, and can begin a turn of the symbol's rule.
fn begins_with<L: Ledger>(
    reader: &mut Reader,
    symbol: Symbol,
    spot: Spot,
    terminal: Terminal,
    steps: &mut Steps<L>,
) -> bool
    requires boundary { IsCharBoundary reader.old spot.at }
    requires code { code_of terminal < 128 }
    ensures same { reader.new ≡ reader.old }
    ensures some { OnTrue result (BeginsNext reader.old spot terminal symbol) }
    ensures none { OnFalse result (BeginsNext reader.old spot terminal symbol → ⊥) }
{
    one_code();
    es_grammar::can_begin(symbol, 1 << terminal.code())
        && terminal_at(reader, spot.context, terminal, spot.at, steps).is_some()
}

/// The set of the terminals that read later parts of templates.
pub const LATER_PARTS: u128 = 0x300;

/// Whether the next token can begin a turn of the symbol's rule. The set has the terminals that read it.
#[tactic(auto, unfolding(es_grammar::specs::TerminalSets::code_of))]
pub fn can_begin_among<L: Ledger>(
    reader: &mut Reader,
    symbol: Symbol,
    spot: Spot,
    terminals: u128,
    steps: &mut Steps<L>,
) -> bool
    requires boundary { IsCharBoundary reader.old spot.at }
    requires set { HasTerminals reader.old spot.context spot.at terminals }
    ensures same { reader.new ≡ reader.old }
    ensures some { OnTrue result (CanBegin reader.old spot (turn_rows (rule_of symbol))) }
    ensures none { OnFalse result (CanBegin reader.old spot (turn_rows (rule_of symbol)) → ⊥) }
{
    if es_grammar::can_begin(symbol, terminals) {
        return true;
    }
    if !es_grammar::can_begin(symbol, LATER_PARTS) {
        return false;
    }
    if begins_with(reader, symbol, spot, Terminal::Middle, steps) {
        return true;
    }
    begins_with(reader, symbol, spot, Terminal::Tail, steps)
}

/// Whether the next token can begin a turn of the symbol's rule.
pub fn can_begin<L: Ledger>(
    reader: &mut Reader,
    symbol: Symbol,
    spot: Spot,
    steps: &mut Steps<L>,
) -> bool
    requires { IsCharBoundary reader.old spot.at }
    ensures same { reader.new ≡ reader.old }
    ensures some { OnTrue result (CanBegin reader.old spot (turn_rows (rule_of symbol))) }
    ensures none { OnFalse result (CanBegin reader.old spot (turn_rows (rule_of symbol)) → ⊥) }
{
    let terminals = terminals_at(reader, spot, steps);
    can_begin_among(reader, symbol, spot, terminals, steps)
}
