//! The sets of the terminals that read a token.
ghost use Rattle.std.specs.Prelude.{◌≡◌, ◌≢◌, ◌<◌, ◌≤◌, ℕ, Some, None, is_some, true, false};
ghost use Rattle.std.specs.Int.{bit_at};
ghost use Rattle.std.specs.Str.{IsCharBoundary};
ghost use Rattle.es_grammar.specs.TerminalSets.{code_of};
ghost use Rattle.es_text.specs.Tokens.{token};
ghost use Rattle.es_parser.specs.Found.{Found};
ghost use Rattle.es_parser.specs.KindSets.{is_reserved_code, is_slash, kind_set};
ghost use Rattle.es_parser.specs.Kept.{HasTerminals, IsWithin, plain_at};

use crate::reader::{KeptTerminals, Reader};
use crate::tested::tested;
use crate::text_sets::{text_code, text_set};
use es_grammar::{Context, Spot, Terminal, one_code};
use es_text::{LexMode, Steps, Token, TokenKind};
use std::sync::ledger::Ledger;

/// The terminal with this code.
#[tactic(auto, unfolding(es_grammar::specs::TerminalSets::code_of))]
fn terminal_of(code: u32) -> Terminal
    requires { code < 276 }
    ensures { code_of result ≡ code }
{
    match code {
        0 => Terminal::Word,
        1 => Terminal::Name,
        2 => Terminal::Private,
        3 => Terminal::Number,
        4 => Terminal::Text,
        5 => Terminal::RegExp,
        6 => Terminal::Full,
        7 => Terminal::Head,
        8 => Terminal::Middle,
        9 => Terminal::Tail,
        10 => Terminal::AccessorWord,
        11 => Terminal::DeclarationWord,
        12 => Terminal::AssignmentOperator,
        13 => Terminal::EqualityOperator,
        14 => Terminal::RelationalOperator,
        15 => Terminal::ShiftOperator,
        16 => Terminal::AdditiveOperator,
        17 => Terminal::MultiplicativeOperator,
        18 => Terminal::UnaryOperator,
        19 => Terminal::UpdateOperator,
        other => Terminal::Spelled((other - 20) as u8),
    }
}

/// The set with this code, where a token is found for it.
fn with_found(set: u128, code: u32, found: bool) -> u128
    requires { code < 128 }
    ensures others { (k : ℕ) → k ≢ code → bit_at result k ≡ bit_at set k }
    ensures this { found ≡ true → bit_at result code ≡ 1 }
    ensures none { found ≡ false → result ≡ set }
{
    if found { set | 1 << code } else { set }
}

/// How many terminals read tokens by their kinds; the others read them by their texts.
const KINDS: u32 = 10;

/// How many terminals there are in all.
const COUNT: u32 = 125;

/// The code of the terminal that reads regular expressions.
const REGEXP: u32 = 5;

/// The code of the first reserved word among the texts of single tokens, and that of `await` behind them.
const KEYWORDS: u32 = 57;

const AWAIT: u32 = 95;

/// The token that the terminal reads, where that is no later part of a template: such a part may be long,
/// and begins only what reads one.
fn plain_at<L: Ledger>(
    reader: &mut Reader,
    spot: Spot,
    terminal: Terminal,
    steps: &mut Steps<L>,
) -> Option<Token>
    requires { IsCharBoundary reader.old spot.at }
    ensures same { reader.new ≡ reader.old }
    ensures token { result ≡ plain_at reader.old spot.context terminal spot.at }
{
    match terminal {
        Terminal::Middle | Terminal::Tail => None,
        other => tested(reader, spot.context, other, spot.at, steps),
    }
}

/// The set with those of the codes from one up to another whose terminals read the next token.
fn find_between<L: Ledger>(
    reader: &mut Reader,
    spot: Spot,
    set: u128,
    from: u32,
    to: u32,
    steps: &mut Steps<L>,
) -> u128
    requires boundary { IsCharBoundary reader.old spot.at }
    requires order { (from ≤ to) × (to ≤ 125) }
    requires below { Found reader.old spot.context spot.at set from }
    ensures same { reader.new ≡ reader.old }
    ensures found { Found reader.old spot.context spot.at result to }
{
    one_code();
    let mut set = set;
    for code in from..to {
        let found = plain_at(reader, spot, terminal_of(code), steps);
        set = with_found(set, code, found.is_some());
    }
    set
}

/// The set of the terminals that read a token of this kind, but for regular expressions.
#[tactic(auto, unfolding(crate::specs::KindSets::kind_set))]
fn kind_set(kind: TokenKind, reserved: bool) -> u128
    ensures { result ≡ kind_set kind reserved }
{
    match kind {
        TokenKind::Word => { if reserved { 1 } else { 3 } }
        TokenKind::Private => 4,
        TokenKind::Number => 8,
        TokenKind::Text => 16,
        TokenKind::Full => 64,
        TokenKind::Head => 128,
        _ => 0,
    }
}

/// Whether the text with this code is a word that is reserved here.
#[tactic(auto, unfolding(crate::specs::KindSets::is_reserved_code))]
fn is_reserved(context: Context, code: Option<u32>) -> bool
    ensures { result ≡ is_reserved_code context code }
{
    match code {
        Some(code) => {
            let is_keyword = !(code < KEYWORDS) && code < AWAIT;
            let is_await = code == AWAIT && (context.in_module || context.await_operator);
            is_keyword || is_await
        }
        None => false,
    }
}

/// Whether a token of this kind begins with a slash.
#[tactic(auto, unfolding(crate::specs::KindSets::is_slash))]
fn is_slash(kind: TokenKind) -> bool
    ensures { result ≡ is_slash kind }
{
    match kind {
        TokenKind::Punctuator(code) => code == 21 || code == 45,
        _ => false,
    }
}

/// Whether a regular expression is read where else this token is.
fn begins_regexp<L: Ledger>(
    reader: &mut Reader,
    spot: Spot,
    found: Token,
    steps: &mut Steps<L>,
) -> bool
    requires boundary { IsCharBoundary reader.old spot.at }
    requires token { token reader.old spot.at LexMode.Division ≡ Some found }
    ensures same { reader.new ≡ reader.old }
    ensures regexp { result ≡ is_some (plain_at reader.old spot.context Terminal.RegExp spot.at) }
{
    if is_slash(found.kind) {
        plain_at(reader, spot, Terminal::RegExp, steps).is_some()
    } else {
        false
    }
}

/// The set of the terminals that read this token, which is the next one.
fn with_token<L: Ledger>(
    reader: &mut Reader,
    spot: Spot,
    found: Token,
    steps: &mut Steps<L>,
) -> u128
    requires boundary { IsCharBoundary reader.old spot.at }
    requires token { token reader.old spot.at LexMode.Division ≡ Some found }
    requires within { IsWithin reader.old spot.at found }
    ensures same { reader.new ≡ reader.old }
    ensures found { Found reader.old spot.context spot.at result COUNT }
{
    let code = text_code(spot.context, found.kind, reader.text_of(found));
    let own = kind_set(found.kind, is_reserved(spot.context, code));
    let regexp = begins_regexp(reader, spot, found, steps);
    let kinds = with_found(own, REGEXP, regexp);
    match code {
        Some(code) => kinds | text_set(code),
        None => kinds,
    }
}

/// The set of the terminals that read what follows where that is no token by itself.
fn without_token<L: Ledger>(reader: &mut Reader, spot: Spot, steps: &mut Steps<L>) -> u128
    requires boundary { IsCharBoundary reader.old spot.at }
    requires token { token reader.old spot.at LexMode.Division ≡ None }
    ensures same { reader.new ≡ reader.old }
    ensures found { Found reader.old spot.context spot.at result COUNT }
{
    find_between(reader, spot, 0, 0, KINDS, steps)
}

/// The set of the terminals that read the next token.
fn find_terminals<L: Ledger>(reader: &mut Reader, spot: Spot, steps: &mut Steps<L>) -> u128
    requires { IsCharBoundary reader.old spot.at }
    ensures same { reader.new ≡ reader.old }
    ensures set { HasTerminals reader.old spot.context spot.at result }
{
    match reader.token(spot.at, LexMode::Division, steps) {
        Some(found) => with_token(reader, spot, found, steps),
        None => without_token(reader, spot, steps),
    }
}

/// The same, which is looked for once.
#[inline(never)]
pub fn terminals_at<L: Ledger>(reader: &mut Reader, spot: Spot, steps: &mut Steps<L>) -> u128
    requires { IsCharBoundary reader.old spot.at }
    ensures same { reader.new ≡ reader.old }
    ensures set { HasTerminals reader.old spot.context spot.at result }
{
    match reader.kept_terminals(spot.at, spot.context) {
        Some(set) => set,
        None => {
            let set = find_terminals(reader, spot, steps);
            reader.keep_terminals(KeptTerminals {
                at: spot.at,
                context: spot.context,
                set,
            });
            set
        }
    }
}
