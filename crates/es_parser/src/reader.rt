//! A text that is being read, with what is known of it: tokens, the terminals that read them, and what was
//! found not to be there.
ghost use Rattle.std.specs.Prelude.{◌≡◌, ℕ, List, Some, None, All, IfOk, IfSome, IsNone, slice_range};
ghost use Rattle.std.specs.Bool.{OnTrue};
ghost use Rattle.std.specs.Str.{IsCharBoundary};
ghost use Rattle.es_text.specs.Texts.{text_bytes};
ghost use Rattle.es_text.specs.Skipped.{hold_line};
ghost use Rattle.es_text.specs.Tokens.{skipped_at, token};
ghost use Rattle.es_grammar.specs.declared.draft.Outcome.TheVariants.{Not, Read};
ghost use Rattle.es_grammar.specs.Reading.{Reads};
ghost use Rattle.es_parser.specs.Ends.{EndsFrom};
ghost use Rattle.es_parser.specs.Kept.{HasTerminals, IsKeptOutcome, IsKeptSet, IsOutcome};

use es_grammar::{Context, Draft, Spot, Symbol};
use es_lexer::{has_line, next};
use es_text::{LexMode, NoMemory, Source, Steps, Token};
use std::alloc::Global;
use std::marker::Model;
use std::sync::ledger::Ledger;
use std::{cmp, mem};

/// A token that was read from the offset `at` on, where `/` and `}` are punctuators.
#[derive(Clone, Copy)]
pub struct KeptToken {
    pub at: u32,
    pub token: Token,
}

/// The set of the terminals that read the next token from the offset `at` on: there the bit of each one's
/// code is set.
#[derive(Clone, Copy)]
pub struct KeptTerminals {
    pub at: u32,
    pub context: Context,
    pub set: u128,
}

/// A symbol that reads nothing at a spot.
#[derive(Clone, Copy)]
pub struct Refusal {
    pub symbol: Symbol,
    pub spot: Spot,
}

/// What a symbol reads at a spot, and the offset behind it.
#[derive(Drop)]
pub struct KeptOutcome {
    pub symbol: Symbol,
    pub spot: Spot,
    pub draft: Draft,
    pub end: u32,
}

/// How many sets of terminals, refusals and outcomes are kept at most: powers of 2. Of a short text fewer are kept.
const SETS: usize = 1024;

const REFUSALS: usize = 16_384;

const OUTCOMES: usize = 512;

/// How many of each are kept at least.
const LEAST: usize = 32;

/// A text that is being read. Contracts see its bytes.
///
/// It takes 4 bytes for each byte of the text, 20 for each token and 400 KB at most besides.
#[derive(Drop)]
pub struct Reader<'a> {
    source: &'a Source,
    /// For each offset of the text the index of the token that was read there.
    places: Vec<u32>,
    tokens: Vec<KeptToken>,
    /// Of the sets with one place the last one is kept; of the refusals too.
    terminals: Vec<Option<KeptTerminals>>,
    refusals: Vec<Option<Refusal>>,
    outcomes: Vec<Option<KeptOutcome>>,
}

impl<'a> Model for Reader<'a> {
    ghost use Rattle.std.specs.Prelude.{ℕ, List, All};
    ghost use Rattle.es_text.specs.Texts.{text_bytes};

    ghost Value = { List ℕ };

    ghost use Rattle.es_parser.specs.Kept.{IsKept, IsKeptOutcome, IsKeptSet, IsRefused};

    ghost view = { λ reader. text_bytes reader.source.now };

    ghost invariant = { λ reader. All (IsKept (text_bytes reader.source.now)) reader.tokens.items
        × All (IsKeptSet (text_bytes reader.source.now)) reader.terminals.items
        × All (IsRefused (text_bytes reader.source.now)) reader.refusals.items
        × All (IsKeptOutcome (text_bytes reader.source.now)) reader.outcomes.items };
}

fn is_same(one: Spot, other: Spot) -> bool
    ensures { OnTrue result (one ≡ other) }
{
    one.at == other.at && one.context == other.context && one.room == other.room
}

/// Whether refusals of the symbol are kept: what it reads may be long and yet be refused for what follows
/// it, and what is tried in its place goes over the same text.
fn is_kept(symbol: Symbol) -> bool {
    match symbol {
        Symbol::ArrowFunction
        | Symbol::DestructuringAssignment
        | Symbol::AssignmentPattern
        | Symbol::ForInOfHead => true,
        _ => false,
    }
}

/// The place of this key in a table of so many places, which are a power of 2.
fn place_of(key: u64, count: usize) -> usize {
    key as usize & count.wrapping_sub(1)
}

/// How many entries a table has that has so many at most, for a text of so many bytes: a power of 2.
fn entries(length: usize, most: usize) -> usize {
    let wanted = cmp::min(length / 4, REFUSALS) + LEAST;
    cmp::min(wanted.next_power_of_two(), most)
}

/// A table in which nothing is kept yet.
fn table<T: Copy + Drop>(alloc: Global, count: usize) -> Result<Vec<Option<T>>, NoMemory>
    ensures { IfOk result (λ table. All (λ kept. IsNone kept) table.items) }
{
    Ok(vec![in alloc; None; count]?)
}

/// The table of outcomes, in which nothing is kept yet.
fn no_outcomes(alloc: Global, count: usize) -> Result<Vec<Option<KeptOutcome>>, NoMemory>
    ensures { IfOk result (λ table. All (λ kept. IsNone kept) table.items) }
{
    let mut table = Vec::with_capacity(alloc, count)?;
    for _ in 0..count {
        table.push(None)?;
    }
    Ok(table)
}

/// Whether the two contexts are one.
fn is_in(one: Context, other: Context) -> bool
    ensures { OnTrue result (one ≡ other) }
{
    one == other
}

/// The set, if it is that of this offset and context.
fn set_for(kept: &Option<KeptTerminals>, at: u32, context: Context) -> Option<u128>
    ensures { (text : List ℕ) → IsKeptSet text kept.now →
        IfSome result (λ set. HasTerminals text context at set) }
{
    match kept {
        Some(kept) => {
            if kept.at == at && is_in(kept.context, context) {
                Some(kept.set)
            } else {
                None
            }
        }
        None => None,
    }
}

/// Takes what is kept in this place of the table.
fn taken(table: &mut Vec<Option<KeptOutcome>>, place: usize) -> Option<KeptOutcome>
    ensures kept { (text : List ℕ) → All (IsKeptOutcome text) table.old.items →
        IfSome result (λ kept. IsOutcome text kept) }
    ensures rest { (text : List ℕ) → All (IsKeptOutcome text) table.old.items →
        All (IsKeptOutcome text) table.new.items }
{
    if place >= table.len() {
        return None;
    }
    mem::replace(&mut table[place], None)
}

/// Whether what the symbol reads may be kept: it may be long, and is read at the same spot by what is tried
/// in turn.
fn is_shared(symbol: Symbol) -> bool {
    match symbol {
        Symbol::AssignmentExpression | Symbol::LeftHandSideExpression => true,
        _ => false,
    }
}

impl<'a> Reader<'a> {
    ghost use Rattle.es_parser.specs.Kept.{HasTerminals, IsKept, IsWithin};

    /// Nothing is known of the text yet.
    pub fn new(alloc: Global, source: &'a Source) -> Result<Reader<'a>, NoMemory>
        ensures { IfOk result (λ reader. reader ≡ text_bytes source.now) }
    {
        let length = source.text().len();
        let places = vec![in alloc; u32::MAX; length + 1]?;
        let terminals = table(alloc, entries(length, SETS))?;
        let refusals = table(alloc, entries(length, REFUSALS))?;
        let outcomes = no_outcomes(alloc, entries(length, OUTCOMES))?;
        Ok(Reader {
            source,
            places,
            tokens: Vec::new(alloc),
            terminals,
            refusals,
            outcomes,
        })
    }

    /// The token that is read from this offset on.
    pub fn token<L: Ledger>(
        &mut self,
        at: u32,
        mode: LexMode,
        steps: &mut Steps<L>,
    ) -> Option<Token>
        requires { IsCharBoundary self.old at }
        ensures same { self.new ≡ self.old }
        ensures token { result ≡ token self.old at mode }
        ensures within { IfSome result (λ found. IsWithin self.old at found) }
    {
        match mode {
            LexMode::Division => self.plain_token(at, steps),
            other => self.fresh_token(at, other, steps),
        }
    }

    /// The same where `/` and `}` are punctuators.
    fn plain_token<L: Ledger>(&mut self, at: u32, steps: &mut Steps<L>) -> Option<Token>
        requires { IsCharBoundary self.old at }
        ensures same { self.new ≡ self.old }
        ensures token { result ≡ token self.old at LexMode.Division }
        ensures within { IfSome result (λ found. IsWithin self.old at found) }
    {
        match self.kept_token(at) {
            Some(token) => Some(token),
            None => {
                let token = self.fresh_token(at, LexMode::Division, steps)?;
                self.keep_token(KeptToken { at, token });
                Some(token)
            }
        }
    }

    /// The same without a look at what is known.
    fn fresh_token<L: Ledger>(&self, at: u32, mode: LexMode, steps: &mut Steps<L>) -> Option<Token>
        requires { IsCharBoundary self.now at }
        ensures token { result ≡ token self.now at mode }
        ensures within { IfSome result (λ found. IsWithin self.now at found) }
    {
        match next(self.source, at, mode, steps) {
            Ok(token) => Some(token),
            Err(_) => None,
        }
    }

    /// The token that was read at this offset, if it is still known.
    fn kept_token(&self, at: u32) -> Option<Token>
        ensures token { IfSome result (λ found. token self.now at LexMode.Division ≡ Some found) }
        ensures within { IfSome result (λ found. IsWithin self.now at found) }
    {
        let index = *self.places.get(at as usize)?;
        let kept = *self.tokens.get(index as usize)?;
        if kept.at == at {
            Some(kept.token)
        } else {
            None
        }
    }

    /// Keeps the token, unless there is no memory for it.
    fn keep_token(&mut self, kept: KeptToken)
        requires { IsKept self.old kept }
        ensures { self.new ≡ self.old }
    {
        let index = self.tokens.len();
        if index < u32::MAX as usize && (kept.at as usize) < self.places.len() {
            if self.tokens.push(kept).is_ok() {
                self.places[kept.at as usize] = index as u32;
            }
        }
    }

    /// The set of the terminals that read the next token, if it is still known.
    pub fn kept_terminals(&self, at: u32, context: Context) -> Option<u128>
        ensures { IfSome result (λ set. HasTerminals self.now context at set) }
    {
        match self
            .terminals
            .get(place_of(at as u64, self.terminals.len()))
        {
            Some(kept) => set_for(kept, at, context),
            None => None,
        }
    }

    /// Keeps the set.
    pub fn keep_terminals(&mut self, kept: KeptTerminals)
        requires { HasTerminals self.old kept.context kept.at kept.set }
        ensures { self.new ≡ self.old }
    {
        let place = place_of(kept.at as u64, self.terminals.len());
        if place < self.terminals.len() {
            self.terminals[place] = Some(kept);
        }
    }

    /// Whether the symbol is known to read nothing there: of a few symbols that is kept.
    pub fn is_refused(&self, symbol: Symbol, spot: Spot) -> bool
        ensures { OnTrue result (Reads self.now symbol spot Not) }
    {
        if !is_kept(symbol) {
            return false;
        }
        match self.refused_at(refusal_key(symbol, spot), spot) {
            Some(refused) => refused == symbol,
            None => false,
        }
    }

    /// The symbol with this key that is known to read nothing at the spot.
    fn refused_at(&self, key: u64, spot: Spot) -> Option<Symbol>
        ensures { IfSome result (λ symbol. Reads self.now symbol spot Not) }
    {
        match self.refusals.get(place_of(key, self.refusals.len())) {
            Some(Some(kept)) => {
                if is_same(kept.spot, spot) {
                    Some(kept.symbol)
                } else {
                    None
                }
            }
            _ => None,
        }
    }

    /// Keeps that the symbol reads nothing there, where that may save time.
    pub fn refuse(&mut self, symbol: Symbol, spot: Spot)
        requires { Reads self.old symbol spot Not }
        ensures { self.new ≡ self.old }
    {
        let place = place_of(refusal_key(symbol, spot), self.refusals.len());
        if is_kept(symbol) && place < self.refusals.len() {
            self.refusals[place] = Some(Refusal { symbol, spot });
        }
    }

    /// Whether this place of the table has what the symbol reads at the spot.
    fn has_outcome(&self, place: usize, symbol: Symbol, spot: Spot) -> bool {
        match self.outcomes.get(place) {
            Some(Some(kept)) => kept.symbol == symbol && is_same(kept.spot, spot),
            _ => false,
        }
    }

    /// What the symbol reads there, if it is kept. It is kept no longer.
    pub fn take(&mut self, symbol: Symbol, spot: Spot) -> Option<KeptOutcome>
        ensures same { self.new ≡ self.old }
        ensures reads { IfSome result (λ kept.
            Reads self.old symbol spot (Read kept.draft kept.end)) }
        ensures ends { IfSome result (λ kept.
            EndsFrom self.old spot.at (Read kept.draft kept.end)) }
    {
        if !is_shared(symbol) {
            return None;
        }
        let place = place_of(refusal_key(symbol, spot), self.outcomes.len());
        if !self.has_outcome(place, symbol, spot) {
            return None;
        }
        let kept = self.take_at(place, spot)?;
        if kept.symbol == symbol {
            Some(kept)
        } else {
            None
        }
    }

    /// What is kept in this place, if that is of the spot.
    fn take_at(&mut self, place: usize, spot: Spot) -> Option<KeptOutcome>
        ensures same { self.new ≡ self.old }
        ensures outcome { IfSome result (λ kept. IsOutcome self.old kept) }
        ensures spot { IfSome result (λ kept. kept.spot ≡ spot) }
    {
        let found = taken(&mut self.outcomes, place)?;
        if is_same(found.spot, spot) {
            Some(found)
        } else {
            None
        }
    }

    /// Keeps what the symbol reads there, where that may save time.
    pub fn keep(&mut self, kept: KeptOutcome)
        requires { IsOutcome self.old kept }
        ensures { self.new ≡ self.old }
    {
        let place = place_of(refusal_key(kept.symbol, kept.spot), self.outcomes.len());
        if is_shared(kept.symbol) && place < self.outcomes.len() {
            self.outcomes[place] = Some(kept);
        }
    }

    /// Whether a line ends before the next token, or before what no token fits.
    pub fn has_line(&self, at: u32) -> bool
        requires { IsCharBoundary self.now at }
        ensures { result ≡ hold_line (skipped_at self.now at) }
    {
        has_line(self.source, at)
    }

    /// The text of the token.
    pub fn text_of(&self, token: Token) -> &str
        requires within { IsWithin self.now token.span.start token }
        ensures { result.now ≡ slice_range self.now token.span.start token.span.end }
    {
        self.source.slice(token.span)
    }
}

/// A number that spreads symbols and spots over a table.
fn refusal_key(symbol: Symbol, spot: Spot) -> u64 {
    let place = (spot.at as u64) << 17 | (spot.room as u64) << 8 | symbol as u64;
    place.wrapping_mul(0x9e37_79b9_7f4a_7c15) >> 20
}
