//! The items of a program.
ghost use Rattle.std.specs.Prelude.{◌≡◌, Some, IfOk, IfSome, IfNone, List, false, true};
ghost use Rattle.std.specs.Str.{IsCharBoundary};
ghost use Rattle.es_text.specs.Tokens.{first_offset, token};
ghost use Rattle.es_text.specs.Texts.{text_bytes};
ghost use Rattle.es_grammar.specs.Conditions.{is_end};
ghost use Rattle.es_grammar.specs.Trees.{is_at_end, is_low, is_module, item_of, item_spot};
ghost use Rattle.es_parser.specs.Programs.{IsItem};

use crate::reader::Reader;
use crate::reading::read;
use crate::sketches::are_lower;
use es_grammar::{Context, Draft, GREATEST_HEIGHT, Outcome, ROOM, Spot, Symbol};
use es_lexer::{LexFault, next};
use es_text::{LexMode, NoMemory, Source, SourceType, Steps, Token, TokenKind};
use std::alloc::Global;
use std::sync::ledger::Ledger;

/// What there is at an offset of a program.
#[derive(Drop)]
pub enum Item {
    /// The end of the text.
    End(Token),
    Unread,
    TooDeep,
    /// An item, and the offset behind it.
    Read(Draft, u32),
}

#[tactic(auto, unfolding(es_grammar::specs::Trees::is_module))]
fn is_module(source_type: SourceType) -> bool
    ensures { result ≡ is_module source_type }
{
    match source_type {
        SourceType::Module => true,
        SourceType::Commonjs | SourceType::Script => false,
    }
}

#[tactic(auto, unfolding(es_grammar::specs::Trees::item_of))]
fn item_of(source_type: SourceType) -> Symbol
    ensures { result ≡ item_of source_type }
{
    match source_type {
        SourceType::Module => Symbol::ModuleItem,
        SourceType::Commonjs | SourceType::Script => Symbol::StatementListItem,
    }
}

/// Where an item is read.
fn item_spot(source_type: SourceType, at: u32) -> Spot
    ensures { result ≡ item_spot source_type at }
{
    let module = is_module(source_type);
    let context = Context {
        await_operator: module,
        yield_operator: false,
        in_operator: true,
        in_module: module,
    };
    Spot {
        at,
        context,
        room: ROOM,
    }
}

fn is_end(kind: TokenKind) -> bool
    ensures { result ≡ is_end kind }
{
    match kind {
        TokenKind::End => true,
        _ => false,
    }
}

/// The end of the text, if nothing else is next.
fn end_at<L: Ledger>(reader: &mut Reader, at: u32, steps: &mut Steps<L>) -> Option<Token>
    requires { IsCharBoundary reader.old at }
    ensures same { reader.new ≡ reader.old }
    ensures found { IfSome result (λ end. token reader.old at LexMode.Division ≡ Some end) }
    ensures end { IfSome result (λ end. is_end end.kind ≡ true) }
    ensures none { IfNone result (is_at_end reader.old at ≡ false) }
{
    let found = reader.token(at, LexMode::Division, steps)?;
    if is_end(found.kind) {
        Some(found)
    } else {
        None
    }
}

/// Whether the items are low enough. The program around them counts in the height.
fn is_low(item: &Draft) -> bool
    ensures { result ≡ is_low item.now }
{
    are_lower(item.children.as_slice(), GREATEST_HEIGHT)
}

/// What there is at this offset.
pub fn item_at<L: Ledger>(
    alloc: Global,
    reader: &mut Reader,
    source_type: SourceType,
    at: u32,
    steps: &mut Steps<L>,
) -> Result<Item, NoMemory>
    requires { IsCharBoundary reader.old at }
    ensures same { reader.new ≡ reader.old }
    ensures item { IfOk result (λ item. IsItem reader.old source_type at item) }
{
    if let Some(end) = end_at(reader, at, steps) {
        return Ok(Item::End(end));
    }
    let spot = item_spot(source_type, at);
    match read(alloc, reader, item_of(source_type), spot, steps)? {
        Outcome::Not => Ok(Item::Unread),
        Outcome::Deep => Ok(Item::TooDeep),
        Outcome::Read(item, end) => {
            if end <= at {
                Ok(Item::Unread)
            } else if is_low(&item) {
                Ok(Item::Read(item, end))
            } else {
                Ok(Item::TooDeep)
            }
        }
    }
}

/// Where an item begins that starts behind this offset.
pub fn first_offset<L: Ledger>(source: &Source, at: u32, steps: &mut Steps<L>) -> u32
    requires { IsCharBoundary (text_bytes source.now) at }
    ensures { result ≡ first_offset (text_bytes source.now) at }
{
    match next(source, at, LexMode::Division, steps) {
        Ok(token) => token.span.start,
        Err(LexFault::NoToken { at }) => at,
    }
}
