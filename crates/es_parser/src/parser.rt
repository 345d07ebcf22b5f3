//! Trees of texts.
ghost use Rattle.std.specs.Prelude.{◌≡◌, ◌≤◌, All, IfOk, IfErr};
ghost use Rattle.std.specs.Str.{IsCharBoundary};
ghost use Rattle.es_text.specs.Texts.{text_bytes};
ghost use Rattle.es_text.specs.Tokens.{comments_between};
ghost use Rattle.es_tree.specs.declared.shape.Shape.{out-Shape};
ghost use Rattle.es_tree.specs.Numbering.{rows_of};
ghost use Rattle.es_tree.specs.Shapes.{height};
ghost use Rattle.es_grammar.specs.Forms.{kind_called};
ghost use Rattle.es_grammar.specs.Parts.{greatest_height};
ghost use Rattle.es_parser.specs.Parsing.{AreInText, IsFault, IsFirstFault, IsInText, IsParsed};
ghost use Rattle.es_early.specs.Errors.{HasNone};

use crate::program::{Answer, program};
use es_early::{Early, early};
use es_grammar::nodes_lie;
use es_lexer::comments;
use es_text::{Items, NoMemory, Source, SourceType, Span, Steps, Token, parts_lie};
use es_tree::{Node, Parsed, Tree, parts_pass};
use std::alloc::Global;
use std::sync::ledger::Ledger;

/// Why a text isn't parsed. Offsets are bytes of the text.
#[derive(Clone, Copy, Debug, PartialEq, Eq)]
pub enum ParseFault {
    /// The item that begins at this offset isn't there; or no token fits at this offset, the first one
    /// behind what is skipped.
    Unread { at: u32 },
    /// The item that begins at this offset is nested too deeply.
    Deep { at: u32 },
    /// The first early error.
    Early { code: u8, span: Span },
    /// Out of memory.
    NoMemory,
}

impl From<NoMemory> for ParseFault {
    ghost use Rattle.std.specs.Prelude.{◌≡◌};
    ghost use Rattle.es_parser.specs.declared.parser.ParseFault.TheVariants as fault;

    ghost from_gives = { λ _ made. made ≡ fault.NoMemory };

    fn from(_error: NoMemory) -> ParseFault {
        ParseFault::NoMemory
    }
}

/// The program with its nodes numbered, its tokens, and the comments between them.
fn parsed(
    alloc: Global,
    source: &Source,
    tree: Node,
    tokens: Items<Token>,
) -> Result<Parsed, NoMemory>
    requires program { (out-Shape tree).kind ≡ kind_called "Program" }
    requires low { height tree ≤ greatest_height }
    requires ends { All (λ token. IsCharBoundary (text_bytes source.now) token.span.end) tokens }
    ensures tree { IfOk result (λ parsed. parsed.tree ≡ rows_of tree) }
    ensures tokens { IfOk result (λ parsed. parsed.tokens ≡ tokens) }
    ensures comments { IfOk result (λ parsed.
        parsed.comments ≡ comments_between (text_bytes source.now) 0 tokens) }
{
    let comments = Items::from_vec(comments(alloc, source, tokens.as_slice())?);
    let tree = Tree::new(alloc, tree)?;
    Ok(Parsed {
        tree,
        tokens,
        comments,
    })
}

/// The tree, unless it has early errors, of which the first is told.
fn without_errors(
    alloc: Global,
    source_type: SourceType,
    parsed: Parsed,
) -> Result<Parsed, ParseFault>
    ensures same { IfOk result (λ kept. kept ≡ parsed) }
    ensures none { IfOk result (λ _. HasNone parsed.tree source_type) }
    ensures first { IfErr result (IsFirstFault parsed.tree source_type) }
{
    match early(alloc, &parsed.tree, source_type)? {
        None => Ok(parsed),
        Some(Early { code, span }) => Err(ParseFault::Early { code, span }),
    }
}

/// Parses the text: its tree, its tokens, the end last, and its comments.
///
/// `Unread` and `Deep` are told of the first item that isn't there or is nested too deeply: at its first
/// token, or, where no token fits there, at the first offset behind what is skipped. Where all items are
/// read, `Early` is told of the first early error.
pub fn parse<L: Ledger>(
    alloc: Global,
    source: &Source,
    source_type: SourceType,
    steps: &mut Steps<L>,
) -> Result<Parsed, ParseFault>
    ensures parsed { IfOk result (IsParsed (text_bytes source.now) source_type) }
    ensures fault { IfErr result (IsFault (text_bytes source.now) source_type) }
    ensures spans { IfOk result (λ parsed. AreInText (text_bytes source.now) parsed.tree) }
    ensures place { IfErr result (IsInText (text_bytes source.now)) }
{
    nodes_lie();
    parts_lie();
    parts_pass();
    // A text is UTF-8, as its call says.
    let _text = source.text();
    match program(alloc, source, source_type, steps)? {
        Answer::Whole(tree, tokens) => {
            let parsed = parsed(alloc, source, tree, tokens)?;
            without_errors(alloc, source_type, parsed)
        }
        Answer::Unread(at) => Err(ParseFault::Unread { at }),
        Answer::TooDeep(at) => Err(ParseFault::Deep { at }),
    }
}
