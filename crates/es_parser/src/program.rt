//! A whole program.
ghost use Rattle.std.specs.Prelude.{◌≡◌, ◌≤◌, true, IfOk};
ghost use Rattle.std.specs.Str.{IsCharBoundary, chars};
ghost use Rattle.es_tree.specs.declared.shape.Shape.{out-Shape};
ghost use Rattle.es_tree.specs.Shapes.{height};
ghost use Rattle.es_text.specs.Texts.{text_bytes};
ghost use Rattle.es_grammar.specs.Drafts.{joined};
ghost use Rattle.es_grammar.specs.Parts.{greatest_height};
ghost use Rattle.es_grammar.specs.Trees.{ReadsProgram, Whole, is_low, program_of, source_words};
ghost use Rattle.es_parser.specs.Programs.{IsFinished, answer_of, are_low};

use crate::directives::with_directives;
use crate::drafts::{add_token, join, nothing};
use crate::items::{Item, first_offset, item_at};
use crate::leaves::words;
use crate::nodes::{with_children, with_settings};
use crate::reader::Reader;
use es_grammar::{Child, Draft, Field};
use es_text::{Items, NoMemory, Source, SourceType, Span, Steps, Token};
use es_tree::{Node, heights, kind};
use std::alloc::Global;
use std::sync::ledger::Ledger;

/// What reading a program gives.
#[derive(Drop)]
pub enum Answer {
    /// The program and the tokens of its text, the end last.
    Whole(Node, Items<Token>),
    /// The first item that isn't there, behind what is skipped before it.
    Unread(u32),
    /// The first item that is nested too deeply.
    TooDeep(u32),
}

#[tactic(auto, unfolding(es_grammar::specs::Trees::source_words))]
fn source_words(source_type: SourceType) -> &'static str
    ensures { result.now ≡ source_words source_type }
{
    match source_type {
        SourceType::Module => "module",
        SourceType::Commonjs => "commonjs",
        SourceType::Script => "script",
    }
}

/// The program with these items.
fn program_of(
    alloc: Global,
    source: &Source,
    source_type: SourceType,
    items: Items<Child>,
) -> Result<Node, NoMemory>
    requires { are_low items ≡ true }
    ensures program { IfOk result (λ node.
        node ≡ program_of (text_bytes source.now) source_type items) }
    ensures low { IfOk result (λ node. height node ≤ greatest_height) }
{
    heights();
    let children = with_directives(alloc, items)?;
    let mut settings = Items::new(alloc);
    settings.push(words(alloc, Field::SourceType, source_words(source_type))?)?;
    let span = Span {
        start: 0,
        end: source.text().len() as u32,
    };
    let node = with_settings(alloc, kind::PROGRAM, span, settings)?;
    match with_children(kind::PROGRAM, node, children)? {
        Some(node) => Ok(node),
        None => unreachable!(),
    }
}

/// The program with these items, which are the last ones.
fn whole(
    alloc: Global,
    source: &Source,
    source_type: SourceType,
    items: Draft,
) -> Result<Answer, NoMemory>
    requires { is_low items ≡ true }
    ensures whole { IfOk result (λ answer. answer_of answer
        ≡ Whole (program_of (text_bytes source.now) source_type items.children) items.tokens) }
    ensures finished { IfOk result IsFinished }
{
    let Draft {
        children,
        tokens,
        ..
    } = items;
    let node = program_of(alloc, source, source_type, children)?;
    Ok(Answer::Whole(node, tokens))
}

/// Where the items begin.
fn start(source: &Source) -> u32
    ensures zero { result ≡ 0 }
    ensures boundary { IsCharBoundary (text_bytes source.now) result }
{
    // That a text begins on a boundary is a clause of its call.
    let _text = source.text();
    0
}

/// The items that were read, and one more.
fn with_item(items: Draft, item: Draft) -> Result<Draft, NoMemory>
    requires items { is_low items ≡ true }
    requires item { is_low item ≡ true }
    ensures joined { IfOk result (λ all. all ≡ joined items item) }
    ensures low { IfOk result (λ all. is_low all ≡ true) }
{
    join(items, item)
}

/// The program that the text is.
pub fn program<L: Ledger>(
    alloc: Global,
    source: &Source,
    source_type: SourceType,
    steps: &mut Steps<L>,
) -> Result<Answer, NoMemory>
    ensures reads { IfOk result (λ answer.
        ReadsProgram (text_bytes source.now) source_type (answer_of answer)) }
    ensures finished { IfOk result IsFinished }
{
    let mut reader = Reader::new(alloc, source)?;
    let mut draft = nothing(alloc);
    let mut at = start(source);
    loop {
        match item_at(alloc, &mut reader, source_type, at, steps)? {
            Item::End(end) => {
                add_token(&mut draft, end)?;
                return whole(alloc, source, source_type, draft);
            }
            Item::Unread => return Ok(Answer::Unread(first_offset(source, at, steps))),
            Item::TooDeep => return Ok(Answer::TooDeep(first_offset(source, at, steps))),
            Item::Read(item, end) => {
                draft = with_item(draft, item)?;
                at = end;
            }
        }
    }
}
