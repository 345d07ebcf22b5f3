//! How far a reading came, beside the draft of what was read. The interpreter answers this and no
//! outcome, which is large: so its calls take little of the stack.
ghost use Rattle.std.specs.Prelude.{◌≡◌, Ok, IfOk, IsTrue};
ghost use Rattle.es_parser.specs.declared.reached.Reached.{Reached as ReachedOf};
ghost use Rattle.std.specs.Str.{IsCharBoundary};
ghost use Rattle.es_grammar.specs.Drafts.{empty};
ghost use Rattle.es_grammar.specs.Parts.{after, finish};
ghost use Rattle.es_grammar.specs.Reading.{ReadsPart};
ghost use Rattle.es_parser.specs.Ends.{EndsFrom, is_plain};
ghost use Rattle.es_parser.specs.Turns.{outcome_of, turn_of};

use crate::drafts::{extend, is_empty, join, nothing};
use crate::nodes::{finish, finish_alone};
use crate::parts::{of_token, plain, terminal_of};
use crate::reader::Reader;
use crate::terminals::terminal_at;
use es_grammar::{Draft, Field, Outcome, Part, Product, Spot};
use es_text::{Items, NoMemory, Steps};
use std::alloc::Global;
use std::mem;
use std::sync::ledger::Ledger;

/// How far a reading came.
#[derive(Clone, Copy)]
pub enum Reached {
    /// It isn't there.
    Nothing,
    /// It is nested too deeply.
    TooDeep,
    /// The offset behind what was read.
    At(u32),
}

/// How far the parts of a row came, which aren't yet made into what the row makes.
#[derive(Clone, Copy)]
pub struct Found {
    pub makes: Product,
    pub reached: Reached,
}

/// The outcome of a reading that came so far, with this draft.
pub fn outcome_of(reached: Reached, draft: Draft) -> Outcome
    ensures { result ≡ outcome_of reached draft }
{
    match reached {
        Reached::Nothing => Outcome::Not,
        Reached::TooDeep => Outcome::Deep,
        Reached::At(end) => Outcome::Read(draft, end),
    }
}

/// Puts what was read into the draft, and tells how far that came.
fn settle(draft: &mut Draft, outcome: Outcome) -> Reached
    ensures { outcome_of result draft.new ≡ outcome }
{
    match outcome {
        Outcome::Not => Reached::Nothing,
        Outcome::Deep => Reached::TooDeep,
        Outcome::Read(more, end) => {
            *draft = more;
            Reached::At(end)
        }
    }
}

/// Nothing, in place of what the draft had. The memory of its tokens is kept.
#[inline(never)]
pub fn clear(alloc: Global, draft: &mut Draft)
    ensures { draft.new ≡ empty }
{
    if is_empty(draft) {
        return;
    }
    let mut tokens = mem::replace(&mut draft.tokens, Items::new(alloc)).into_vec();
    tokens.clear();
    *draft = nothing(alloc);
    draft.tokens = Items::from_vec(tokens);
}

/// What a symbol gave, behind what was read before it. The second draft is used up.
#[tactic(auto, unfolding(es_grammar::specs::Parts::after))]
#[inline(never)]
pub fn extended(
    alloc: Global,
    draft: &mut Draft,
    field: Option<Field>,
    more: &mut Draft,
    reached: Result<Reached, NoMemory>,
) -> Result<Reached, NoMemory>
    ensures { IfOk result (λ r. (so_far : ReachedOf) × (reached ≡ Ok so_far)
        × (outcome_of r draft.new ≡ after draft.old field (outcome_of so_far more.old))) }
{
    let reached = reached?;
    let Reached::At(_) = reached else {
        return Ok(reached);
    };
    let before = mem::replace(draft, nothing(alloc));
    let more = mem::replace(more, nothing(alloc));
    *draft = extend(alloc, before, field, more)?;
    Ok(reached)
}

/// What a part gives that reads no symbol, behind what was read before it.
#[inline(never)]
pub fn read_plain<L: Ledger>(
    alloc: Global,
    reader: &mut Reader,
    spot: Spot,
    part: Part,
    draft: &mut Draft,
    steps: &mut Steps<L>,
) -> Result<Reached, NoMemory>
    requires plain { IsTrue (is_plain part) }
    requires boundary { IsCharBoundary reader.old spot.at }
    ensures same { reader.new ≡ reader.old }
    ensures reads { IfOk result
        (λ r. ReadsPart reader.old part spot draft.old (outcome_of r draft.new)) }
    ensures ends { IfOk result
        (λ r. EndsFrom reader.old spot.at (outcome_of r draft.new)) }
{
    let Some(terminal) = terminal_of(part) else {
        let reached = plain(alloc, reader, spot, part, draft, steps)?;
        return Ok(reached);
    };
    // Most rows are left here, at their first part.
    let Some(found) = terminal_at(reader, spot.context, terminal, spot.at, steps) else {
        return Ok(Reached::Nothing);
    };
    let reached = of_token(alloc, reader, spot, part, found, draft)?;
    Ok(reached)
}

/// What a row makes of what its parts gave.
#[inline(never)]
pub fn finished(
    alloc: Global,
    makes: Product,
    draft: &mut Draft,
    reached: Reached,
) -> Result<Reached, NoMemory>
    ensures { IfOk result
        (λ r. outcome_of r draft.new ≡ finish makes empty (outcome_of reached draft.old)) }
{
    if let Product::Parts = makes {
        return Ok(reached);
    }
    let parts = mem::replace(draft, nothing(alloc));
    let outcome = finish_alone(alloc, makes, outcome_of(reached, parts))?;
    Ok(settle(draft, outcome))
}

/// What a turn makes of what its row gave, behind what was read before.
fn turn_of(
    alloc: Global,
    taking: bool,
    draft: Draft,
    makes: Product,
    outcome: Outcome,
) -> Result<Outcome, NoMemory>
    ensures { IfOk result (λ o. o ≡ turn_of taking draft makes outcome) }
{
    if taking {
        return finish(alloc, makes, draft, outcome);
    }
    match finish_alone(alloc, makes, outcome)? {
        Outcome::Read(turn, end) => Ok(Outcome::Read(join(draft, turn)?, end)),
        stopped => Ok(stopped),
    }
}

/// The same, into the draft of what was read before. The turn's draft is used up.
#[inline(never)]
pub fn grown(
    alloc: Global,
    taking: bool,
    draft: &mut Draft,
    turn: &mut Draft,
    found: Found,
) -> Result<Reached, NoMemory>
    ensures { IfOk result (λ r. outcome_of r draft.new
        ≡ turn_of taking draft.old found.makes (outcome_of found.reached turn.old)) }
{
    let before = mem::replace(draft, nothing(alloc));
    let turn = mem::replace(turn, nothing(alloc));
    let outcome = outcome_of(found.reached, turn);
    let grown = turn_of(alloc, taking, before, found.makes, outcome)?;
    Ok(settle(draft, grown))
}
