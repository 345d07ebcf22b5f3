//! What is found out of a symbol before it is read: whether it is there, and how far it goes, without its
//! draft.
ghost use Rattle.std.specs.Prelude.{◌≡◌, ◌≤◌, ℕ, IfOk, IfSome, None, nat_lt};
ghost use Rattle.std.specs.Bool.{OnTrue};
ghost use Rattle.std.specs.Str.{IsCharBoundary};
ghost use Rattle.es_tree.specs.Shapes.{height_of};
ghost use Rattle.es_grammar.specs.declared.draft.Draft.{Draft as DraftOf};
ghost use Rattle.es_grammar.specs.declared.draft.Outcome.TheVariants.{Not};
ghost use Rattle.es_grammar.specs.declared.symbol.Symbol.TheVariants.{DestructuringAssignment};
ghost use Rattle.es_grammar.specs.Conditions.{holds};
ghost use Rattle.es_grammar.specs.Reading.{Reads, ReadsPart};
ghost use Rattle.es_parser.specs.declared.reached.Reached.TheVariants.{At, Nothing};
ghost use Rattle.es_parser.specs.Ends.{EndsFrom};
ghost use Rattle.es_parser.specs.Sketches.{Comes, IsBelow, IsFaint, MakesLow, ReachesFrom, Sketched, all_lower, reached_by};
ghost use Rattle.es_parser.specs.Turns.{outcome_of};

use crate::conditions::{holds, is_of_draft, is_target};
use crate::drafts::nothing;
use crate::parts::terminal_of;
use crate::reached::Reached;
use crate::reader::{KeptOutcome, Reader};
use crate::terminals::terminal_at;
use es_grammar::{Child, Condition, Draft, GREATEST_HEIGHT, Part, Product, Spot, Symbol, Terminal};
use es_text::{NoMemory, Steps, Token};
use es_tree::heights;
use std::alloc::Global;
use std::sync::ledger::Ledger;

/// Why a symbol isn't sketched.
#[derive(Clone, Copy)]
pub enum Gap {
    /// It has to be read.
    Unclear,
    /// Out of memory.
    NoMemory,
}

impl From<NoMemory> for Gap {
    ghost use Rattle.std.specs.Prelude.{◌≡◌};
    ghost use Rattle.es_parser.specs.declared.sketches.Gap.TheVariants as gap;

    ghost from_gives = { λ _ made. made ≡ gap.NoMemory };

    fn from(_error: NoMemory) -> Gap {
        Gap::NoMemory
    }
}

/// How far a symbol or a part goes, and whether the node that was read last is a plain target, where that
/// is known.
#[derive(Clone, Copy)]
pub struct Sketch {
    pub reached: Reached,
    pub target: Option<bool>,
}

/// A sketch that tells nothing of the last node.
pub fn untold(reached: Reached) -> Sketch
    ensures reached { result.reached ≡ reached }
    ensures target { result.target ≡ None }
{
    Sketch {
        reached,
        target: None,
    }
}

/// Whether the symbol is sketched before it is read: often it isn't there, which shows only behind what may be
/// long.
pub fn is_tried(symbol: Symbol) -> bool {
    match symbol {
        Symbol::ArrowFunction | Symbol::DestructuringAssignment => true,
        _ => false,
    }
}

/// Whether the symbol can be sketched: in its rule nothing is asked of what was read but whether that is
/// a plain target.
pub fn is_sketched(symbol: Symbol) -> bool {
    match symbol {
        Symbol::ArrowFunction
        | Symbol::DestructuringAssignment
        | Symbol::AssignmentPattern
        | Symbol::AssignmentElementList
        | Symbol::AssignmentPropertyList
        | Symbol::AssignmentElement
        | Symbol::AssignmentTarget
        | Symbol::PropertyName
        | Symbol::BindingIdentifier
        | Symbol::SingleNameBinding
        | Symbol::ArrowParameters
        | Symbol::FormalParameters
        | Symbol::BindingElement
        | Symbol::BindingTarget
        | Symbol::BindingElementList
        | Symbol::BindingPropertyList => true,
        _ => false,
    }
}

/// A limit of heights that is lower by one.
pub fn lower(limit: u32) -> Result<u32, Gap>
    ensures { IfOk result (IsBelow limit) }
{
    if limit > 2 && limit <= GREATEST_HEIGHT {
        Ok(limit - 1)
    } else {
        Err(Gap::Unclear)
    }
}

/// The limit for the children of a row that makes this.
pub fn within(makes: Product, limit: u32) -> Result<u32, Gap>
    ensures { IfOk result (λ inner. MakesLow makes inner limit) }
{
    heights();
    match makes {
        Product::Parts => Ok(limit),
        Product::Node(_) => lower(limit),
        Product::Becoming => Err(Gap::Unclear),
    }
}

fn is_low_child(child: &Child, limit: u32) -> bool
    ensures { result ≡ nat_lt (height_of child.now.shape) limit }
{
    match &child.shape {
        None => limit > 0,
        Some(node) => node.height() < limit,
    }
}

/// Whether the heights of all are below the limit.
pub fn are_lower(children: &[Child], limit: u32) -> bool
    ensures { result ≡ all_lower limit children.now }
{
    for child in children {
        if !is_low_child(child, limit) {
            return false;
        }
    }
    true
}

/// Keeps what the symbol read, and gives a sketch of it.
#[inline(never)]
pub fn kept_sketch(
    reader: &mut Reader,
    symbol: Symbol,
    spot: Spot,
    reached: Reached,
    draft: Draft,
    limit: u32,
) -> Result<Sketch, Gap>
    requires reads { Reads reader.old symbol spot (outcome_of reached draft) }
    requires ends { EndsFrom reader.old spot.at (outcome_of reached draft) }
    ensures same { reader.new ≡ reader.old }
    ensures sketch { IfOk result (λ s.
        Sketched limit s.target (Reads reader.old symbol spot) s.reached) }
    ensures ends { IfOk result (λ s. ReachesFrom reader.old spot.at s.reached) }
{
    let Reached::At(end) = reached else {
        return Ok(Sketch {
            reached,
            target: None,
        });
    };
    let low = are_lower(draft.children.as_slice(), limit);
    let target = is_target(draft.children.as_slice());
    reader.keep(KeptOutcome {
        symbol,
        spot,
        draft,
        end,
    });
    if low {
        Ok(Sketch { reached, target })
    } else {
        Err(Gap::Unclear)
    }
}

/// Whether the condition holds, behind a draft of which no more is known.
#[tactic(auto, unfolding(es_grammar::specs::Conditions::holds))]
fn holds_behind<L: Ledger>(
    alloc: Global,
    reader: &mut Reader,
    spot: Spot,
    condition: Condition,
    target: Option<bool>,
    steps: &mut Steps<L>,
) -> Result<bool, Gap>
    requires { IsCharBoundary reader.old spot.at }
    ensures same { reader.new ≡ reader.old }
    ensures so { IfOk result (λ so. (limit : ℕ) → (before : DraftOf) → IsFaint limit target before →
        holds reader.old spot before condition ≡ so) }
{
    if let Condition::PlainTarget = condition {
        return target.ok_or(Gap::Unclear);
    }
    if is_of_draft(condition) {
        return Err(Gap::Unclear);
    }
    Ok(holds(reader, spot, &nothing(alloc), condition, steps))
}

/// A sketch of a part that has neither a symbol nor a token.
fn sketch_noted<L: Ledger>(
    alloc: Global,
    reader: &mut Reader,
    spot: Spot,
    part: Part,
    target: Option<bool>,
    limit: u32,
    steps: &mut Steps<L>,
) -> Result<Reached, Gap>
    requires some { 2 ≤ limit }
    requires boundary { IsCharBoundary reader.old spot.at }
    ensures same { reader.new ≡ reader.old }
    ensures reads { IfOk result (λ r. (before : DraftOf) → IsFaint limit target before →
        Sketched limit None (ReadsPart reader.old part spot before) r) }
    ensures ends { IfOk result (λ r. ReachesFrom reader.old spot.at r) }
{
    match part {
        Part::Check(condition) => {
            if holds_behind(alloc, reader, spot, condition, target, steps)? {
                Ok(Reached::At(spot.at))
            } else {
                Ok(Reached::Nothing)
            }
        }
        Part::Hole => Ok(Reached::At(spot.at)),
        Part::Flag(_) => Ok(Reached::At(spot.at)),
        Part::Kind(_) => Ok(Reached::At(spot.at)),
        _ => Err(Gap::Unclear),
    }
}

/// How far a part goes whose token this is.
fn reached_by(part: Part, at: u32, found: Token) -> Reached
    ensures { result ≡ reached_by part at found }
{
    match part {
        Part::Twin(..) => Reached::At(at),
        _ => Reached::At(found.span.end),
    }
}

/// A sketch of a part that reads no symbol.
#[inline(never)]
pub fn sketch_plain<L: Ledger>(
    alloc: Global,
    reader: &mut Reader,
    spot: Spot,
    part: Part,
    target: Option<bool>,
    limit: u32,
    steps: &mut Steps<L>,
) -> Result<Reached, Gap>
    requires { IsCharBoundary reader.old spot.at }
    ensures same { reader.new ≡ reader.old }
    ensures reads { IfOk result (λ r. (before : DraftOf) → IsFaint limit target before →
        Sketched limit None (ReadsPart reader.old part spot before) r) }
    ensures ends { IfOk result (λ r. ReachesFrom reader.old spot.at r) }
{
    heights();
    if limit < 2 {
        return Err(Gap::Unclear);
    }
    let Some(terminal) = terminal_of(part) else {
        return sketch_noted(alloc, reader, spot, part, target, limit, steps);
    };
    let Some(found) = terminal_at(reader, spot.context, terminal, spot.at, steps) else {
        return Ok(Reached::Nothing);
    };
    Ok(reached_by(part, spot.at, found))
}

/// Keeps what a sketch tells of the symbol, and of what begins with it.
#[inline(never)]
pub fn note<L: Ledger>(
    reader: &mut Reader,
    symbol: Symbol,
    spot: Spot,
    reached: Reached,
    steps: &mut Steps<L>,
)
    requires comes { Comes reader.old symbol spot reached }
    requires ends { ReachesFrom reader.old spot.at reached }
    ensures { reader.new ≡ reader.old }
{
    match reached {
        Reached::Nothing => reader.refuse(symbol, spot),
        Reached::At(end) => {
            if is_no_assignment(reader, symbol, spot, end, steps) {
                reader.refuse(Symbol::DestructuringAssignment, spot);
            }
        }
        Reached::TooDeep => {}
    }
}

/// The code of `=` among the texts of single tokens.
const EQUALS: u8 = 40;

/// Whether the symbol is a pattern behind which no `=` comes.
fn is_no_assignment<L: Ledger>(
    reader: &mut Reader,
    symbol: Symbol,
    spot: Spot,
    end: u32,
    steps: &mut Steps<L>,
) -> bool
    requires { IsCharBoundary reader.old end }
    ensures same { reader.new ≡ reader.old }
    ensures so { OnTrue result (Comes reader.old symbol spot (At end) →
        Reads reader.old DestructuringAssignment spot Not) }
{
    match symbol {
        Symbol::AssignmentPattern => {
            let equals = Terminal::Spelled(EQUALS);
            match terminal_at(reader, spot.context, equals, end, steps) {
                None => true,
                Some(_) => false,
            }
        }
        _ => false,
    }
}

/// What is known of the symbol there: that it isn't there, or what it reads, which is taken into the draft.
#[inline(never)]
pub fn known(reader: &mut Reader, symbol: Symbol, spot: Spot, draft: &mut Draft) -> Option<Reached>
    ensures same { reader.new ≡ reader.old }
    ensures reads { IfSome result (λ r. Reads reader.old symbol spot (outcome_of r draft.new)) }
    ensures ends { IfSome result (λ r. EndsFrom reader.old spot.at (outcome_of r draft.new)) }
{
    if reader.is_refused(symbol, spot) {
        return Some(Reached::Nothing);
    }
    let kept = reader.take(symbol, spot)?;
    *draft = kept.draft;
    Some(Reached::At(kept.end))
}

/// Keeps that the symbol reads nothing there, if that came out.
#[inline(never)]
pub fn refuse_if(reader: &mut Reader, symbol: Symbol, spot: Spot, reached: Reached)
    requires { reached ≡ Nothing → Reads reader.old symbol spot Not }
    ensures { reader.new ≡ reader.old }
{
    if let Reached::Nothing = reached {
        reader.refuse(symbol, spot);
    }
}
