//! The parts of rows that read no symbol.
ghost use Rattle.std.specs.Prelude.{◌≡◌, Some, None, IfOk, IsTrue, List, OnOk, ℕ};
ghost use Rattle.std.specs.Str.{IsCharBoundary, chars};
ghost use Rattle.es_grammar.specs.Drafts.{kind_setting, words as words_setting};
ghost use Rattle.es_grammar.specs.declared.draft.Outcome.TheVariants.{Read};
ghost use Rattle.es_grammar.specs.Parts.{plainly, with_directives};
ghost use Rattle.es_parser.specs.Ends.{EndsFrom, is_note, is_plain, terminal_of, token_at};
ghost use Rattle.es_parser.specs.Kept.{IsWithin};
ghost use Rattle.es_parser.specs.Turns.{outcome_of};

use crate::conditions::holds;
use crate::directives::with_directives;
use crate::drafts::{add_child, add_setting, add_token};
use crate::leaves::{flag, leaf_child, words};
use crate::reached::Reached;
use crate::reader::Reader;
use es_grammar::{Child, Condition, Draft, Field, MemberKind, Part, Spot, Terminal};
use es_text::{Items, NoMemory, Steps, Token};
use std::alloc::Global;
use std::mem;
use std::sync::ledger::Ledger;

/// The terminal of the token that the part reads or gives on.
pub fn terminal_of(part: Part) -> Option<Terminal>
    ensures { result ≡ terminal_of part }
{
    match part {
        Part::Token(terminal) => Some(terminal),
        Part::Words(terminal, _) => Some(terminal),
        Part::Leaf(terminal, _, _) => Some(terminal),
        Part::Twin(terminal, _, _) => Some(terminal),
        _ => None,
    }
}

/// What a part gives whose token this is, behind what was read before.
#[tactic(auto, unfolding(es_grammar::specs::Parts::plainly))]
pub fn of_token(
    alloc: Global,
    reader: &Reader,
    spot: Spot,
    part: Part,
    found: Token,
    draft: &mut Draft,
) -> Result<Reached, NoMemory>
    requires token { token_at reader.now spot part ≡ Some found }
    requires within { IsWithin reader.now spot.at found }
    requires boundary { IsCharBoundary reader.now spot.at }
    ensures outcome { IfOk result
        (λ r. plainly reader.now spot part draft.old ≡ Some (outcome_of r draft.new)) }
    ensures ends { IfOk result (λ r. EndsFrom reader.now spot.at (outcome_of r draft.new)) }
{
    match part {
        Part::Token(_) => {
            add_token(draft, found)?;
            Ok(Reached::At(found.span.end))
        }
        Part::Words(_, field) => {
            let setting = words(alloc, field, reader.text_of(found))?;
            add_token(draft, found)?;
            add_setting(draft, setting)?;
            Ok(Reached::At(found.span.end))
        }
        Part::Leaf(_, kind, field) => {
            let child = leaf_child(alloc, reader, kind, field, found)?;
            add_token(draft, found)?;
            add_child(draft, child)?;
            Ok(Reached::At(found.span.end))
        }
        Part::Twin(_, kind, field) => {
            let child = leaf_child(alloc, reader, kind, field, found)?;
            add_child(draft, child)?;
            Ok(Reached::At(spot.at))
        }
        _ => unreachable!(),
    }
}

fn kind_words(member: MemberKind) -> &'static str
    ensures { words_setting Field.Kind (chars result.now) ≡ kind_setting member }
{
    match member {
        MemberKind::Init => "init",
        MemberKind::Method => "method",
        MemberKind::Constructor => "constructor",
    }
}

/// What a part gives that notes something of what was read, or of the node around.
#[tactic(auto, unfolding(es_grammar::specs::Parts::plainly))]
fn noted(alloc: Global, spot: Spot, part: Part, draft: &mut Draft) -> Result<(), NoMemory>
    requires { IsTrue (is_note part) }
    ensures { (text : List ℕ) → OnOk result
        (plainly text spot part draft.old ≡ Some (Read draft.new spot.at)) }
{
    match part {
        Part::Hole => add_child(
            draft,
            Child {
                field: None,
                shape: None,
            },
        )?,
        Part::Flag(field) => add_setting(draft, flag(field, true))?,
        Part::Kind(member) => add_setting(draft, words(alloc, Field::Kind, kind_words(member))?)?,
        Part::Becomes(kind) => draft.becomes = Some(kind),
        Part::Directives => tell(alloc, draft)?,
        _ => unreachable!(),
    }
    Ok(())
}

/// Tells the directives at the head of what was read.
fn tell(alloc: Global, draft: &mut Draft) -> Result<(), NoMemory>
    ensures { OnOk result (draft.new ≡ record draft.old { children = with_directives draft.old.children }) }
{
    let children = mem::replace(&mut draft.children, Items::new(alloc));
    draft.children = with_directives(alloc, children)?;
    Ok(())
}

/// How far a condition comes, which leaves the draft.
#[tactic(auto, unfolding(es_grammar::specs::Parts::plainly))]
fn check_condition<L: Ledger>(
    reader: &mut Reader,
    spot: Spot,
    condition: Condition,
    draft: &Draft,
    steps: &mut Steps<L>,
) -> Reached
    requires { IsCharBoundary reader.old spot.at }
    ensures same { reader.new ≡ reader.old }
    ensures outcome { plainly reader.old spot (Part.Check condition) draft.now
        ≡ Some (outcome_of result draft.now) }
    ensures ends { EndsFrom reader.old spot.at (outcome_of result draft.now) }
{
    if holds(reader, spot, draft, condition, steps) {
        Reached::At(spot.at)
    } else {
        Reached::Nothing
    }
}

/// What a part gives that has neither a symbol nor a token.
pub fn plain<L: Ledger>(
    alloc: Global,
    reader: &mut Reader,
    spot: Spot,
    part: Part,
    draft: &mut Draft,
    steps: &mut Steps<L>,
) -> Result<Reached, NoMemory>
    requires plain { IsTrue (is_plain part) }
    requires bare { terminal_of part ≡ None }
    requires boundary { IsCharBoundary reader.old spot.at }
    ensures same { reader.new ≡ reader.old }
    ensures outcome { IfOk result
        (λ r. plainly reader.old spot part draft.old ≡ Some (outcome_of r draft.new)) }
    ensures ends { IfOk result (λ r. EndsFrom reader.old spot.at (outcome_of r draft.new)) }
{
    match part {
        Part::Check(condition) => Ok(check_condition(reader, spot, condition, draft, steps)),
        Part::Symbol(..) | Part::Deeper(..) => unreachable!(),
        Part::Token(..) | Part::Words(..) | Part::Leaf(..) | Part::Twin(..) => unreachable!(),
        note => {
            noted(alloc, spot, note, draft)?;
            Ok(Reached::At(spot.at))
        }
    }
}
