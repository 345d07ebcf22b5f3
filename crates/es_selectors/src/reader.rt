//! Reads selectors.
ghost use Rattle.std.specs.Prelude.{◌≡◌, ◌≢◌, ◌<◌, ◌≤◌, Bool, IfNone, IfOk, IfSome, IsErrOf, length};
ghost use Rattle.std.specs.Str.{chars};
ghost use Rattle.es_selectors.specs.Refusals.{RefusesAtom, RefusesChain, RefusesCompound};
ghost use Rattle.es_selectors.specs.Refusals.{RefusesGroup, RefusesLinks, RefusesList};
ghost use Rattle.es_selectors.specs.Spelling.{Spells, SpellsAtom, SpellsChain, SpellsCompound};
ghost use Rattle.es_selectors.specs.Spelling.{SpellsGroup, SpellsLinks, SpellsList, ending};
ghost use Rattle.es_selectors.specs.Told.{Tells};
ghost use Rattle.es_selectors.specs.declared.selector.Spelling.{Spelling};

use crate::atom::{begins_atom, combinator, nest_at, nested, plain_atom};
use crate::attribute::{condition, names};
use crate::fault::SelectorFault;
use crate::lexical::{after, past_blanks};
use crate::matching::Selector;
use crate::selector::{Atom, Chain, Link, Spelling};
use es_text::Items;
use std::alloc::{AllocError, Global};

/// The selector that the text spells. `Unread` comes exactly where the whole text spells none.
pub fn read(alloc: Global, text: &str) -> Result<Selector, SelectorFault>
    ensures spelled { IfOk result (λ selector. Spells (chars text.now) selector) }
    ensures unread { IsErrOf result SelectorFault.Unread
        → (spelling : Spelling) → Spells (chars text.now) spelling → ⊥ }
{
    let characters = characters_of(alloc, text)?;
    let (chains, rest) = read_list(alloc, &characters)?;
    match exit_of(rest) {
        Some(exit) => Ok(Selector::new(Spelling { chains, exit })),
        None => Err(SelectorFault::Unread),
    }
}

/// The characters of the text.
fn characters_of(alloc: Global, text: &str) -> Result<Vec<char>, AllocError>
    ensures { IfOk result (λ characters. characters.items ≡ chars text.now) }
{
    text.chars().collect(alloc)
}

/// Whether `:exit` is what follows; `None` where something else does.
fn exit_of(rest: &[char]) -> Option<bool>
    ensures ending { IfSome result (λ exit. rest.now ≡ ending exit) }
    ensures other { IfNone result ((exit : Bool) → rest.now ≢ ending exit) }
{
    if rest.is_empty() {
        return Some(false);
    }
    if after(b":exit", rest)?.is_empty() {
        Some(true)
    } else {
        None
    }
}

/// An atom, and what follows it.
#[cycle(reading)]
fn read_atom(alloc: Global, text: &[char]) -> Result<(Atom, &[char]), SelectorFault>
    ensures told { Tells (SpellsAtom text.now) (RefusesAtom text.now) result }
    ensures shorter { IfOk result (λ read. length read.1.now < length text.now) }
{
    if let Some(behind) = after(b"[", text) {
        let (names, next) = names(alloc, behind)?;
        let (condition, rest) = condition(alloc, next)?;
        return Ok((Atom::Attribute(names, condition), rest));
    }
    if let Some((nest, behind)) = nest_at(text) {
        let (chains, rest) = read_group(alloc, behind)?;
        return Ok((nested(nest, chains), rest));
    }
    plain_atom(alloc, text)
}

/// Chains in parentheses, behind the one that opens, and what follows the one that closes.
#[cycle(reading)]
fn read_group(alloc: Global, text: &[char]) -> Result<(Items<Chain<Atom>>, &[char]), SelectorFault>
    ensures told { Tells (SpellsGroup text.now) (RefusesGroup text.now) result }
    ensures shorter { IfOk result (λ read. length read.1.now < length text.now) }
{
    let (chains, behind) = read_list(alloc, past_blanks(text))?;
    match after(b")", past_blanks(behind)) {
        Some(rest) => Ok((chains, rest)),
        None => Err(SelectorFault::Unread),
    }
}

/// Chains that commas separate, and what follows them.
#[cycle(reading)]
fn read_list(alloc: Global, text: &[char]) -> Result<(Items<Chain<Atom>>, &[char]), SelectorFault>
    ensures told { Tells (SpellsList text.now) (RefusesList text.now) result }
    ensures shorter { IfOk result (λ read. length read.1.now < length text.now) }
{
    let mut chains = Items::new(alloc);
    let mut rest = text;
    loop {
        let (chain, behind) = read_chain(alloc, rest)?;
        chains.push(chain)?;
        match after(b",", past_blanks(behind)) {
            Some(next) => rest = past_blanks(next),
            None => return Ok((chains, behind)),
        }
    }
}

/// Compounds that combinators join, and what follows them.
#[cycle(reading)]
fn read_chain(alloc: Global, text: &[char]) -> Result<(Chain<Atom>, &[char]), SelectorFault>
    ensures told { Tells (SpellsChain text.now) (RefusesChain text.now) result }
    ensures shorter { IfOk result (λ read. length read.1.now < length text.now) }
{
    let (first, behind) = read_compound(alloc, text)?;
    let (links, rest) = read_links(alloc, behind)?;
    Ok((Chain { first, links }, rest))
}

/// The further compounds of a chain, and what follows them.
#[cycle(reading)]
fn read_links(alloc: Global, text: &[char]) -> Result<(Items<Link<Atom>>, &[char]), SelectorFault>
    ensures told { Tells (SpellsLinks text.now) (RefusesLinks text.now) result }
    ensures no_longer { IfOk result (λ read. length read.1.now ≤ length text.now) }
{
    let mut links = Items::new(alloc);
    let mut rest = text;
    while let Some((combinator, behind)) = combinator(rest) {
        let (compound, next) = read_compound(alloc, behind)?;
        links.push(Link {
            combinator,
            compound,
        })?;
        rest = next;
    }
    Ok((links, rest))
}

/// One atom or more, and what follows them.
#[cycle(reading)]
fn read_compound(alloc: Global, text: &[char]) -> Result<(Items<Atom>, &[char]), SelectorFault>
    ensures told { Tells (SpellsCompound text.now) (RefusesCompound text.now) result }
    ensures shorter { IfOk result (λ read. length read.1.now < length text.now) }
{
    let mut atoms = Items::new(alloc);
    let mut rest = text;
    loop {
        let (atom, behind) = read_atom(alloc, rest)?;
        atoms.push(atom)?;
        rest = behind;
        if !begins_atom(rest) {
            return Ok((atoms, rest));
        }
    }
}
