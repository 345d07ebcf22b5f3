//! What a symbol reads: one interpreter of all rules.
ghost use Rattle.std.specs.Prelude.{◌≡◌, ◌<◌, ◌-◌, map, IfOk, IfSome, IsTrue, None, true};
ghost use Rattle.std.specs.Bool.{OnTrue};
ghost use Rattle.std.specs.List.{list_all};
ghost use Rattle.std.specs.Str.{IsCharBoundary};
ghost use Rattle.es_grammar.specs.declared.draft.Draft.{Draft as DraftOf};
ghost use Rattle.es_grammar.specs.Drafts.{empty};
ghost use Rattle.es_grammar.specs.Firsts.{turn_rows};
ghost use Rattle.es_grammar.specs.Grammar.{rule_of};
ghost use Rattle.es_grammar.specs.Parts.{finish, is_last_turn};
ghost use Rattle.es_grammar.specs.Ranks.{is_below, rank_of, rows_below};
ghost use Rattle.es_grammar.specs.Rules.{row, turns};
ghost use Rattle.es_grammar.specs.Reading.{Reads, ReadsChoice, ReadsCommas};
ghost use Rattle.es_grammar.specs.Reading.{ReadsPart, ReadsParts, ReadsTurns};
ghost use Rattle.es_parser.specs.Ends.{EndsFrom, EndsIn};
ghost use Rattle.es_parser.specs.Sketches.{IsFaint, ReachesFrom, Sketched, all_lower};
ghost use Rattle.es_parser.specs.Turns.{IsOver, ReadsBehind, ReadsInto, head_of, outcome_of};

use crate::beginnings::{can_begin, can_begin_among};
use crate::conditions::all_hold;
use crate::drafts::{add_token, is_bare, nothing};
use crate::fronts::{are_missing, is_missing, is_quiet};
use crate::heads::{changed, head_of};
use crate::reached::{Found, Reached, clear, extended, finished, grown, outcome_of, read_plain};
use crate::reader::Reader;
use crate::sets::terminals_at;
use crate::sketches::{
    Gap, Sketch, is_sketched, is_tried, kept_sketch, known, lower, note, refuse_if, sketch_plain,
    untold, within,
};
use crate::terminals::comma_at;
use es_grammar::{
    Alternative, Draft, Field, GREATEST_HEIGHT, Outcome, Part, Product, Rule, Spot, Symbol, Turns,
    rule_at,
};
use es_text::{NoMemory, Steps};
use std::alloc::Global;
use std::sync::ledger::Ledger;

/// One part of a row, behind what was read before it.
#[cycle(reading)]
fn part<L: Ledger>(
    alloc: Global,
    reader: &mut Reader,
    symbol: Symbol,
    part: Part,
    spot: Spot,
    draft: &mut Draft,
    steps: &mut Steps<L>,
) -> Result<Reached, NoMemory>
    requires low { rank_of symbol < 64 }
    requires ranked { IsTrue (is_below (rank_of symbol) part) }
    requires boundary { IsCharBoundary reader.old spot.at }
    ensures same { reader.new ≡ reader.old }
    ensures reads { IfOk result
        (λ r. ReadsPart reader.old part spot draft.old (outcome_of r draft.new)) }
    ensures ends { IfOk result
        (λ r. EndsFrom reader.old spot.at (outcome_of r draft.new)) }
{
    match part {
        Part::Symbol(inner, change, field) => {
            let inside = Spot {
                context: changed(change, spot.context),
                ..spot
            };
            inner_symbol(alloc, reader, inner, inside, field, draft, steps)
        }
        Part::Deeper(inner, change, field) => {
            if spot.room == 0 {
                return Ok(Reached::TooDeep);
            }
            let inside = Spot {
                at: spot.at,
                context: changed(change, spot.context),
                room: spot.room - 1,
            };
            inner_symbol(alloc, reader, inner, inside, field, draft, steps)
        }
        other => read_plain(alloc, reader, spot, other, draft, steps),
    }
}

/// A symbol as a part of a row, behind what was read before it; its children go into the field.
#[cycle(reading)]
fn inner_symbol<L: Ledger>(
    alloc: Global,
    reader: &mut Reader,
    symbol: Symbol,
    spot: Spot,
    field: Option<Field>,
    draft: &mut Draft,
    steps: &mut Steps<L>,
) -> Result<Reached, NoMemory>
    requires { IsCharBoundary reader.old spot.at }
    ensures same { reader.new ≡ reader.old }
    ensures reads { IfOk result
        (λ r. ReadsInto reader.old symbol spot field draft.old (outcome_of r draft.new)) }
    ensures ends { IfOk result
        (λ r. EndsFrom reader.old spot.at (outcome_of r draft.new)) }
{
    if is_bare(field, draft) {
        return read_into(alloc, reader, symbol, spot, draft, steps);
    }
    symbol_behind(alloc, reader, symbol, spot, field, draft, steps)
}

/// The same with a draft of its own, which takes room on the stack.
#[cycle(reading)]
#[inline(never)]
fn symbol_behind<L: Ledger>(
    alloc: Global,
    reader: &mut Reader,
    symbol: Symbol,
    spot: Spot,
    field: Option<Field>,
    draft: &mut Draft,
    steps: &mut Steps<L>,
) -> Result<Reached, NoMemory>
    requires { IsCharBoundary reader.old spot.at }
    ensures same { reader.new ≡ reader.old }
    ensures reads { IfOk result
        (λ r. ReadsInto reader.old symbol spot field draft.old (outcome_of r draft.new)) }
    ensures ends { IfOk result
        (λ r. EndsFrom reader.old spot.at (outcome_of r draft.new)) }
{
    let mut more = nothing(alloc);
    let reached = read_into(alloc, reader, symbol, spot, &mut more, steps);
    extended(alloc, draft, field, &mut more, reached)
}

/// The parts of a row, one after the other, behind what was read before them.
#[cycle(reading)]
fn parts<L: Ledger>(
    alloc: Global,
    reader: &mut Reader,
    symbol: Symbol,
    parts: &[Part],
    spot: Spot,
    draft: &mut Draft,
    steps: &mut Steps<L>,
) -> Result<Reached, NoMemory>
    requires low { rank_of symbol < 64 }
    requires ranked { IsTrue (list_all (is_below (rank_of symbol)) parts.now) }
    requires boundary { IsCharBoundary reader.old spot.at }
    ensures same { reader.new ≡ reader.old }
    ensures reads { IfOk result
        (λ r. ReadsParts reader.old parts.now spot draft.old (outcome_of r draft.new)) }
    ensures ends { IfOk result
        (λ r. EndsFrom reader.old spot.at (outcome_of r draft.new)) }
{
    let mut at = spot.at;
    for each in parts {
        let here = Spot { at, ..spot };
        match part(alloc, reader, symbol, *each, here, draft, steps)? {
            Reached::At(end) => at = end,
            stopped => return Ok(stopped),
        }
    }
    Ok(Reached::At(at))
}

/// The parts of the first row that isn't Not, in place of what the draft had.
#[cycle(reading)]
fn choice<L: Ledger>(
    alloc: Global,
    reader: &mut Reader,
    symbol: Symbol,
    rows: &[Alternative],
    spot: Spot,
    draft: &mut Draft,
    steps: &mut Steps<L>,
) -> Result<Found, NoMemory>
    requires low { rank_of symbol < 64 }
    requires ranked { IsTrue (rows_below (rank_of symbol) (map row rows.now)) }
    requires boundary { IsCharBoundary reader.old spot.at }
    ensures same { reader.new ≡ reader.old }
    ensures reads { IfOk result (λ found. (seed : DraftOf) →
        ReadsChoice reader.old (map row rows.now) spot seed
        (finish found.makes seed (outcome_of found.reached draft.new))) }
    ensures ends { IfOk result
        (λ found. EndsFrom reader.old spot.at (outcome_of found.reached draft.new)) }
{
    let set = terminals_at(reader, spot, steps);
    for each in rows {
        if is_missing(reader, set, each.parts, spot) {
            continue;
        }
        clear(alloc, draft);
        match parts(alloc, reader, symbol, each.parts, spot, draft, steps)? {
            Reached::Nothing => {}
            reached => {
                return Ok(Found {
                    makes: each.makes,
                    reached,
                });
            }
        }
    }
    Ok(Found {
        makes: Product::Parts,
        reached: Reached::Nothing,
    })
}

/// Whether none of the rows reads, since none of the tokens is next with which they begin.
#[inline(never)]
fn is_over<L: Ledger>(
    reader: &mut Reader,
    symbol: Symbol,
    rows: &[Alternative],
    spot: Spot,
    steps: &mut Steps<L>,
) -> bool
    requires rows { turn_rows (rule_of symbol) ≡ map row rows.now }
    requires boundary { IsCharBoundary reader.old spot.at }
    ensures same { reader.new ≡ reader.old }
    ensures over { OnTrue result (IsOver reader.old (map row rows.now) spot) }
{
    let set = terminals_at(reader, spot, steps);
    if can_begin_among(reader, symbol, spot, set, steps) {
        return false;
    }
    are_missing(reader, set, rows, spot)
}

/// Whether no further turn comes after this one: only one may, or it read nothing.
fn is_last_turn(many: bool, at: u32, end: u32) -> bool
    ensures { result ≡ is_last_turn many at end }
{
    !many || end <= at
}

/// An option or a repetition, behind what was read. One that is `taking` takes that into what it
/// makes.
#[cycle(reading)]
#[inline(never)]
fn turns<L: Ledger>(
    alloc: Global,
    reader: &mut Reader,
    symbol: Symbol,
    more: Turns,
    taking: bool,
    spot: Spot,
    draft: &mut Draft,
    steps: &mut Steps<L>,
) -> Result<Reached, NoMemory>
    requires low { rank_of symbol < 64 }
    requires ranked { IsTrue (rows_below (rank_of symbol) (map row more.rows.now)) }
    requires rows { turn_rows (rule_of symbol) ≡ map row more.rows.now }
    requires boundary { IsCharBoundary reader.old spot.at }
    ensures same { reader.new ≡ reader.old }
    ensures reads { IfOk result
        (λ r. ReadsTurns reader.old (turns taking more) spot draft.old (outcome_of r draft.new)) }
    ensures ends { IfOk result
        (λ r. EndsFrom reader.old spot.at (outcome_of r draft.new)) }
{
    let mut at = spot.at;
    loop {
        let here = Spot { at, ..spot };
        if is_over(reader, symbol, more.rows, here, steps) {
            return Ok(Reached::At(at));
        }
        if !all_hold(reader, here, draft, more.conditions, steps) {
            return Ok(Reached::At(at));
        }
        let mut turn = nothing(alloc);
        let found = choice(alloc, reader, symbol, more.rows, here, &mut turn, steps)?;
        if let Reached::Nothing = found.reached {
            if can_begin(reader, symbol, here, steps) {
                return Ok(Reached::Nothing);
            }
            return Ok(Reached::At(at));
        }
        match grown(alloc, taking, draft, &mut turn, found)? {
            Reached::At(end) => {
                if is_last_turn(more.many, at, end) {
                    return Ok(Reached::At(end));
                }
                at = end;
            }
            stopped => return Ok(stopped),
        }
    }
}

/// Any number of the rows, separated by commas, one of which may stand at the end, behind what was
/// read.
#[cycle(reading)]
#[inline(never)]
fn commas<L: Ledger>(
    alloc: Global,
    reader: &mut Reader,
    symbol: Symbol,
    rows: &[Alternative],
    spot: Spot,
    draft: &mut Draft,
    steps: &mut Steps<L>,
) -> Result<Reached, NoMemory>
    requires low { rank_of symbol < 64 }
    requires ranked { IsTrue (rows_below (rank_of symbol) (map row rows.now)) }
    requires rows { turn_rows (rule_of symbol) ≡ map row rows.now }
    requires boundary { IsCharBoundary reader.old spot.at }
    ensures same { reader.new ≡ reader.old }
    ensures reads { IfOk result
        (λ r. ReadsCommas reader.old (map row rows.now) spot draft.old (outcome_of r draft.new)) }
    ensures ends { IfOk result
        (λ r. EndsFrom reader.old spot.at (outcome_of r draft.new)) }
{
    let mut at = spot.at;
    loop {
        let here = Spot { at, ..spot };
        let mut item = nothing(alloc);
        let found = choice(alloc, reader, symbol, rows, here, &mut item, steps)?;
        if let Reached::Nothing = found.reached {
            if can_begin(reader, symbol, here, steps) {
                return Ok(Reached::Nothing);
            }
            return Ok(Reached::At(at));
        }
        match grown(alloc, false, draft, &mut item, found)? {
            Reached::At(end) => match comma_at(reader, Spot { at: end, ..spot }, steps) {
                None => return Ok(Reached::At(end)),
                Some(comma) => {
                    add_token(draft, comma)?;
                    at = comma.span.end;
                }
            },
            stopped => return Ok(stopped),
        }
    }
}

/// What the symbol reads at the spot, in place of what the draft had. In each expression some fifteen
/// symbols are heads of one another: so this takes as little of the stack as it can.
#[cycle(reading)]
fn read_into<L: Ledger>(
    alloc: Global,
    reader: &mut Reader,
    symbol: Symbol,
    spot: Spot,
    draft: &mut Draft,
    steps: &mut Steps<L>,
) -> Result<Reached, NoMemory>
    requires { IsCharBoundary reader.old spot.at }
    ensures same { reader.new ≡ reader.old }
    ensures reads { IfOk result (λ r. Reads reader.old symbol spot (outcome_of r draft.new)) }
    ensures ends { IfOk result
        (λ r. EndsFrom reader.old spot.at (outcome_of r draft.new)) }
{
    match head_of(symbol) {
        None => {
            // Symbols without a head alone are kept and tried.
            if let Some(reached) = known(reader, symbol, spot, draft) {
                return Ok(reached);
            }
            if let Some(stopped) = tried(alloc, reader, symbol, spot, steps)? {
                return Ok(stopped);
            }
            let reached = read_headless(alloc, reader, symbol, spot, draft, steps)?;
            refuse_if(reader, symbol, spot, reached);
            Ok(reached)
        }
        Some(head) => {
            let first = read_into(alloc, reader, head, spot, draft, steps)?;
            turns_behind(alloc, reader, symbol, spot, first, draft, steps)
        }
    }
}

/// Whether the symbol is known not to be there, or to be nested too deeply, once it was sketched.
#[cycle(reading)]
#[inline(never)]
fn tried<L: Ledger>(
    alloc: Global,
    reader: &mut Reader,
    symbol: Symbol,
    spot: Spot,
    steps: &mut Steps<L>,
) -> Result<Option<Reached>, NoMemory>
    requires { IsCharBoundary reader.old spot.at }
    ensures same { reader.new ≡ reader.old }
    ensures stops { IfOk result (λ o. IfSome o (λ r. (draft : DraftOf) →
        Reads reader.old symbol spot (outcome_of r draft))) }
    ensures ends { IfOk result (λ o. IfSome o (λ r. (draft : DraftOf) →
        EndsFrom reader.old spot.at (outcome_of r draft))) }
{
    if !is_tried(symbol) {
        return Ok(None);
    }
    match sketch(alloc, reader, symbol, spot, GREATEST_HEIGHT, steps) {
        Ok(Reached::At(_)) | Err(Gap::Unclear) => Ok(None),
        Ok(stopped) => Ok(Some(stopped)),
        Err(Gap::NoMemory) => Err(NoMemory),
    }
}

/// How far the symbol reads, where the nodes that it gives are lower than the limit.
#[cycle(reading)]
#[inline(never)]
fn sketch<L: Ledger>(
    alloc: Global,
    reader: &mut Reader,
    symbol: Symbol,
    spot: Spot,
    limit: u32,
    steps: &mut Steps<L>,
) -> Result<Reached, Gap>
    requires { IsCharBoundary reader.old spot.at }
    ensures same { reader.new ≡ reader.old }
    ensures reads { IfOk result (λ r. Sketched limit None (Reads reader.old symbol spot) r) }
    ensures ends { IfOk result (λ r. ReachesFrom reader.old spot.at r) }
{
    if reader.is_refused(symbol, spot) {
        return Ok(Reached::Nothing);
    }
    let reached = sketch_anew(alloc, reader, symbol, spot, limit, steps)?;
    note(reader, symbol, spot, reached, steps);
    Ok(reached)
}

/// The same without a look at what is known.
#[cycle(reading)]
fn sketch_anew<L: Ledger>(
    alloc: Global,
    reader: &mut Reader,
    symbol: Symbol,
    spot: Spot,
    limit: u32,
    steps: &mut Steps<L>,
) -> Result<Reached, Gap>
    requires { IsCharBoundary reader.old spot.at }
    ensures same { reader.new ≡ reader.old }
    ensures reads { IfOk result (λ r. Sketched limit None (Reads reader.old symbol spot) r) }
    ensures ends { IfOk result (λ r. ReachesFrom reader.old spot.at r) }
{
    match rule_at(symbol) {
        Rule::Choice(rows) => sketch_rows(alloc, reader, symbol, rows, spot, limit, steps),
        Rule::Commas(rows) => sketch_list(alloc, reader, symbol, rows, spot, limit, steps),
        Rule::Behind(head, more) => {
            let low = lower(limit)?;
            match sketch(alloc, reader, head, spot, low, steps)? {
                Reached::At(end) => {
                    let behind = Spot { at: end, ..spot };
                    sketch_option(alloc, reader, symbol, more, behind, limit, steps)
                }
                stopped => Ok(stopped),
            }
        }
        Rule::More(_) => Err(Gap::Unclear),
    }
}

/// A sketch of the first row that isn't Not.
#[cycle(reading)]
fn sketch_rows<L: Ledger>(
    alloc: Global,
    reader: &mut Reader,
    symbol: Symbol,
    rows: &[Alternative],
    spot: Spot,
    limit: u32,
    steps: &mut Steps<L>,
) -> Result<Reached, Gap>
    requires low { rank_of symbol < 64 }
    requires ranked { IsTrue (rows_below (rank_of symbol) (map row rows.now)) }
    requires boundary { IsCharBoundary reader.old spot.at }
    ensures same { reader.new ≡ reader.old }
    ensures reads { IfOk result (λ r. (seed : DraftOf) → all_lower (limit - 1) seed.children ≡ true →
        Sketched limit None (ReadsChoice reader.old (map row rows.now) spot seed) r) }
    ensures ends { IfOk result (λ r. ReachesFrom reader.old spot.at r) }
{
    let set = terminals_at(reader, spot, steps);
    for each in rows {
        if is_missing(reader, set, each.parts, spot) {
            continue;
        }
        let inner = within(each.makes, limit)?;
        match sketch_parts(alloc, reader, symbol, each.parts, spot, inner, steps)? {
            Reached::Nothing => {}
            reached => return Ok(reached),
        }
    }
    Ok(Reached::Nothing)
}

/// A sketch of the parts of a row.
#[cycle(reading)]
fn sketch_parts<L: Ledger>(
    alloc: Global,
    reader: &mut Reader,
    symbol: Symbol,
    parts: &[Part],
    spot: Spot,
    limit: u32,
    steps: &mut Steps<L>,
) -> Result<Reached, Gap>
    requires low { rank_of symbol < 64 }
    requires ranked { IsTrue (list_all (is_below (rank_of symbol)) parts.now) }
    requires boundary { IsCharBoundary reader.old spot.at }
    ensures same { reader.new ≡ reader.old }
    ensures reads { IfOk result (λ r.
        Sketched limit None (ReadsParts reader.old parts.now spot empty) r) }
    ensures ends { IfOk result (λ r. ReachesFrom reader.old spot.at r) }
{
    let mut at = spot.at;
    let mut target = None;
    for each in parts {
        let here = Spot { at, ..spot };
        let sketch = sketch_part(alloc, reader, symbol, *each, here, target, limit, steps)?;
        match sketch.reached {
            Reached::At(end) => at = end,
            stopped => return Ok(stopped),
        }
        target = sketch.target;
    }
    Ok(Reached::At(at))
}

/// A sketch of a part, behind others of whose last node it is told whether that is a plain target.
#[cycle(reading)]
fn sketch_part<L: Ledger>(
    alloc: Global,
    reader: &mut Reader,
    symbol: Symbol,
    part: Part,
    spot: Spot,
    target: Option<bool>,
    limit: u32,
    steps: &mut Steps<L>,
) -> Result<Sketch, Gap>
    requires low { rank_of symbol < 64 }
    requires ranked { IsTrue (is_below (rank_of symbol) part) }
    requires boundary { IsCharBoundary reader.old spot.at }
    ensures same { reader.new ≡ reader.old }
    ensures reads { IfOk result (λ s. (before : DraftOf) → IsFaint limit target before →
        Sketched limit s.target (ReadsPart reader.old part spot before) s.reached) }
    ensures ends { IfOk result (λ s. ReachesFrom reader.old spot.at s.reached) }
{
    match part {
        Part::Symbol(inner, change, _) => {
            let inside = Spot {
                context: changed(change, spot.context),
                ..spot
            };
            sketch_inner(alloc, reader, symbol, inner, inside, limit, steps)
        }
        Part::Deeper(inner, change, _) => {
            if spot.room == 0 {
                return Ok(untold(Reached::TooDeep));
            }
            let inside = Spot {
                at: spot.at,
                context: changed(change, spot.context),
                room: spot.room - 1,
            };
            sketch_inner(alloc, reader, symbol, inner, inside, limit, steps)
        }
        other => {
            let reached = sketch_plain(alloc, reader, spot, other, target, limit, steps)?;
            Ok(untold(reached))
        }
    }
}

/// A sketch of a symbol inside of another: one that can't be sketched is read, and what it reads is kept.
/// But what comes so far as a symbol that is tried has it that can't be sketched is best read at once.
#[cycle(reading)]
#[inline(never)]
fn sketch_inner<L: Ledger>(
    alloc: Global,
    reader: &mut Reader,
    outer: Symbol,
    symbol: Symbol,
    spot: Spot,
    limit: u32,
    steps: &mut Steps<L>,
) -> Result<Sketch, Gap>
    requires { IsCharBoundary reader.old spot.at }
    ensures same { reader.new ≡ reader.old }
    ensures reads { IfOk result (λ s.
        Sketched limit s.target (Reads reader.old symbol spot) s.reached) }
    ensures ends { IfOk result (λ s. ReachesFrom reader.old spot.at s.reached) }
{
    if is_sketched(symbol) {
        let reached = sketch(alloc, reader, symbol, spot, limit, steps)?;
        return Ok(untold(reached));
    }
    if is_tried(outer) {
        return Err(Gap::Unclear);
    }
    let mut draft = nothing(alloc);
    let reached = read_into(alloc, reader, symbol, spot, &mut draft, steps)?;
    kept_sketch(reader, symbol, spot, reached, draft, limit)
}

/// A sketch of an option without conditions.
#[cycle(reading)]
#[inline(never)]
fn sketch_option<L: Ledger>(
    alloc: Global,
    reader: &mut Reader,
    symbol: Symbol,
    more: Turns,
    spot: Spot,
    limit: u32,
    steps: &mut Steps<L>,
) -> Result<Reached, Gap>
    requires low { rank_of symbol < 64 }
    requires ranked { IsTrue (rows_below (rank_of symbol) (map row more.rows.now)) }
    requires rows { turn_rows (rule_of symbol) ≡ map row more.rows.now }
    requires boundary { IsCharBoundary reader.old spot.at }
    ensures same { reader.new ≡ reader.old }
    ensures reads { IfOk result (λ r. (before : DraftOf) → all_lower (limit - 1) before.children ≡ true →
        Sketched limit None (ReadsTurns reader.old (turns true more) spot before) r) }
    ensures ends { IfOk result (λ r. ReachesFrom reader.old spot.at r) }
{
    if more.many || more.conditions.len() > 0 {
        return Err(Gap::Unclear);
    }
    if is_over(reader, symbol, more.rows, spot, steps) {
        return Ok(Reached::At(spot.at));
    }
    match sketch_rows(alloc, reader, symbol, more.rows, spot, limit, steps)? {
        Reached::Nothing => {
            if can_begin(reader, symbol, spot, steps) {
                Ok(Reached::Nothing)
            } else {
                Ok(Reached::At(spot.at))
            }
        }
        reached => Ok(reached),
    }
}

/// A sketch of any number of the rows, separated by commas.
#[cycle(reading)]
#[inline(never)]
fn sketch_list<L: Ledger>(
    alloc: Global,
    reader: &mut Reader,
    symbol: Symbol,
    rows: &[Alternative],
    spot: Spot,
    limit: u32,
    steps: &mut Steps<L>,
) -> Result<Reached, Gap>
    requires low { rank_of symbol < 64 }
    requires ranked { IsTrue (rows_below (rank_of symbol) (map row rows.now)) }
    requires rows { turn_rows (rule_of symbol) ≡ map row rows.now }
    requires boundary { IsCharBoundary reader.old spot.at }
    ensures same { reader.new ≡ reader.old }
    ensures reads { IfOk result (λ r.
        Sketched limit None (ReadsCommas reader.old (map row rows.now) spot empty) r) }
    ensures ends { IfOk result (λ r. ReachesFrom reader.old spot.at r) }
{
    let mut at = spot.at;
    loop {
        let here = Spot { at, ..spot };
        match sketch_rows(alloc, reader, symbol, rows, here, limit, steps)? {
            Reached::Nothing => {
                if can_begin(reader, symbol, here, steps) {
                    return Ok(Reached::Nothing);
                }
                return Ok(Reached::At(at));
            }
            Reached::TooDeep => return Ok(Reached::TooDeep),
            Reached::At(end) => match comma_at(reader, Spot { at: end, ..spot }, steps) {
                None => return Ok(Reached::At(end)),
                Some(comma) => at = comma.span.end,
            },
        }
    }
}

/// What the symbol reads whose rule has a head, where that was read so far.
#[cycle(reading)]
#[inline(never)]
fn turns_behind<L: Ledger>(
    alloc: Global,
    reader: &mut Reader,
    symbol: Symbol,
    spot: Spot,
    head: Reached,
    draft: &mut Draft,
    steps: &mut Steps<L>,
) -> Result<Reached, NoMemory>
    requires { EndsFrom reader.old spot.at (outcome_of head draft.old) }
    ensures same { reader.new ≡ reader.old }
    ensures reads { IfOk result (λ r. ReadsBehind reader.old symbol spot
        (outcome_of head draft.old) (outcome_of r draft.new)) }
    ensures ends { IfOk result
        (λ r. EndsFrom reader.old spot.at (outcome_of r draft.new)) }
{
    match head {
        Reached::At(end) => {
            let behind = Spot { at: end, ..spot };
            let set = terminals_at(reader, behind, steps);
            if is_quiet(reader, symbol, set, behind) {
                return Ok(Reached::At(end));
            }
            match rule_at(symbol) {
                Rule::Behind(_, more) => {
                    turns(alloc, reader, symbol, more, true, behind, draft, steps)
                }
                _ => Ok(head),
            }
        }
        stopped => Ok(stopped),
    }
}

/// The same for a symbol whose rule has no head.
#[cycle(reading)]
#[inline(never)]
fn read_headless<L: Ledger>(
    alloc: Global,
    reader: &mut Reader,
    symbol: Symbol,
    spot: Spot,
    draft: &mut Draft,
    steps: &mut Steps<L>,
) -> Result<Reached, NoMemory>
    requires headless { head_of (rule_of symbol) ≡ None }
    requires boundary { IsCharBoundary reader.old spot.at }
    ensures same { reader.new ≡ reader.old }
    ensures reads { IfOk result (λ r. Reads reader.old symbol spot (outcome_of r draft.new)) }
    ensures ends { IfOk result
        (λ r. EndsFrom reader.old spot.at (outcome_of r draft.new)) }
{
    match rule_at(symbol) {
        Rule::Choice(rows) => {
            let found = choice(alloc, reader, symbol, rows, spot, draft, steps)?;
            finished(alloc, found.makes, draft, found.reached)
        }
        Rule::More(more) => {
            clear(alloc, draft);
            turns(alloc, reader, symbol, more, false, spot, draft, steps)
        }
        Rule::Commas(rows) => {
            clear(alloc, draft);
            commas(alloc, reader, symbol, rows, spot, draft, steps)
        }
        Rule::Behind(..) => unreachable!(),
    }
}

/// What the symbol reads at the spot.
pub fn read<L: Ledger>(
    alloc: Global,
    reader: &mut Reader,
    symbol: Symbol,
    spot: Spot,
    steps: &mut Steps<L>,
) -> Result<Outcome, NoMemory>
    requires { IsCharBoundary reader.old spot.at }
    ensures same { reader.new ≡ reader.old }
    ensures reads { IfOk result (λ o. Reads reader.old symbol spot o) }
    ensures ends { IfOk result (λ o. EndsIn reader.old o) }
    ensures onward { IfOk result (λ o. EndsFrom reader.old spot.at o) }
{
    let mut draft = nothing(alloc);
    let reached = read_into(alloc, reader, symbol, spot, &mut draft, steps)?;
    Ok(outcome_of(reached, draft))
}
