//! New segments. A call that is refused leaves the segments as they were.
ghost use Rattle.std.specs.Prelude.{◌≡◌, ℕ, ◌+◌, ◌<◌, ◌≤◌, ◌^◌, [], ◌∷◌, length, map, filter, take, nat_le, false, IfOk, OnOk, OnErr};
ghost use Rattle.es_fork.specs.declared.fork.Fork.{Fork};
ghost use Rattle.es_fork.specs.Graphs.{Has, AreOf};
ghost use Rattle.es_fork.specs.Forks.{AreAlike};
ghost use Rattle.es_fork.specs.Changes.{grown, connected, after, joined, new_ids, width};
ghost use Rattle.es_fork.specs.Edges.{AreFrom, ArePast, LeadsToNew, before, IsCutBack};

use crate::change::add_edge;
use crate::fork::Fork;
use crate::lists;
use crate::segment::{Segment, SegmentId};
use es_text::{Items, NoMemory};
use std::alloc::Global;
use std::mem;

/// Adds a new segment for each flag. Where it is refused, some of them are there.
fn grow(alloc: Global, segments: &mut Vec<Segment>, flags: &[bool]) -> Result<(), NoMemory>
    ensures ok { OnOk result (segments.new.items ≡ grown segments.old.items flags.now) }
    ensures err { OnErr result (take (length segments.old.items) segments.new.items ≡ segments.old.items) }
{
    for flag in flags {
        segments.push(Segment::new(alloc, *flag))?;
    }
    Ok(())
}

/// Adds the edges. Where it is refused, some of them are there.
fn connect(segments: &mut Vec<Segment>, edges: &[(SegmentId, SegmentId)]) -> Result<(), NoMemory>
    requires { AreFrom segments.old.items edges.now }
    ensures ok { OnOk result (segments.new.items ≡ connected segments.old.items edges.now) }
    ensures err { OnErr result
        ((last : ℕ) → ArePast last edges.now → map (before last) segments.new.items ≡ map (before last) segments.old.items) }
{
    for edge in edges {
        add_edge(segments, edge.0, edge.1)?;
    }
    Ok(())
}

/// Leaves out the edges to segments past the last.
fn forget_past(alloc: Global, next: &mut Items<SegmentId>, last: usize)
    ensures { next.new ≡ filter (λ id. nat_le id last) next.old }
{
    let held = mem::replace(next, Items::new(alloc));
    let mut ids = held.into_vec();
    ids.retain(
        |id: &SegmentId| -> bool
            ensures { result ≡ nat_le id.now last }
        { id.number as usize <= last },
    );
    *next = Items::from_vec(ids);
}

/// Leaves the first segments, so many, and the edges between them.
fn cut_back(alloc: Global, segments: &mut Vec<Segment>, count: usize)
    ensures { segments.new.items ≡ map (before count) (take count segments.old.items) }
{
    segments.truncate(count);
    for segment in segments.iter_mut() {
        forget_past(alloc, &mut segment.next, count);
    }
}

fn grow_and_connect(
    alloc: Global,
    segments: &mut Vec<Segment>,
    flags: &[bool],
    edges: &[(SegmentId, SegmentId)],
) -> Result<(), NoMemory>
    requires leads { LeadsToNew segments.old.items flags.now edges.now }
    requires closed { IsCutBack segments.old.items segments.old.items }
    ensures ok { OnOk result (segments.new.items ≡ connected (grown segments.old.items flags.now) edges.now) }
    ensures err { OnErr result (IsCutBack segments.old.items segments.new.items) }
{
    grow(alloc, segments, flags)?;
    connect(segments, edges)
}

/// Adds a new segment for each flag, and the edges to them.
fn make(
    alloc: Global,
    segments: &mut Vec<Segment>,
    flags: &[bool],
    edges: &[(SegmentId, SegmentId)],
) -> Result<(), NoMemory>
    requires leads { LeadsToNew segments.old.items flags.now edges.now }
    requires closed { IsCutBack segments.old.items segments.old.items }
    ensures ok { OnOk result (segments.new.items ≡ connected (grown segments.old.items flags.now) edges.now) }
    ensures err { OnErr result (segments.new.items ≡ segments.old.items) }
{
    let count = segments.len();
    if let Err(error) = grow_and_connect(alloc, segments, flags, edges) {
        cut_back(alloc, segments, count);
        return Err(error);
    }
    Ok(())
}

/// Adds one new segment after each head.
pub fn add_after(
    alloc: Global,
    segments: &mut Vec<Segment>,
    heads: &[SegmentId],
) -> Result<Fork, NoMemory>
    requires within { AreOf segments.old.items heads.now }
    requires closed { IsCutBack segments.old.items segments.old.items }
    ensures ok { OnOk result (segments.new.items ≡ after segments.old.items heads.now) }
    ensures fork { IfOk result (λ fork. fork.heads ≡ new_ids segments.old.items (length heads.now)) }
    ensures few { OnOk result (length segments.old.items + length heads.now < 2 ^ 32) }
    ensures err { OnErr result (segments.new.items ≡ segments.old.items) }
{
    let ids = lists::new_ids(alloc, segments.len(), heads.len())?;
    let flags = lists::flags(alloc, segments, heads)?;
    let edges = lists::pairs(alloc, heads, &ids)?;
    make(alloc, segments, &flags, &edges)?;
    Ok(Fork {
        heads: Items::from_vec(ids),
    })
}

/// Adds one new segment for each index of heads, after the heads of that index in all parts.
pub fn add_joined(
    alloc: Global,
    segments: &mut Vec<Segment>,
    parts: &[Fork],
) -> Result<Fork, NoMemory>
    requires some { 1 ≤ length parts.now }
    requires within { (part : Fork) → Has parts.now part → AreOf segments.old.items part.heads }
    requires alike { AreAlike parts.now }
    requires closed { IsCutBack segments.old.items segments.old.items }
    ensures ok { OnOk result (segments.new.items ≡ joined segments.old.items parts.now) }
    ensures fork { IfOk result (λ fork. fork.heads ≡ new_ids segments.old.items (width parts.now)) }
    ensures few { OnOk result (length segments.old.items + width parts.now < 2 ^ 32) }
    ensures err { OnErr result (segments.new.items ≡ segments.old.items) }
{
    let width = lists::width(parts);
    let ids = lists::new_ids(alloc, segments.len(), width)?;
    let flags = lists::joined_flags(alloc, segments, parts, width)?;
    let edges = lists::joined_edges(alloc, parts, &ids)?;
    make(alloc, segments, &flags, &edges)?;
    Ok(Fork {
        heads: Items::from_vec(ids),
    })
}

/// Adds one new segment that no edge enters.
pub fn add_unreachable(alloc: Global, segments: &mut Vec<Segment>) -> Result<Fork, NoMemory>
    requires { IsCutBack segments.old.items segments.old.items }
    ensures ok { OnOk result (segments.new.items ≡ grown segments.old.items (false ∷ [])) }
    ensures fork { IfOk result (λ fork. fork.heads ≡ new_ids segments.old.items 1) }
    ensures few { OnOk result (length segments.old.items + 1 < 2 ^ 32) }
    ensures err { OnErr result (segments.new.items ≡ segments.old.items) }
{
    let ids = lists::new_ids(alloc, segments.len(), 1)?;
    make(alloc, segments, &[false], &[])?;
    Ok(Fork {
        heads: Items::from_vec(ids),
    })
}
