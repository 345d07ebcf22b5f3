//! The lists that a call needs before it changes the graph.
ghost use Rattle.std.specs.Prelude.{◌≡◌, ◌+◌, ◌<◌, ◌≤◌, ◌^◌, ◌++◌, length, map, slice_index, IfOk, OnOk};
ghost use Rattle.std.specs.List.{zip, range_with_len};
ghost use Rattle.es_fork.specs.declared.fork.Fork.{Fork};
ghost use Rattle.es_fork.specs.Graphs.{segment_at, Has, IsOf, AreOf};
ghost use Rattle.es_fork.specs.Changes.{flags, width, joins_reachable, edges_to, all_heads};

use crate::change::index_of;
use crate::fork::Fork;
use crate::segment::{Segment, SegmentId};
use es_text::NoMemory;
use std::alloc::Global;

/// The numbers of so many new segments after the last. Numbers past 2^32 get `NoMemory`.
pub fn new_ids(alloc: Global, last: usize, count: usize) -> Result<Vec<SegmentId>, NoMemory>
    ensures ids { IfOk result (λ ids. ids.items ≡ range_with_len (last + 1) count) }
    ensures few { OnOk result (last + count < 2 ^ 32) }
{
    let Some(end) = last.checked_add(count) else {
        return Err(NoMemory);
    };
    if end > u32::MAX as usize {
        return Err(NoMemory);
    }
    let mut ids = Vec::new(alloc);
    for before in last as u32..end as u32 {
        ids.push(SegmentId { number: before + 1 })?;
    }
    Ok(ids)
}

fn is_reachable(segments: &[Segment], head: SegmentId) -> bool
    requires { IsOf segments.now head }
    ensures { result ≡ (segment_at segments.now head).reachable }
{
    let segment = &segments[index_of(head)];
    segment.reachable
}

/// Which of the heads are reachable.
pub fn flags(
    alloc: Global,
    segments: &[Segment],
    heads: &[SegmentId],
) -> Result<Vec<bool>, NoMemory>
    requires { AreOf segments.now heads.now }
    ensures { IfOk result (λ list. list.items ≡ flags segments.now heads.now) }
{
    let mut list = Vec::new(alloc);
    for head in heads {
        list.push(is_reachable(segments, *head))?;
    }
    Ok(list)
}

/// Puts an edge from each segment to the one at its index.
fn pair(
    edges: &mut Vec<(SegmentId, SegmentId)>,
    from: &[SegmentId],
    to: &[SegmentId],
) -> Result<(), NoMemory>
    requires { length from.now ≡ length to.now }
    ensures { OnOk result (edges.new.items ≡ edges.old.items ++ zip from.now to.now) }
{
    for (index, head) in from.iter().enumerate() {
        edges.push((*head, to[index]))?;
    }
    Ok(())
}

/// The edges from each segment to the one at its index.
pub fn pairs(
    alloc: Global,
    from: &[SegmentId],
    to: &[SegmentId],
) -> Result<Vec<(SegmentId, SegmentId)>, NoMemory>
    requires { length from.now ≡ length to.now }
    ensures { IfOk result (λ edges. edges.items ≡ zip from.now to.now) }
{
    let mut edges = Vec::new(alloc);
    pair(&mut edges, from, to)?;
    Ok(edges)
}

/// How many heads each of the parts has.
pub fn width(parts: &[Fork]) -> usize
    requires { 1 ≤ length parts.now }
    ensures { result ≡ width parts.now }
{
    let part = &parts[0];
    part.heads.len()
}

fn head_at(part: &Fork, index: usize) -> SegmentId
    requires { index < length part.now.heads }
    ensures { result ≡ slice_index part.now.heads index }
{
    part.heads.as_slice()[index]
}

fn joins_reachable(segments: &[Segment], parts: &[Fork], index: usize) -> bool
    requires within { (part : Fork) → Has parts.now part → AreOf segments.now part.heads }
    requires index { (part : Fork) → Has parts.now part → index < length part.heads }
    ensures { result ≡ joins_reachable segments.now parts.now index }
{
    for part in parts {
        if is_reachable(segments, head_at(part, index)) {
            return true;
        }
    }
    false
}

/// For each index of heads, whether one of the heads there is reachable.
pub fn joined_flags(
    alloc: Global,
    segments: &[Segment],
    parts: &[Fork],
    width: usize,
) -> Result<Vec<bool>, NoMemory>
    requires within { (part : Fork) → Has parts.now part → AreOf segments.now part.heads }
    requires width { (part : Fork) → Has parts.now part → length part.heads ≡ width }
    ensures { IfOk result
        (λ list. list.items ≡ map (joins_reachable segments.now parts.now) (range_with_len 0 width)) }
{
    let mut list = Vec::new(alloc);
    for index in 0..width {
        list.push(joins_reachable(segments, parts, index))?;
    }
    Ok(list)
}

/// The edges from the heads of each part to the segments, in order.
pub fn joined_edges(
    alloc: Global,
    parts: &[Fork],
    ids: &[SegmentId],
) -> Result<Vec<(SegmentId, SegmentId)>, NoMemory>
    requires { (part : Fork) → Has parts.now part → length part.heads ≡ length ids.now }
    ensures { IfOk result (λ edges. edges.items ≡ edges_to parts.now ids.now) }
{
    let mut edges = Vec::new(alloc);
    for part in parts {
        pair(&mut edges, part.heads.as_slice(), ids)?;
    }
    Ok(edges)
}

/// The heads of all parts, side by side.
pub fn all_heads(alloc: Global, parts: &[Fork]) -> Result<Vec<SegmentId>, NoMemory>
    ensures { IfOk result (λ heads. heads.items ≡ all_heads parts.now) }
{
    let mut heads = Vec::new(alloc);
    for part in parts {
        heads.extend_from_slice(part.heads.as_slice())?;
    }
    Ok(heads)
}
