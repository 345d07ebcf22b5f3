//! Changes of a graph's segments. One that is refused leaves them as they were.
ghost use Rattle.std.specs.Prelude.{◌≡◌, ℕ, ◌+◌, ◌<◌, ◌≤◌, List, [], ◌∷◌, ◌++◌, OnOk, OnErr};
ghost use Rattle.es_fork.specs.declared.segment.Segment.{Segment};
ghost use Rattle.es_fork.specs.declared.segment.Label.{Label};
ghost use Rattle.es_fork.specs.Graphs.{IsOf, AreOf};
ghost use Rattle.es_fork.specs.Changes.{labelled_at, labelled, edge_put, edged, connected, has_edge};
ghost use Rattle.es_fork.specs.Edges.{AreFrom};

use crate::segment::{Label, Segment, SegmentId};
use es_text::{Items, NoMemory};
use std::alloc::Global;
use std::mem;

/// Where the segment stands in the list.
pub fn index_of(id: SegmentId) -> usize
    requires { 1 ≤ id }
    ensures { result + 1 ≡ id }
{
    id.number as usize - 1
}

fn put_label(segments: &mut Vec<Segment>, at: SegmentId, label: Label) -> Result<(), NoMemory>
    requires { IsOf segments.old.items at }
    ensures ok { OnOk result (segments.new.items ≡ labelled_at segments.old.items at label) }
    ensures err { OnErr result (segments.new.items ≡ segments.old.items) }
{
    let segment = &mut segments[index_of(at)];
    segment.labels.push(label)?;
    Ok(())
}

fn take_last<T: Drop>(alloc: Global, list: &mut Items<T>)
    ensures { (held : List T) (item : T) → list.old ≡ held ++ item ∷ [] → list.new ≡ held }
{
    let held = mem::replace(list, Items::new(alloc));
    let mut items = held.into_vec();
    items.pop();
    *list = Items::from_vec(items);
}

/// Takes back the label that was put last.
fn take_label(alloc: Global, segments: &mut Vec<Segment>, at: SegmentId)
    requires { IsOf segments.old.items at }
    ensures { (held : List Segment) (label : Label) →
        segments.old.items ≡ labelled_at held at label → segments.new.items ≡ held }
{
    let segment = &mut segments[index_of(at)];
    take_last(alloc, &mut segment.labels);
}

/// Puts the label at the end of each head's. It calls itself once for each head, of which there are
/// at most 64.
pub fn put_labels(
    alloc: Global,
    segments: &mut Vec<Segment>,
    heads: &[SegmentId],
    label: Label,
) -> Result<(), NoMemory>
    requires { AreOf segments.old.items heads.now }
    ensures ok { OnOk result (segments.new.items ≡ labelled segments.old.items heads.now label) }
    ensures err { OnErr result (segments.new.items ≡ segments.old.items) }
{
    match heads {
        [] => Ok(()),
        [head, rest @ ..] => {
            put_label(segments, *head, label)?;
            if let Err(error) = put_labels(alloc, segments, rest, label) {
                take_label(alloc, segments, *head);
                return Err(error);
            }
            Ok(())
        }
    }
}

fn is_next(segments: &[Segment], from: SegmentId, to: SegmentId) -> bool
    requires { IsOf segments.now from }
    ensures { result ≡ has_edge segments.now from to }
{
    let segment = &segments[index_of(from)];
    let ids = segment.next.as_slice();
    for next in ids {
        if next.number == to.number {
            return true;
        }
    }
    false
}

fn put_edge(segments: &mut Vec<Segment>, from: SegmentId, to: SegmentId) -> Result<(), NoMemory>
    requires { IsOf segments.old.items from }
    ensures ok { OnOk result (segments.new.items ≡ edge_put segments.old.items from to) }
    ensures err { OnErr result (segments.new.items ≡ segments.old.items) }
{
    let segment = &mut segments[index_of(from)];
    segment.next.push(to)?;
    Ok(())
}

/// Takes back the edge that was put last.
fn take_edge(alloc: Global, segments: &mut Vec<Segment>, from: SegmentId)
    requires { IsOf segments.old.items from }
    ensures { (held : List Segment) (to : ℕ) →
        segments.old.items ≡ edge_put held from to → segments.new.items ≡ held }
{
    let segment = &mut segments[index_of(from)];
    take_last(alloc, &mut segment.next);
}

/// Adds the edge, unless it is there.
pub fn add_edge(segments: &mut Vec<Segment>, from: SegmentId, to: SegmentId) -> Result<(), NoMemory>
    requires { IsOf segments.old.items from }
    ensures ok { OnOk result (segments.new.items ≡ edged segments.old.items from to) }
    ensures err { OnErr result (segments.new.items ≡ segments.old.items) }
{
    if is_next(segments, from, to) {
        return Ok(());
    }
    put_edge(segments, from, to)
}

/// Adds edges between segments that are there. It calls itself once for each edge, of which there
/// are at most 64.
pub fn lead(
    alloc: Global,
    segments: &mut Vec<Segment>,
    edges: &[(SegmentId, SegmentId)],
) -> Result<(), NoMemory>
    requires { AreFrom segments.old.items edges.now }
    ensures ok { OnOk result (segments.new.items ≡ connected segments.old.items edges.now) }
    ensures err { OnErr result (segments.new.items ≡ segments.old.items) }
{
    match edges {
        [] => Ok(()),
        [(from, to), rest @ ..] => {
            if is_next(segments, *from, *to) {
                lead(alloc, segments, rest)
            } else {
                put_edge(segments, *from, *to)?;
                if let Err(error) = lead(alloc, segments, rest) {
                    take_edge(alloc, segments, *from);
                    return Err(error);
                }
                Ok(())
            }
        }
    }
}
