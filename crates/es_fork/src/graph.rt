ghost use Rattle.std.specs.Prelude.{◌≡◌, [], ◌∷◌, ◌++◌, true, false, ◌≤◌, length, IsTrue, IfOk, IfErr, OnOk, OnErr};
ghost use Rattle.std.specs.List.{zip};
ghost use Rattle.es_fork.specs.Graphs.{segment_at, initial, IsOf};
ghost use Rattle.es_fork.specs.Walks.{IsGraph};
ghost use Rattle.es_fork.specs.Changes.{fresh, grown, labelled, connected, after, joined, new_ids, width, all_heads};
ghost use Rattle.es_fork.specs.Forks.{IsFork, AreForks, AreAlike, LeadsOn, IsTooWide, most_heads};

use crate::change::{index_of, lead, put_labels};
use crate::fork::{Fork, ForkFault};
use crate::lists;
use crate::make::{add_after, add_joined, add_unreachable};
use crate::segment::{Label, Segment, SegmentId};
use es_text::NoMemory;
use std::alloc::Global;
use std::marker::Model;

/// The most heads of a fork.
const MOST_HEADS: usize = 64;

/// A graph of segments, which have numbers from 1, the initial one's. Contracts see its segments and
/// those in which its walks return and throw. A call that answers `NoMemory` leaves it as it was.
#[derive(Drop)]
pub struct Graph {
    segments: Vec<Segment>,
    returned: Vec<SegmentId>,
    thrown: Vec<SegmentId>,
}

impl Model for Graph {
    ghost use Rattle.es_fork.specs.Graphs.{Parts};

    ghost Value = { Parts };

    ghost use Rattle.es_fork.specs.Walks.{IsGraph};

    ghost view = { λ graph. record { segments = graph.segments.items; returned = graph.returned.items; thrown = graph.thrown.items } };

    ghost invariant = { λ graph. IsGraph (record { segments = graph.segments.items; returned = graph.returned.items; thrown = graph.thrown.items }) };
}

impl Graph {
    /// One reachable segment, the initial one.
    pub fn new(alloc: Global) -> Result<Graph, NoMemory>
        ensures { IfOk result
            (λ graph. graph ≡ record { segments = fresh true ∷ []; returned = []; thrown = [] }) }
    {
        let mut segments = Vec::new(alloc);
        segments.push(Segment::new(alloc, true))?;
        Ok(Graph {
            segments,
            returned: Vec::new(alloc),
            thrown: Vec::new(alloc),
        })
    }

    /// The segment with this number.
    pub fn segment(&self, id: SegmentId) -> &Segment
        requires { IsOf self.now.segments id }
        ensures { result.now ≡ segment_at self.now.segments id }
    {
        &self.segments[index_of(id)]
    }

    /// How many segments there are.
    pub fn count(&self) -> u32
        ensures count { result ≡ length self.now.segments }
        ensures graph { IsGraph self.now }
    {
        self.segments.len() as u32
    }

    /// The segment where each walk begins.
    pub fn initial(&self) -> SegmentId
        ensures initial { result ≡ initial }
        ensures within { IsOf self.now.segments result }
    {
        let _segments = &self.segments;
        SegmentId { number: 1 }
    }

    /// The segments in which walks end that complete normally or return, in the order of `end`.
    pub fn returned(&self) -> &[SegmentId]
        ensures { result.now ≡ self.now.returned }
    {
        &self.returned
    }

    /// The segments in which walks end that throw, in the order of `end`.
    pub fn thrown(&self) -> &[SegmentId]
        ensures { result.now ≡ self.now.thrown }
    {
        &self.thrown
    }

    /// Puts the label at the end of each head's labels, in each or in none.
    pub fn label(&mut self, alloc: Global, at: &Fork, label: Label) -> Result<(), NoMemory>
        requires { IsFork self.old.segments at.now.heads }
        ensures ok { OnOk result
            (self.new ≡ record self.old { segments = labelled self.old.segments at.now.heads label }) }
        ensures err { OnErr result (self.new ≡ self.old) }
    {
        put_labels(alloc, &mut self.segments, at.heads.as_slice(), label)?;
        Ok(())
    }

    /// One new segment after each head, reachable where the head is.
    pub fn new_next(&mut self, alloc: Global, from: &Fork) -> Result<Fork, NoMemory>
        requires { IsFork self.old.segments from.now.heads }
        ensures ok { OnOk result
            (self.new ≡ record self.old { segments = after self.old.segments from.now.heads }) }
        ensures fork { IfOk result (λ fork. fork.heads ≡ new_ids self.old.segments (length from.now.heads)) }
        ensures err { OnErr result (self.new ≡ self.old) }
    {
        let fork = add_after(alloc, &mut self.segments, from.heads.as_slice())?;
        Ok(fork)
    }

    /// One new segment for each index of heads, after the heads of that index in all parts, reachable
    /// where one of them is.
    pub fn join(&mut self, alloc: Global, parts: &[Fork]) -> Result<Fork, NoMemory>
        requires forks { AreForks self.old.segments parts.now }
        requires alike { AreAlike parts.now }
        ensures ok { OnOk result
            (self.new ≡ record self.old { segments = joined self.old.segments parts.now }) }
        ensures fork { IfOk result (λ fork. fork.heads ≡ new_ids self.old.segments (width parts.now)) }
        ensures err { OnErr result (self.new ≡ self.old) }
    {
        let fork = add_joined(alloc, &mut self.segments, parts)?;
        Ok(fork)
    }

    /// The heads of all parts side by side, each with one new segment after it, reachable where the
    /// head is. More than 64 heads are `TooWide`, with their number; the graph is then as before.
    pub fn split_copies(&mut self, alloc: Global, parts: &[Fork]) -> Result<Fork, ForkFault>
        requires { AreForks self.old.segments parts.now }
        ensures ok { OnOk result
            (self.new ≡ record self.old { segments = after self.old.segments (all_heads parts.now) }) }
        ensures fork { IfOk result
            (λ fork. fork.heads ≡ new_ids self.old.segments (length (all_heads parts.now))) }
        ensures few { OnOk result (length (all_heads parts.now) ≤ most_heads) }
        ensures wide { IfErr result (IsTooWide (all_heads parts.now)) }
        ensures err { OnErr result (self.new ≡ self.old) }
    {
        let heads = lists::all_heads(alloc, parts)?;
        if heads.len() > MOST_HEADS {
            let Ok(copies) = u32::try_from(heads.len()) else {
                return Err(ForkFault::NoMemory);
            };
            return Err(ForkFault::TooWide { copies });
        }
        let fork = add_after(alloc, &mut self.segments, &heads)?;
        Ok(fork)
    }

    /// Adds an edge from each head of `from` to the head of `to` at its index, unless it is there.
    pub fn loop_to(&mut self, alloc: Global, from: &Fork, to: &Fork) -> Result<(), NoMemory>
        requires from { IsFork self.old.segments from.now.heads }
        requires to { IsFork self.old.segments to.now.heads }
        requires alike { length from.now.heads ≡ length to.now.heads }
        requires leads { LeadsOn self.old.segments from.now.heads to.now.heads }
        ensures ok { OnOk result
            (self.new ≡ record self.old { segments = connected self.old.segments (zip from.now.heads to.now.heads) }) }
        ensures err { OnErr result (self.new ≡ self.old) }
    {
        let edges = lists::pairs(alloc, from.heads.as_slice(), to.heads.as_slice())?;
        lead(alloc, &mut self.segments, &edges)?;
        Ok(())
    }

    /// One segment that no edge enters.
    pub fn unreachable(&mut self, alloc: Global) -> Result<Fork, NoMemory>
        ensures ok { OnOk result
            (self.new ≡ record self.old { segments = grown self.old.segments (false ∷ []) }) }
        ensures fork { IfOk result (λ fork. fork.heads ≡ new_ids self.old.segments 1) }
        ensures err { OnErr result (self.new ≡ self.old) }
    {
        let fork = add_unreachable(alloc, &mut self.segments)?;
        Ok(fork)
    }

    /// Adds the heads to the thrown segments, or to the returned ones.
    pub fn end(&mut self, at: &Fork, thrown: bool) -> Result<(), NoMemory>
        requires { IsFork self.old.segments at.now.heads }
        ensures thrown { IsTrue thrown →
            OnOk result (self.new ≡ record self.old { thrown = self.old.thrown ++ at.now.heads }) }
        ensures returned { thrown ≡ false →
            OnOk result (self.new ≡ record self.old { returned = self.old.returned ++ at.now.heads }) }
        ensures err { OnErr result (self.new ≡ self.old) }
    {
        let heads = at.heads.as_slice();
        if thrown {
            self.thrown.extend_from_slice(heads)?;
            return Ok(());
        }
        self.returned.extend_from_slice(heads)?;
        Ok(())
    }
}
