//! The steps of a graph at single heads.
ghost use Rattle.std.specs.Prelude.{◌≡◌, ◌<◌, ◌≤◌, ◌++◌, [], ◌∷◌, length, map, IfOk, OnOk};
ghost use Rattle.es_fork.specs.Graphs.{segment_at, IsOf, AreOf};
ghost use Rattle.es_fork.specs.Changes.{labelled_at};
ghost use Rattle.es_skeleton.specs.Steps.{next_number, new_next, join, unreachable, looped, fork_of, LeadsTo, GoesOn};

use es_fork::{Fork, Graph, Label, SegmentId};
use es_text::{Items, NoMemory};
use std::alloc::Global;

/// The fork of one head.
fn fork(alloc: Global, head: SegmentId) -> Result<Fork, NoMemory>
    ensures { IfOk result (λ fork. fork ≡ fork_of head) }
{
    let mut heads = Items::new(alloc);
    heads.push(head)?;
    Ok(Fork { heads })
}

fn forks(alloc: Global, heads: &[SegmentId]) -> Result<Vec<Fork>, NoMemory>
    ensures { IfOk result (λ list. list.items ≡ map fork_of heads.now) }
{
    let mut list = Vec::new(alloc);
    for head in heads {
        list.push(fork(alloc, *head)?)?;
    }
    Ok(list)
}

/// The only head of a fork that the graph made.
fn only_head(fork: &Fork) -> SegmentId
    requires { length fork.now.heads ≡ 1 }
    ensures { fork.now.heads ≡ result ∷ [] }
{
    fork.heads.as_slice()[0]
}

/// Puts the label at the end of the head's labels.
pub fn put_label(
    graph: &mut Graph,
    alloc: Global,
    at: SegmentId,
    label: Label,
) -> Result<(), NoMemory>
    requires { IsOf graph.old.segments at }
    ensures { OnOk result
        (graph.new ≡ record graph.old { segments = labelled_at graph.old.segments at label }) }
{
    let fork = fork(alloc, at)?;
    graph.label(alloc, &fork, label)?;
    Ok(())
}

/// A new segment after the head.
pub fn next_of(graph: &mut Graph, alloc: Global, at: SegmentId) -> Result<SegmentId, NoMemory>
    requires { IsOf graph.old.segments at }
    ensures head { IfOk result (λ head. head ≡ next_number graph.old.segments) }
    ensures ok { OnOk result
        (graph.new ≡ record graph.old { segments = new_next graph.old.segments at }) }
{
    let from = fork(alloc, at)?;
    let made = graph.new_next(alloc, &from)?;
    Ok(only_head(&made))
}

/// A new segment after all heads.
pub fn join_of(graph: &mut Graph, alloc: Global, heads: &[SegmentId]) -> Result<SegmentId, NoMemory>
    requires some { 1 ≤ length heads.now }
    requires within { AreOf graph.old.segments heads.now }
    ensures head { IfOk result (λ head. head ≡ next_number graph.old.segments) }
    ensures ok { OnOk result
        (graph.new ≡ record graph.old { segments = join graph.old.segments heads.now }) }
{
    let parts = forks(alloc, heads)?;
    let made = graph.join(alloc, &parts)?;
    Ok(only_head(&made))
}

/// A new segment that no edge enters.
pub fn unreachable_of(graph: &mut Graph, alloc: Global) -> Result<SegmentId, NoMemory>
    ensures head { IfOk result (λ head. head ≡ next_number graph.old.segments) }
    ensures ok { OnOk result
        (graph.new ≡ record graph.old { segments = unreachable graph.old.segments }) }
{
    let made = graph.unreachable(alloc)?;
    Ok(only_head(&made))
}

/// An edge from each head back to the segment, unless it is there.
pub fn loop_back(
    graph: &mut Graph,
    alloc: Global,
    heads: &[SegmentId],
    to: SegmentId,
) -> Result<(), NoMemory>
    requires within { AreOf graph.old.segments heads.now }
    requires to { IsOf graph.old.segments to }
    requires leads { LeadsTo graph.old.segments heads.now to }
    ensures { OnOk result
        (graph.new ≡ record graph.old { segments = looped graph.old.segments heads.now to }) }
{
    let target = fork(alloc, to)?;
    for head in heads {
        let from = fork(alloc, *head)?;
        graph.loop_to(alloc, &from, &target)?;
    }
    Ok(())
}

/// Where a graph goes on, and whether it can come there.
#[derive(Clone, Copy)]
pub struct Next {
    pub head: SegmentId,
    pub met: bool,
}

/// Goes on from all heads at one; without a head, in an unreachable segment.
pub fn go_on(graph: &mut Graph, alloc: Global, heads: &[SegmentId]) -> Result<Next, NoMemory>
    requires { AreOf graph.old.segments heads.now }
    ensures goes { IfOk result
        (λ next. GoesOn heads.now graph.old.segments graph.new.segments next.head next.met) }
    ensures returned { OnOk result (graph.new.returned ≡ graph.old.returned) }
    ensures thrown { OnOk result (graph.new.thrown ≡ graph.old.thrown) }
{
    match heads {
        [] => {
            let head = unreachable_of(graph, alloc)?;
            Ok(Next { head, met: false })
        }
        [head] => Ok(Next {
            head: *head,
            met: true,
        }),
        _ => {
            let head = join_of(graph, alloc, heads)?;
            Ok(Next { head, met: true })
        }
    }
}

/// Ends the heads as returned.
pub fn end_returned(graph: &mut Graph, alloc: Global, heads: &[SegmentId]) -> Result<(), NoMemory>
    requires { AreOf graph.old.segments heads.now }
    ensures { OnOk result
        (graph.new ≡ record graph.old { returned = graph.old.returned ++ heads.now }) }
{
    for head in heads {
        let at = fork(alloc, *head)?;
        graph.end(&at, false)?;
    }
    Ok(())
}

/// Ends the heads as thrown.
pub fn end_thrown(graph: &mut Graph, alloc: Global, heads: &[SegmentId]) -> Result<(), NoMemory>
    requires { AreOf graph.old.segments heads.now }
    ensures { OnOk result
        (graph.new ≡ record graph.old { thrown = graph.old.thrown ++ heads.now }) }
{
    for head in heads {
        let at = fork(alloc, *head)?;
        graph.end(&at, true)?;
    }
    Ok(())
}
