//! Builds the graph of a skeleton.
ghost use Rattle.std.specs.Prelude.{◌≡◌, ◌≤◌, [], ◌∷◌, ◌++◌, cond, length, map, IfOk, IfErr, OnOk};
ghost use Rattle.es_fork.specs.Walks.{IsGraph};
ghost use Rattle.es_skeleton.specs.declared.completion.Completion.TheVariants.{Normal, Return};
ghost use Rattle.es_skeleton.specs.Controls.{Exit, Catch, Choice, Loop, Finally};
ghost use Rattle.es_skeleton.specs.Pendings.{heads, others, AwaitCount};
ghost use Rattle.es_skeleton.specs.Steps.{said};
ghost use Rattle.es_skeleton.specs.Built.{Head, Makes, MakesCopies, SomeWait, at_head, labels_of};
ghost use Rattle.es_skeleton.specs.Copies.{one_copy, HasFewCopies, IsTooWide};
ghost use Rattle.es_skeleton.specs.Numbers.{AreInOrder};
ghost use Rattle.es_skeleton.specs.Exact.{Exact};
ghost use Rattle.es_skeleton.specs.Shapes.{shape, onto};

use crate::completion::Completion;
use crate::fault::SkeletonFault;
use crate::pending::{Pending, heads_of, one, others_of, put_all, put_recoded, recoded_of};
use crate::skeleton::Skeleton;
use crate::step::{
    end_returned, end_thrown, go_on, join_of, loop_back, next_of, put_label, unreachable_of,
};
use es_fork::{Graph, SegmentId};
use es_text::NoMemory;
use std::alloc::Global;

/// The most copies of a label.
const MOST_COPIES: u32 = 64;

/// What waits after some parts of a list: normal heads, and the others, of which none is normal.
#[derive(Drop)]
struct Front {
    normal: Vec<SegmentId>,
    rest: Vec<Pending>,
}

impl Front {
    fn new(alloc: Global, at: SegmentId) -> Result<Front, NoMemory>
        ensures { IfOk result (λ front. (front.normal.items ≡ at ∷ []) × (front.rest.items ≡ [])) }
    {
        let mut normal = Vec::new(alloc);
        normal.push(at)?;
        Ok(Front {
            normal,
            rest: Vec::new(alloc),
        })
    }

    /// After a further part; only one that is met adds what waits after it.
    fn after(self, alloc: Global, made: &[Pending], met: bool) -> Result<Front, NoMemory>
        ensures normal { IfOk result
            (λ front. front.normal.items ≡ cond met (heads Normal made.now) []) }
        ensures rest { IfOk result (λ front.
            front.rest.items
            ≡ cond met (self.rest.items ++ others Normal made.now) self.rest.items) }
    {
        let mut rest = self.rest;
        if met {
            let normal = heads_of(alloc, made, Completion::Normal)?;
            let more = others_of(alloc, made, Completion::Normal)?;
            put_all(&mut rest, &more)?;
            return Ok(Front { normal, rest });
        }
        let normal = Vec::new(alloc);
        Ok(Front { normal, rest })
    }

    /// What waits with the completion goes on normally.
    fn enter(self, alloc: Global, completion: Completion) -> Result<Front, NoMemory>
        ensures normal { IfOk result
            (λ front. front.normal.items ≡ self.normal.items ++ heads completion self.rest.items) }
        ensures rest { IfOk result
            (λ front. front.rest.items ≡ others completion self.rest.items) }
    {
        let mut normal = self.normal;
        let more = heads_of(alloc, &self.rest, completion)?;
        normal.extend_from_slice(&more)?;
        let rest = others_of(alloc, &self.rest, completion)?;
        Ok(Front { normal, rest })
    }

    /// All that waits.
    fn all(self) -> Result<Vec<Pending>, NoMemory>
        ensures { IfOk result
            (λ list. list.items ≡ self.rest.items ++ map (at_head Normal) self.normal.items) }
    {
        let mut list = self.rest;
        for head in &self.normal {
            list.push(Pending {
                completion: Completion::Normal,
                head: *head,
            })?;
        }
        Ok(list)
    }
}

/// Builds the skeleton from the open head, and gives the heads that wait after it. Each label
/// stands in so many copies of what is around.
#[cycle(build)]
fn build(
    graph: &mut Graph,
    alloc: Global,
    skeleton: &Skeleton,
    at: SegmentId,
    copies: u32,
) -> Result<Vec<Pending>, SkeletonFault>
    requires { Head graph.old.segments at }
    ensures made { IfOk result
        (λ list. Makes (shape skeleton.now) graph.old at graph.new list.items) }
    ensures few { OnOk result (HasFewCopies (shape skeleton.now) copies) }
    ensures wide { IfErr result (λ fault. IsTooWide (shape skeleton.now) copies fault) }
{
    match skeleton {
        Skeleton::Emit(label) => {
            if copies > MOST_COPIES {
                return Err(SkeletonFault::TooWide {
                    label: *label,
                    copies,
                });
            }
            put_label(graph, alloc, at, *label)?;
            let list = one(alloc, Completion::Normal, at)?;
            Ok(list)
        }
        Skeleton::Exit(completion) => {
            let list = one(alloc, *completion, at)?;
            Ok(list)
        }
        Skeleton::Catch(completion, first, second) => {
            build_catch(graph, alloc, *completion, first, second, at, copies)
        }
        Skeleton::Choice(first, second) => { build_choice(graph, alloc, first, second, at, copies) }
        Skeleton::Loop(part) => build_loop(graph, alloc, part, at, copies),
        Skeleton::Finally(body, finalizer) => {
            build_finally(graph, alloc, body, finalizer, at, copies)
        }
        Skeleton::Seq(parts) => {
            let list = build_seq(graph, alloc, parts, at, copies)?;
            Ok(list)
        }
        Skeleton::Entry(_) => {
            let list = one(alloc, Completion::Normal, at)?;
            Ok(list)
        }
    }
}

#[cycle(build)]
fn build_catch(
    graph: &mut Graph,
    alloc: Global,
    completion: Completion,
    first: &Skeleton,
    second: &Skeleton,
    at: SegmentId,
    copies: u32,
) -> Result<Vec<Pending>, SkeletonFault>
    requires { Head graph.old.segments at }
    ensures made { IfOk result (λ list.
        Makes (Catch completion (shape first.now) (shape second.now))
        graph.old at graph.new list.items) }
    ensures few { OnOk result
        (HasFewCopies (Catch completion (shape first.now) (shape second.now)) copies) }
    ensures wide { IfErr result (λ fault.
        IsTooWide (Catch completion (shape first.now) (shape second.now)) copies fault) }
{
    let before = build(graph, alloc, first, at, copies)?;
    if let Skeleton::Exit(to) = second {
        let recoded = recoded_of(alloc, &before, completion, *to)?;
        return Ok(recoded);
    }
    let heads = heads_of(alloc, &before, completion)?;
    let next = go_on(graph, alloc, &heads)?;
    let after = build(graph, alloc, second, next.head, copies)?;
    let rest = others_of(alloc, &before, completion)?;
    let list = with_met(rest, &after, next.met)?;
    Ok(list)
}

fn with_met(rest: Vec<Pending>, more: &[Pending], met: bool) -> Result<Vec<Pending>, NoMemory>
    ensures { IfOk result (λ list. list.items ≡ cond met (rest.items ++ more.now) rest.items) }
{
    let mut list = rest;
    if met {
        put_all(&mut list, more)?;
    }
    Ok(list)
}

/// One part after another, in a loop, since there may be many.
#[cycle(build)]
fn build_seq(
    graph: &mut Graph,
    alloc: Global,
    parts: &[Skeleton],
    at: SegmentId,
    copies: u32,
) -> Result<Vec<Pending>, SkeletonFault>
    requires { Head graph.old.segments at }
    ensures made { IfOk result
        (λ list. Makes (onto (Exit Normal) parts.now) graph.old at graph.new list.items) }
    ensures few { OnOk result (HasFewCopies (onto (Exit Normal) parts.now) copies) }
    ensures wide { IfErr result (λ fault. IsTooWide (onto (Exit Normal) parts.now) copies fault) }
{
    let mut front = Front::new(alloc, at)?;
    for part in parts {
        match part.entry() {
            Some(completion) => {
                front = front.enter(alloc, completion)?;
                continue;
            }
            None => {
                let next = go_on(graph, alloc, &front.normal)?;
                let made = build(graph, alloc, part, next.head, copies)?;
                front = front.after(alloc, &made, next.met)?;
            }
        }
    }
    let list = front.all()?;
    Ok(list)
}

#[cycle(build)]
fn build_choice(
    graph: &mut Graph,
    alloc: Global,
    first: &Skeleton,
    second: &Skeleton,
    at: SegmentId,
    copies: u32,
) -> Result<Vec<Pending>, SkeletonFault>
    requires { Head graph.old.segments at }
    ensures made { IfOk result (λ list.
        Makes (Choice (shape first.now) (shape second.now)) graph.old at graph.new list.items) }
    ensures few { OnOk result (HasFewCopies (Choice (shape first.now) (shape second.now)) copies) }
    ensures wide { IfErr result
        (λ fault. IsTooWide (Choice (shape first.now) (shape second.now)) copies fault) }
{
    let left = next_of(graph, alloc, at)?;
    let mut list = build(graph, alloc, first, left, copies)?;
    let right = next_of(graph, alloc, at)?;
    let more = build(graph, alloc, second, right, copies)?;
    put_all(&mut list, &more)?;
    Ok(list)
}

#[cycle(build)]
fn build_loop(
    graph: &mut Graph,
    alloc: Global,
    part: &Skeleton,
    at: SegmentId,
    copies: u32,
) -> Result<Vec<Pending>, SkeletonFault>
    requires { Head graph.old.segments at }
    ensures made { IfOk result
        (λ list. Makes (Loop (shape part.now)) graph.old at graph.new list.items) }
    ensures few { OnOk result (HasFewCopies (Loop (shape part.now)) copies) }
    ensures wide { IfErr result (λ fault. IsTooWide (Loop (shape part.now)) copies fault) }
{
    let again = next_of(graph, alloc, at)?;
    let made = build(graph, alloc, part, again, copies)?;
    let heads = heads_of(alloc, &made, Completion::Normal)?;
    loop_back(graph, alloc, &heads, again)?;
    let rest = others_of(alloc, &made, Completion::Normal)?;
    Ok(rest)
}

#[cycle(build)]
fn build_finally(
    graph: &mut Graph,
    alloc: Global,
    body: &Skeleton,
    finalizer: &Skeleton,
    at: SegmentId,
    copies: u32,
) -> Result<Vec<Pending>, SkeletonFault>
    requires { Head graph.old.segments at }
    ensures made { IfOk result (λ list.
        Makes (Finally (shape body.now) (shape finalizer.now)) graph.old at graph.new list.items) }
    ensures few { OnOk result
        (HasFewCopies (Finally (shape body.now) (shape finalizer.now)) copies) }
    ensures wide { IfErr result
        (λ fault. IsTooWide (Finally (shape body.now) (shape finalizer.now)) copies fault) }
{
    let before = build(graph, alloc, body, at, copies)?;
    if before.is_empty() {
        let dead = unreachable_of(graph, alloc)?;
        say(graph, alloc, finalizer, dead)?;
        return Ok(before);
    }
    let count = count_completions(alloc, &before)?;
    let Some(product) = copies.checked_mul(count) else {
        return Err(SkeletonFault::NoMemory);
    };
    let list = build_copies(graph, alloc, finalizer, before, product)?;
    Ok(list)
}

/// A copy of the finalizer for each completion with which heads wait.
#[cycle(build)]
fn build_copies(
    graph: &mut Graph,
    alloc: Global,
    finalizer: &Skeleton,
    before: Vec<Pending>,
    copies: u32,
) -> Result<Vec<Pending>, SkeletonFault>
    requires waits { SomeWait graph.old.segments before.items }
    requires some { 1 ≤ length before.items }
    ensures made { IfOk result (λ list.
        MakesCopies (shape finalizer.now) before.items graph.old graph.new list.items) }
    ensures few { OnOk result (HasFewCopies (shape finalizer.now) copies) }
    ensures wide { IfErr result (λ fault. IsTooWide (shape finalizer.now) copies fault) }
{
    let mut rest = before;
    let mut list = Vec::new(alloc);
    'copies: while !rest.is_empty() {
        let completion = rest[0].completion;
        let heads = heads_of(alloc, &rest, completion)?;
        let at = join_of(graph, alloc, &heads)?;
        let made = build(graph, alloc, finalizer, at, copies)?;
        put_recoded(&mut list, &made, Completion::Normal, completion)?;
        rest = others_of(alloc, &rest, completion)?;
    }
    Ok(list)
}

/// How many completions the heads wait with.
fn count_completions(alloc: Global, all: &[Pending]) -> Result<u32, NoMemory>
    ensures { IfOk result (λ count. AwaitCount all.now count) }
{
    let mut rest = Vec::new(alloc);
    put_all(&mut rest, all)?;
    let mut count: u32 = 0;
    'counts: while !rest.is_empty() {
        let completion = rest[0].completion;
        let Some(more) = count.checked_add(1) else {
            return Err(NoMemory);
        };
        count = more;
        rest = others_of(alloc, &rest, completion)?;
    }
    Ok(count)
}

/// Puts all labels of the skeleton at the end of the head's.
#[cycle(say)]
fn say(graph: &mut Graph, alloc: Global, skeleton: &Skeleton, at: SegmentId) -> Result<(), NoMemory>
    requires { Head graph.old.segments at }
    ensures { OnOk result (graph.new ≡ record graph.old {
      segments = said graph.old.segments at (labels_of (shape skeleton.now));
    }) }
{
    match skeleton {
        Skeleton::Emit(label) => put_label(graph, alloc, at, *label),
        Skeleton::Catch(_, first, second) => say_both(graph, alloc, first, second, at),
        Skeleton::Choice(first, second) => say_both(graph, alloc, first, second, at),
        Skeleton::Finally(first, second) => say_both(graph, alloc, first, second, at),
        Skeleton::Loop(part) => say(graph, alloc, part, at),
        Skeleton::Seq(parts) => {
            say_all(graph, alloc, parts, at)?;
            Ok(())
        }
        Skeleton::Exit(_) => Ok(()),
        Skeleton::Entry(_) => Ok(()),
    }
}

#[cycle(say)]
fn say_both(
    graph: &mut Graph,
    alloc: Global,
    first: &Skeleton,
    second: &Skeleton,
    at: SegmentId,
) -> Result<(), NoMemory>
    requires { Head graph.old.segments at }
    ensures { OnOk result (graph.new ≡ record graph.old {
      segments = said graph.old.segments at
          (labels_of (shape first.now) ++ labels_of (shape second.now));
    }) }
{
    say(graph, alloc, first, at)?;
    say(graph, alloc, second, at)?;
    Ok(())
}

#[cycle(say)]
fn say_all(
    graph: &mut Graph,
    alloc: Global,
    parts: &[Skeleton],
    at: SegmentId,
) -> Result<(), NoMemory>
    requires { Head graph.old.segments at }
    ensures { OnOk result (graph.new ≡ record graph.old {
      segments = said graph.old.segments at (labels_of (onto (Exit Normal) parts.now));
    }) }
{
    for part in parts {
        say(graph, alloc, part, at)?;
    }
    Ok(())
}

/// The graph of a skeleton: its walks are the skeleton's runs. `TooWide` comes exactly where a
/// label has more than 64 copies, with the first such label in the skeleton's order and its copies.
/// The cost is linear in the skeleton, each finalizer taken once a copy, but for entries: each one
/// looks through all heads that wait in its list. Copies in a number that is no `u32` are answered
/// as `NoMemory`.
pub fn graph_of(alloc: Global, skeleton: &Skeleton) -> Result<Graph, SkeletonFault>
    ensures exact { IfOk result (λ graph. Exact (shape skeleton.now) graph) }
    ensures graph { IfOk result (λ graph. IsGraph graph) }
    ensures order { IfOk result (λ graph. AreInOrder graph.segments) }
    ensures few { OnOk result (HasFewCopies (shape skeleton.now) one_copy) }
    ensures wide { IfErr result (λ fault. IsTooWide (shape skeleton.now) one_copy fault) }
{
    let mut graph = Graph::new(alloc)?;
    let initial = graph.initial();
    let made = build(&mut graph, alloc, skeleton, initial, 1)?;
    let normal = heads_of(alloc, &made, Completion::Normal)?;
    end_returned(&mut graph, alloc, &normal)?;
    let returned = heads_of(alloc, &made, Completion::Return)?;
    end_returned(&mut graph, alloc, &returned)?;
    let thrown = heads_of(alloc, &made, Completion::Throw)?;
    end_thrown(&mut graph, alloc, &thrown)?;
    let _count = graph.count();
    Ok(graph)
}
