ghost use Rattle.std.specs.Prelude.{◌≡◌, [], ◌∷◌, IfOk};
ghost use Rattle.es_fork.specs.Forks.{IsFork, AreForks, AreAlike};

use crate::{Fork, ForkFault, Graph, Label, Segment, SegmentId};
use es_text::{Items, NoMemory};
use std::alloc::{AllocError, Global};
use std::process::Abort;
use std::test::Fail;

/// The fork of one segment of the graph.
fn one(rt: &impl Abort, alloc: Global, graph: &Graph, number: u32) -> Result<Fork, NoMemory>
    ensures fork { IfOk result (λ fork. IsFork graph.now.segments fork.heads) }
    ensures head { IfOk result (λ fork. fork.heads ≡ number ∷ []) }
{
    assert!(rt; number >= 1);
    assert!(rt; number <= graph.count());
    let mut heads = Items::new(alloc);
    heads.push(SegmentId { number })?;
    Ok(Fork { heads })
}

/// Two forks of one segment.
fn two(
    rt: &impl Abort,
    alloc: Global,
    graph: &Graph,
    first: u32,
    second: u32,
) -> Result<Vec<Fork>, NoMemory>
    ensures forks { IfOk result (λ parts. AreForks graph.now.segments parts.items) }
    ensures alike { IfOk result (λ parts. AreAlike parts.items) }
{
    let mut parts = Vec::new(alloc);
    parts.push(one(rt, alloc, graph, first)?)?;
    parts.push(one(rt, alloc, graph, second)?)?;
    Ok(parts)
}

/// The fork of two segments.
fn pair(
    rt: &impl Abort,
    alloc: Global,
    graph: &Graph,
    first: u32,
    second: u32,
) -> Result<Fork, NoMemory>
    ensures fork { IfOk result (λ fork. IsFork graph.now.segments fork.heads) }
    ensures heads { IfOk result (λ fork. fork.heads ≡ first ∷ second ∷ []) }
{
    assert!(rt; first >= 1);
    assert!(rt; first <= graph.count());
    assert!(rt; second >= 1);
    assert!(rt; second <= graph.count());
    assert!(rt; first != second);
    let mut heads = Items::new(alloc);
    heads.push(SegmentId { number: first })?;
    heads.push(SegmentId { number: second })?;
    Ok(Fork { heads })
}

/// Two forks of two segments each.
fn pairs(rt: &impl Abort, alloc: Global, graph: &Graph) -> Result<Vec<Fork>, NoMemory>
    ensures forks { IfOk result (λ parts. AreForks graph.now.segments parts.items) }
    ensures alike { IfOk result (λ parts. AreAlike parts.items) }
{
    let mut parts = Vec::new(alloc);
    parts.push(pair(rt, alloc, graph, 1, 3)?)?;
    parts.push(pair(rt, alloc, graph, 2, 4)?)?;
    Ok(parts)
}

/// So many forks of the initial segment, at least one.
fn many(rt: &impl Abort, alloc: Global, graph: &Graph, count: u32) -> Result<Vec<Fork>, NoMemory>
    ensures { IfOk result (λ parts. AreForks graph.now.segments parts.items) }
{
    let mut parts = Vec::new(alloc);
    parts.push(one(rt, alloc, graph, 1)?)?;
    for _ in 1..count {
        parts.push(one(rt, alloc, graph, 1)?)?;
    }
    Ok(parts)
}

fn label_text(alloc: Global, label: &Label) -> Result<String, AllocError> {
    match label {
        Label::Enter(node) => format!(in alloc; "+{node}"),
        Label::Leave(node) => format!(in alloc; "-{node}"),
        Label::Made(node) => format!(in alloc; "*{node}"),
    }
}

/// The segment as its labels, `live` or `dead`, and the numbers of the next ones.
fn segment_text(alloc: Global, segment: &Segment) -> Result<String, AllocError> {
    let mut text = String::new(alloc);
    for label in segment.labels.as_slice() {
        text.push_str(label_text(alloc, label)?.as_str())?;
    }
    text.push_str(if segment.reachable { " live" } else { " dead" })?;
    for id in segment.next.as_slice() {
        let number = id.number;
        text.push_str(format!(in alloc; " {number}")?.as_str())?;
    }
    Ok(text)
}

fn graph_text(alloc: Global, graph: &Graph) -> Result<String, AllocError> {
    let mut text = String::new(alloc);
    for before in 0..graph.count() {
        let segment = graph.segment(SegmentId { number: before + 1 });
        text.push_str(segment_text(alloc, segment)?.as_str())?;
        text.push_str(";")?;
    }
    Ok(text)
}

/// A graph of three segments, of which the second follows the first.
fn three(rt: &impl Abort, alloc: Global) -> Result<Graph, NoMemory> {
    let mut graph = Graph::new(alloc)?;
    let at = one(rt, alloc, &graph, 1)?;
    graph.new_next(alloc, &at)?;
    graph.unreachable(alloc)?;
    Ok(graph)
}

#[test]
fn new_segments(rt: HostRuntime) -> Result<(), Fail> {
    let graph = three(&rt, rt.alloc())?;
    assert_eq!(rt; graph.initial().number, 1);
    assert_eq!(rt;
        graph_text(rt.alloc(), &graph)?.as_str(),
        " live 2; live; dead;"
    );
    Ok(())
}

#[test]
fn labels(rt: HostRuntime) -> Result<(), Fail> {
    let mut graph = three(&rt, rt.alloc())?;
    let at = one(&rt, rt.alloc(), &graph, 2)?;
    graph.label(rt.alloc(), &at, Label::Enter(7))?;
    assert_eq!(rt;
        graph_text(rt.alloc(), &graph)?.as_str(),
        " live 2;+7 live; dead;"
    );
    Ok(())
}

#[test]
fn joins(rt: HostRuntime) -> Result<(), Fail> {
    let mut graph = three(&rt, rt.alloc())?;
    let parts = two(&rt, rt.alloc(), &graph, 2, 3)?;
    graph.join(rt.alloc(), &parts)?;
    assert_eq!(rt;
        graph_text(rt.alloc(), &graph)?.as_str(),
        " live 2; live 4; dead 4; live;"
    );
    Ok(())
}

#[test]
fn copies(rt: HostRuntime) -> Result<(), Fail> {
    let mut graph = three(&rt, rt.alloc())?;
    let parts = two(&rt, rt.alloc(), &graph, 2, 3)?;
    graph.split_copies(rt.alloc(), &parts)?;
    assert_eq!(rt;
        graph_text(rt.alloc(), &graph)?.as_str(),
        " live 2; live 4; dead 5; live; dead;"
    );
    Ok(())
}

#[test]
fn ends(rt: HostRuntime) -> Result<(), Fail> {
    let mut graph = three(&rt, rt.alloc())?;
    let at = one(&rt, rt.alloc(), &graph, 2)?;
    graph.end(&at, true)?;
    assert_eq!(rt; graph.thrown().len(), 1);
    assert_eq!(rt; graph.returned().len(), 0);
    Ok(())
}

#[test]
fn loops(rt: HostRuntime) -> Result<(), Fail> {
    let mut graph = three(&rt, rt.alloc())?;
    let from = one(&rt, rt.alloc(), &graph, 2)?;
    let to = one(&rt, rt.alloc(), &graph, 2)?;
    graph.loop_to(rt.alloc(), &from, &to)?;
    assert_eq!(rt;
        graph_text(rt.alloc(), &graph)?.as_str(),
        " live 2; live 2; dead;"
    );
    Ok(())
}

#[test]
fn side_by_side(rt: HostRuntime) -> Result<(), Fail> {
    let mut graph = three(&rt, rt.alloc())?;
    let at = pair(&rt, rt.alloc(), &graph, 2, 3)?;
    graph.label(rt.alloc(), &at, Label::Leave(7))?;
    let from = pair(&rt, rt.alloc(), &graph, 2, 3)?;
    graph.new_next(rt.alloc(), &from)?;
    assert_eq!(rt;
        graph_text(rt.alloc(), &graph)?.as_str(),
        " live 2;-7 live 4;-7 dead 5; live; dead;"
    );
    Ok(())
}

#[test]
fn joins_side_by_side(rt: HostRuntime) -> Result<(), Fail> {
    let mut graph = three(&rt, rt.alloc())?;
    graph.unreachable(rt.alloc())?;
    let parts = pairs(&rt, rt.alloc(), &graph)?;
    graph.join(rt.alloc(), &parts)?;
    assert_eq!(rt;
        graph_text(rt.alloc(), &graph)?.as_str(),
        " live 2 5; live 5; dead 6; dead 6; live; dead;"
    );
    Ok(())
}

/// `None` where the parts have a fork, or memory is missing.
fn width(made: Result<Fork, ForkFault>) -> Option<u32> {
    match made {
        Err(ForkFault::TooWide { copies }) => Some(copies),
        _ => None,
    }
}

#[test]
fn widths(rt: HostRuntime) -> Result<(), Fail> {
    let mut graph = Graph::new(rt.alloc())?;
    let parts = many(&rt, rt.alloc(), &graph, 65)?;
    let made = graph.split_copies(rt.alloc(), &parts);
    assert_eq!(rt; (width(made), graph.count()), (Some(65), 1));
    let parts = many(&rt, rt.alloc(), &graph, 64)?;
    let made = graph.split_copies(rt.alloc(), &parts);
    assert_eq!(rt; (width(made), graph.count()), (None, 65));
    Ok(())
}
