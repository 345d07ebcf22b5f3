//! Heads that wait for what follows them.
ghost use Rattle.std.specs.Prelude.{◌≡◌, ◌++◌, [], ◌∷◌, IfOk, OnOk};
ghost use Rattle.es_skeleton.specs.Pendings.{heads, others, recoded, becomes};
ghost use Rattle.es_skeleton.specs.declared.completion.Completion.TheVariants.{Normal};

use crate::completion::Completion;
use es_fork::SegmentId;
use es_text::NoMemory;
use std::alloc::Global;

/// A segment at whose end the code goes on with the completion.
#[derive(Clone, Copy)]
pub struct Pending {
    pub completion: Completion,
    pub head: SegmentId,
}

/// The heads that wait with the completion.
pub fn heads_of(
    alloc: Global,
    all: &[Pending],
    completion: Completion,
) -> Result<Vec<SegmentId>, NoMemory>
    ensures { IfOk result (λ list. list.items ≡ heads completion all.now) }
{
    let mut list = Vec::new(alloc);
    for pending in all {
        if pending.completion.is(completion) {
            list.push(pending.head)?;
        }
    }
    Ok(list)
}

/// Those that wait with another completion.
pub fn others_of(
    alloc: Global,
    all: &[Pending],
    completion: Completion,
) -> Result<Vec<Pending>, NoMemory>
    ensures { IfOk result (λ list. list.items ≡ others completion all.now) }
{
    let mut list = Vec::new(alloc);
    for pending in all {
        if !pending.completion.is(completion) {
            list.push(*pending)?;
        }
    }
    Ok(list)
}

fn become_of(pending: Pending, from: Completion, to: Completion) -> Pending
    ensures { result ≡ becomes from to pending }
{
    let completion = if pending.completion.is(from) {
        to
    } else {
        pending.completion
    };
    Pending {
        completion,
        head: pending.head,
    }
}

/// Puts all behind the list; those with the one completion wait with the other.
pub fn put_recoded(
    list: &mut Vec<Pending>,
    all: &[Pending],
    from: Completion,
    to: Completion,
) -> Result<(), NoMemory>
    ensures { OnOk result (list.new.items ≡ list.old.items ++ recoded from to all.now) }
{
    for pending in all {
        list.push(become_of(*pending, from, to))?;
    }
    Ok(())
}

/// All; those with the one completion wait with the other.
pub fn recoded_of(
    alloc: Global,
    all: &[Pending],
    from: Completion,
    to: Completion,
) -> Result<Vec<Pending>, NoMemory>
    ensures { IfOk result (λ list. list.items ≡ recoded from to all.now) }
{
    let mut list = Vec::new(alloc);
    put_recoded(&mut list, all, from, to)?;
    Ok(list)
}

/// One head, which waits with the completion.
pub fn one(alloc: Global, completion: Completion, head: SegmentId) -> Result<Vec<Pending>, NoMemory>
    ensures { IfOk result
        (λ list. list.items ≡ (record { completion = completion; head = head }) ∷ []) }
{
    let mut list = Vec::new(alloc);
    list.push(Pending { completion, head })?;
    Ok(list)
}

pub fn put_all(list: &mut Vec<Pending>, all: &[Pending]) -> Result<(), NoMemory>
    ensures { OnOk result (list.new.items ≡ list.old.items ++ all.now) }
{
    list.extend_from_slice(all)?;
    Ok(())
}
