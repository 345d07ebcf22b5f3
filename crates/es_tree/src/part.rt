//! Lists that stand one after another in one array.
ghost use Rattle.std.specs.Prelude.{◌≡◌, ◌≤◌, ◌^◌, ◌++◌, length, IfOk, OnOk, OnErr};
ghost use Rattle.es_tree.specs.Parts.{IsPart, part_of};

use es_text::NoMemory;
use std::alloc::Global;

/// A part of an array, from the index `start` up to the index `end`.
#[derive(Clone, Copy)]
pub struct Part {
    pub start: u32,
    pub end: u32,
}

/// The empty part.
pub const NOTHING: Part = Part { start: 0, end: 0 };

/// The items of the part.
pub fn items_in<T>(items: &[T], part: Part) -> &[T]
    requires { IsPart (length items.now) part }
    ensures { result.now ≡ part_of items.now part }
{
    &items[part.start as usize..part.end as usize]
}

/// Puts the items at the end of the array, and answers which part of it they are. An array of 2^32 items
/// has no parts past them, and `NoMemory` is the answer.
pub fn append<T: Drop>(items: &mut Vec<T>, mut more: Vec<T>) -> Result<Part, NoMemory>
    ensures items { OnOk result (items.new.items ≡ items.old.items ++ more.items) }
    ensures start { IfOk result (λ part. part.start ≡ length items.old.items) }
    ensures end { IfOk result (λ part. part.end ≡ length items.new.items) }
    ensures err { OnErr result (items.new.items ≡ items.old.items) }
{
    let start = index(items.len())?;
    let end = index(items.len() + more.len())?;
    items.append(&mut more)?;
    Ok(Part { start, end })
}

/// The index as it is kept, of which there are 2^32.
pub fn index(index: usize) -> Result<u32, NoMemory>
    ensures ok { IfOk result (λ kept. kept ≡ index) }
    ensures err { OnErr result (2 ^ 32 ≤ index) }
{
    u32::try_from(index).map_err(|_too_many| NoMemory)
}

/// Equal items in memory of their own.
pub fn copy_of<T: Copy>(alloc: Global, items: &[T]) -> Result<Vec<T>, NoMemory>
    ensures { IfOk result (λ copy. copy.items ≡ items.now) }
{
    let mut copy = Vec::with_capacity(alloc, items.len())?;
    copy.extend_from_slice(items)?;
    Ok(copy)
}
