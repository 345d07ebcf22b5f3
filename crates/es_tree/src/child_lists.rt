//! The children of nodes by field, in flat arrays.
ghost use Rattle.std.specs.Prelude.{◌≡◌, ◌<◌, ◌++◌, [], ◌∷◌, length, option_map, take, Some};
ghost use Rattle.std.specs.Prelude.{slice_get, IfOk, OnOk, OnErr};

use crate::part::{Part, append, copy_of, index, items_in};
use crate::sizes::Sizes;
use es_text::{Items, NoMemory};
use std::alloc::Global;
use std::marker::Model;

/// Lists of children, in which `None` is a hole: all of them one after another in one array.
#[derive(Drop)]
pub struct ChildLists {
    places: Vec<Option<u32>>,
    lists: Vec<Part>,
}

impl Model for ChildLists {
    ghost use Rattle.std.specs.Prelude.{ℕ, List, Option, All, length};
    ghost use Rattle.es_tree.specs.Parts.{IsPart, parts_of};

    ghost Value = { List (List (Option ℕ)) };

    ghost view = { λ all. parts_of all.places.items all.lists.items };

    ghost invariant = { λ all. All (IsPart (length all.places.items)) all.lists.items };
}

impl ChildLists {
    /// No lists yet, with memory for arrays of these sizes.
    pub fn with_room(alloc: Global, sizes: Sizes) -> Result<ChildLists, NoMemory>
        ensures { IfOk result (λ all. all ≡ []) }
    {
        Ok(ChildLists {
            places: Vec::with_capacity(alloc, sizes.places)?,
            lists: Vec::with_capacity(alloc, sizes.fields)?,
        })
    }

    pub fn len(&self) -> usize
        ensures { result ≡ length self.now }
    {
        self.lists.len()
    }

    /// The list at this index.
    pub fn list(&self, index: usize) -> &[Option<u32>]
        requires { index < length self.now }
        ensures { slice_get self.now index ≡ Some result.now }
    {
        items_in(&self.places, self.lists[index])
    }

    /// How many children and holes stand in the list at this index.
    pub fn count_in(&self, index: usize) -> u32
        requires { index < length self.now }
        ensures { option_map length (slice_get self.now index) ≡ Some result }
    {
        let list = self.lists[index];
        list.end - list.start
    }

    /// Puts a list at the end.
    fn push(&mut self, list: Vec<Option<u32>>) -> Result<(), NoMemory>
        ensures ok { OnOk result (self.new ≡ self.old ++ list.items ∷ []) }
        ensures err { OnErr result (self.new ≡ self.old) }
    {
        let part = append(&mut self.places, list)?;
        self.lists.push(part)?;
        Ok(())
    }

    /// Puts the lists at the end, and answers which part of all they are. After `NoMemory` the first of
    /// them may stand there.
    pub fn append(&mut self, lists: Items<Items<Option<u32>>>) -> Result<Part, NoMemory>
        ensures lists { OnOk result (self.new ≡ self.old ++ lists) }
        ensures start { IfOk result (λ part. part.start ≡ length self.old) }
        ensures end { IfOk result (λ part. part.end ≡ length self.new) }
        ensures kept { take (length self.old) self.new ≡ self.old }
    {
        let start = index(self.len())?;
        for list in lists.into_vec() {
            self.push(list.into_vec())?;
        }
        let end = index(self.len())?;
        Ok(Part { start, end })
    }

    /// Equal lists in memory of their own.
    pub fn copy(&self, alloc: Global) -> Result<ChildLists, NoMemory>
        ensures { IfOk result (λ copy. copy ≡ self.now) }
    {
        let places = copy_of(alloc, &self.places)?;
        let lists = copy_of(alloc, &self.lists)?;
        Ok(ChildLists { places, lists })
    }
}
