//! The rows of a tree's nodes in flat arrays.
ghost use Rattle.std.specs.Prelude.{◌≡◌, ◌<◌, ◌++◌, [], ◌∷◌, length, option_map, Some, IfOk, OnOk};
ghost use Rattle.es_tree.specs.Rows.{kind_of, span_of, parent_of, children_of, places_of};
ghost use Rattle.es_tree.specs.Rows.{attributes_of, childless, with_children};

use crate::child_lists::ChildLists;
use crate::part::{NOTHING, Part, append, copy_of, items_in};
use crate::shape::{SetAttribute, copy_attributes};
use crate::sizes::Sizes;
use es_text::{Items, NoMemory, Span};
use std::alloc::Global;
use std::marker::Model;

/// What stands in one place of a node: its kind, span and parent, and where the rest is.
#[derive(Clone, Copy)]
struct Entry {
    kind: u16,
    span: Span,
    parent: Option<u32>,
    /// Among the lists of children, one for each child field.
    fields: Part,
    /// Among the children without the holes.
    children: Part,
    /// Among the attributes.
    attributes: Part,
}

/// The rows of nodes, which contracts see as their list.
#[derive(Drop)]
pub struct Rows {
    entries: Vec<Entry>,
    fields: ChildLists,
    children: Vec<u32>,
    attributes: Vec<SetAttribute>,
}

impl Model for Rows {
    ghost use Rattle.std.specs.Prelude.{List, All, map};
    ghost use Rattle.es_tree.specs.Rows.{Row};

    ghost Value = { List Row };

    ghost use Rattle.es_tree.specs.Entries.{Arrays, IsEntry, row_in, arrays_of};

    ghost view = { λ rows. map (row_in (arrays_of rows)) rows.entries.items };

    ghost invariant = { λ rows. All (IsEntry (arrays_of rows)) rows.entries.items };
}

impl Rows {
    /// No rows yet, with memory for arrays of these sizes.
    pub fn with_room(alloc: Global, sizes: Sizes) -> Result<Rows, NoMemory>
        ensures { IfOk result (λ rows. rows ≡ []) }
    {
        Ok(Rows {
            entries: Vec::with_capacity(alloc, sizes.nodes)?,
            fields: ChildLists::with_room(alloc, sizes)?,
            children: Vec::with_capacity(alloc, sizes.nodes)?,
            attributes: Vec::with_capacity(alloc, sizes.attributes)?,
        })
    }

    pub fn len(&self) -> usize
        ensures { result ≡ length self.now }
    {
        self.entries.len()
    }

    pub fn kind(&self, node: u32) -> u16
        requires { node < length self.now }
        ensures { kind_of self.now node ≡ Some result }
    {
        self.entries[node as usize].kind
    }

    pub fn span(&self, node: u32) -> Span
        requires { node < length self.now }
        ensures { span_of self.now node ≡ Some result }
    {
        self.entries[node as usize].span
    }

    pub fn parent(&self, node: u32) -> Option<u32>
        requires { node < length self.now }
        ensures { parent_of self.now node ≡ Some result }
    {
        self.entries[node as usize].parent
    }

    /// The children in the order of the walk, without the holes.
    pub fn children(&self, node: u32) -> &[u32]
        requires { node < length self.now }
        ensures { children_of self.now node ≡ Some result.now }
    {
        items_in(&self.children, self.entries[node as usize].children)
    }

    /// The children and holes of the field; none where the node has no such child field.
    pub fn places(&self, node: u32, field: u16) -> &[Option<u32>]
        requires { node < length self.now }
        ensures { places_of self.now node field ≡ Some result.now }
    {
        let fields = self.entries[node as usize].fields;
        if (field as u32) < fields.end - fields.start {
            self.fields.list((fields.start + field as u32) as usize)
        } else {
            &[]
        }
    }

    /// How many children and holes stand in the field.
    pub fn count_places(&self, node: u32, field: u16) -> u32
        requires { node < length self.now }
        ensures { option_map length (places_of self.now node field) ≡ Some result }
    {
        let fields = self.entries[node as usize].fields;
        if (field as u32) < fields.end - fields.start {
            self.fields.count_in((fields.start + field as u32) as usize)
        } else {
            0
        }
    }

    pub fn attributes(&self, node: u32) -> &[SetAttribute]
        requires { node < length self.now }
        ensures { attributes_of self.now node ≡ Some result.now }
    {
        items_in(&self.attributes, self.entries[node as usize].attributes)
    }

    /// Puts the row of a node at the end that has no children yet.
    pub fn push(
        &mut self,
        kind: u16,
        span: Span,
        parent: Option<u32>,
        attributes: Items<SetAttribute>,
    ) -> Result<(), NoMemory>
        ensures { OnOk result (self.new ≡ self.old ++ childless kind span parent attributes ∷ []) }
    {
        let attributes = append(&mut self.attributes, attributes.into_vec())?;
        self.entries.push(Entry {
            kind,
            span,
            parent,
            fields: NOTHING,
            children: NOTHING,
            attributes,
        })?;
        Ok(())
    }

    /// Gives the node its children, field by field with the holes, and all of them without.
    pub fn set_children(
        &mut self,
        node: u32,
        fields: Items<Items<Option<u32>>>,
        children: Items<u32>,
    ) -> Result<(), NoMemory>
        requires { node < length self.old }
        ensures { OnOk result (self.new ≡ with_children self.old node fields children) }
    {
        let fields = self.fields.append(fields)?;
        let children = append(&mut self.children, children.into_vec())?;
        let entry = &mut self.entries[node as usize];
        entry.fields = fields;
        entry.children = children;
        Ok(())
    }

    /// Equal rows in memory of their own.
    pub fn copy(&self, alloc: Global) -> Result<Rows, NoMemory>
        ensures { IfOk result (λ copy. copy ≡ self.now) }
    {
        Ok(Rows {
            entries: copy_of(alloc, &self.entries)?,
            fields: self.fields.copy(alloc)?,
            children: copy_of(alloc, &self.children)?,
            attributes: copy_attributes(alloc, &self.attributes)?,
        })
    }
}
