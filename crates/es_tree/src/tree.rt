ghost use Rattle.std.specs.Prelude.{Bool, true, ◌≡◌, ◌<◌, ◌≤◌, ◌↔◌, length, Some, None, IsNone};
ghost use Rattle.std.specs.Prelude.{IfSome, IfOk};
ghost use Rattle.std.specs.List.{list_all};
ghost use Rattle.es_text.specs.declared.span.Span.{Span};
ghost use Rattle.es_tree.specs.declared.shape.Shape.{out-Shape};
ghost use Rattle.es_tree.specs.Attributes.{length_in, value_in};
ghost use Rattle.es_tree.specs.Numbering.{rows_of};
ghost use Rattle.es_tree.specs.Rows.{kind_of, span_of, parent_of, child_of, field_child_of};
ghost use Rattle.es_tree.specs.Rows.{value_among, value_of, length_of, IsNumbered};
ghost use Rattle.es_tree.specs.Shapes.{height};
ghost use Rattle.es_tree.specs.Spans.{spans_pass};

use crate::attribute::Attribute;
use crate::kind::PROGRAM;
use crate::node::Node;
use crate::number::number;
use crate::part::index;
use crate::rows::Rows;
use crate::shape::SetAttribute;
use crate::sizes::Sizes;
use es_tables::{Holds, child_field};
use es_text::{NoMemory, Span};
use std::alloc::Global;
use std::marker::Model;

/// A finished tree, whose nodes have numbers from 0, the root's, in the order of the walk. Each
/// reader takes constant time.
#[derive(Drop)]
pub struct Tree {
    rows: Rows,
    nodes: u32,
}

impl Model for Tree {
    ghost use Rattle.std.specs.Prelude.{List};
    ghost use Rattle.es_tree.specs.Rows.{Row};

    ghost Value = { List Row };

    ghost use Rattle.std.specs.Prelude.{◌≡◌, length};
    ghost use Rattle.es_tree.specs.Rows.{IsNumbered};

    ghost view = { λ tree. tree.rows };

    ghost invariant = { λ tree. (tree.nodes ≡ length tree.rows) × IsNumbered tree.rows };
}

impl Tree {
    /// The tree of a program. One of 2^32 nodes or more has no numbers, and gets `NoMemory`.
    pub fn new(alloc: Global, root: Node) -> Result<Tree, NoMemory>
        requires program { (out-Shape root).kind ≡ PROGRAM }
        requires low { height root ≤ 1000 }
        ensures rows { IfOk result (λ tree. tree ≡ rows_of root) }
        ensures spans { (test : Span → Bool) → spans_pass test root ≡ true
            → IfOk result (λ tree. list_all (λ row. test row.span) tree ≡ true) }
    {
        let root = root.into_shape();
        let mut rows = Rows::with_room(alloc, Sizes::of(&root))?;
        number(alloc, root, None, &mut rows)?;
        let nodes = index(rows.len())?;
        Ok(Tree { rows, nodes })
    }

    /// How many nodes the tree has.
    pub fn count(&self) -> u32
        ensures count { result ≡ length self.now }
        ensures some { 1 ≤ result }
        ensures numbered { IsNumbered self.now }
    {
        self.nodes
    }

    /// The code of the node's kind.
    pub fn kind(&self, node: u32) -> u16
        requires { node < length self.now }
        ensures { kind_of self.now node ≡ Some result }
    {
        self.rows.kind(node)
    }

    /// The bytes of the text that the node covers.
    pub fn span(&self, node: u32) -> Span
        requires { node < length self.now }
        ensures { span_of self.now node ≡ Some result }
    {
        self.rows.span(node)
    }

    /// The number of the node's parent, or `None` for the root.
    pub fn parent(&self, node: u32) -> Option<u32>
        requires { node < length self.now }
        ensures parent { parent_of self.now node ≡ Some result }
        ensures root { IsNone result ↔ (node ≡ 0) }
        ensures before { IfSome result (λ parent. parent < node) }
    {
        self.rows.parent(node)
    }

    /// The number of the node's child at this index, from 0, in the order of the walk, in which
    /// holes are left out; `None` past the last.
    pub fn child(&self, node: u32, index: u32) -> Option<u32>
        requires { node < length self.now }
        ensures child { child_of self.now node index ≡ Some result }
        ensures after { IfSome result (λ child. node < child) }
        ensures within { IfSome result (λ child. child < length self.now) }
    {
        self.rows.children(node).get(index as usize).copied()
    }

    /// The number of the child at this index, from 0, of the field with this code, holes counted;
    /// `None` where a hole stands there, past the last child, and where the node has no such child
    /// field.
    pub fn field(&self, node: u32, field: u16, index: u32) -> Option<u32>
        requires { node < length self.now }
        ensures { field_child_of self.now node field index ≡ Some result }
    {
        *self.rows.places(node, field).get(index as usize)?
    }

    /// What the node says of the field with this code: the value of an attribute, the length of a
    /// list field, else `Absent`.
    pub fn attribute(&self, node: u32, field: u16) -> Attribute<'_>
        requires { node < length self.now }
        ensures value { value_of self.now node field ≡ Some (value_in result) }
        ensures length { length_of self.now node field ≡ Some (length_in result) }
    {
        match child_field(self.rows.kind(node), field) {
            Some(Holds::Many) => Attribute::Length(self.rows.count_places(node, field)),
            Some(Holds::One | Holds::Optional) => Attribute::Absent,
            None => attribute_among(self.rows.attributes(node), field),
        }
    }

    /// An equal tree in memory of its own.
    pub fn copy(&self, alloc: Global) -> Result<Tree, NoMemory>
        ensures { IfOk result (λ copy. copy ≡ self.now) }
    {
        Ok(Tree {
            rows: self.rows.copy(alloc)?,
            nodes: self.nodes,
        })
    }
}

/// The value of the attribute, or `Absent` where none was set.
fn attribute_among(attributes: &[SetAttribute], field: u16) -> Attribute<'_>
    ensures value { value_in result ≡ value_among attributes.now field }
    ensures length { length_in result ≡ None }
{
    match attributes.iter().find(|given| given.field == field) {
        Some(given) => given.value.as_attribute(),
        None => Attribute::Absent,
    }
}
