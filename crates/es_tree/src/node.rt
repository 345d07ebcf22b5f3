ghost use Rattle.std.specs.Prelude.{Bool, ◌&&◌, ◌==◌, ℕ, ◌≡◌, ◌+◌, ◌≤◌, max, [], length, position};
ghost use Rattle.std.specs.Prelude.{replicate, IsSome, IfSome, IfOk, OnOk, OnErr};
ghost use Rattle.es_tree.specs.declared.shape.Shape.{out-Shape};
ghost use Rattle.es_tables.specs.Nodes.{IsKind, HasAttribute, HasField, child_fields};
ghost use Rattle.es_tree.specs.Attributes.{attributes_with, value_in};
ghost use Rattle.es_tree.specs.Spans.{child_passes, spans_pass};
ghost use Rattle.es_text.specs.declared.span.Span.{Span};
ghost use Rattle.es_tree.specs.Shapes.{bare, height, height_of, with_attribute, with_child};
ghost use Rattle.es_tree.specs.Shapes.{HasNone, HasPlace};

use crate::attribute::Attribute;
use crate::shape::{AttributeValue, SetAttribute, Shape};
use es_tables::count_child_fields;
use es_text::{Items, NoMemory, Span, push_at};
use std::alloc::Global;
use std::marker::Model;
use std::mem;

/// This many lists of no children.
fn no_children(alloc: Global, count: usize) -> Result<Items<Items<Option<Shape>>>, NoMemory>
    ensures { IfOk result (λ fields. fields ≡ replicate count []) }
{
    let mut fields = Vec::with_capacity(alloc, count)?;
    for _ in 0..count {
        fields.push(Items::new(alloc))?;
    }
    Ok(Items::from_vec(fields))
}

/// A node that is being made, with all below it. Its height is kept and never recomputed.
#[derive(Drop)]
pub struct Node {
    shape: Shape,
    levels: u32,
}

impl Model for Node {
    ghost use Rattle.std.specs.Coded.{codes};
    ghost use Rattle.es_tree.specs.declared.shape.Shape.{Shape};
    ghost use Rattle.es_tree.specs.contracts.shape.Shape as e;

    ghost Value = { Shape };

    ghost coded = { Prim.hlevel (codes, e.the_row.coded) };

    ghost use Rattle.es_tree.specs.Levels.{HasLevels};

    ghost view = { λ node. node.shape };

    ghost invariant = { λ node. HasLevels node.shape node.levels };
}

impl Node {
    /// A node of this kind, the bytes of whose text are `span`, without children and attributes.
    pub fn new(alloc: Global, kind: u16, span: Span) -> Result<Node, NoMemory>
        requires { IsKind kind }
        ensures node { IfOk result (λ node. node ≡ bare kind span) }
        ensures kind { IfOk result (λ node. (out-Shape node).kind ≡ kind) }
        ensures empty { IfOk result (λ node. (field : ℕ) → HasField kind field → HasNone node field) }
        ensures height { IfOk result (λ node. height node ≡ 1) }
        ensures spans { (test : Span → Bool) → IfOk result (λ node. spans_pass test node ≡ test span) }
    {
        Node::bare(alloc, kind, span)
    }

    /// The same as `new` for any code: one that is no kind's has no child fields.
    pub fn bare(alloc: Global, kind: u16, span: Span) -> Result<Node, NoMemory>
        ensures node { IfOk result (λ node. node ≡ bare kind span) }
        ensures empty { IfOk result (λ node. (field : ℕ) → HasField kind field → HasNone node field) }
        ensures height { IfOk result (λ node. height node ≡ 1) }
        ensures spans { (test : Span → Bool) → IfOk result (λ node. spans_pass test node ≡ test span) }
    {
        let shape = Shape {
            kind,
            span,
            fields: no_children(alloc, count_child_fields(kind))?,
            attributes: Items::new(alloc),
        };
        Ok(Node { shape, levels: 1 })
    }

    /// How many nodes stand one below the other at most, from this node down: 1 for a node without
    /// children.
    pub fn height(&self) -> u32
        ensures height { result ≡ height self.now }
        ensures bounded { height self.now ≤ 1001 }
    {
        self.levels
    }

    /// The node as plain data.
    pub(crate) fn into_shape(self) -> Shape
        ensures { result ≡ self }
    {
        let Node { shape, levels: _ } = self;
        shape
    }

    /// The node as plain data, to be read.
    pub fn as_shape(&self) -> &Shape
        ensures { result.now ≡ self.now }
    {
        &self.shape
    }

    /// Puts the child, or for `None` a hole, at the end of the field. The field is its index, from 0,
    /// among the child fields of the kind. After `NoMemory` the child is given up, and the node is as
    /// before.
    pub fn add(&mut self, field: u16, child: Option<Node>) -> Result<(), NoMemory>
        requires field { HasField (out-Shape self.old).kind field }
        requires place { HasPlace self.old field child }
        requires low { height_of child ≤ 1000 }
        ensures ok { OnOk result (self.new ≡ with_child self.old field child) }
        ensures kind { OnOk result ((out-Shape self.new).kind ≡ (out-Shape self.old).kind) }
        ensures height { OnOk result (height self.new ≡ max (height self.old) (height_of child + 1)) }
        ensures spans { (test : Span → Bool) → OnOk result
            (spans_pass test self.new ≡ spans_pass test self.old && child_passes test child) }
        ensures err { OnErr result (self.new ≡ self.old) }
    {
        self.put(field, child)
    }

    /// The same as `add` for any field: one that is no child field of the kind takes nothing.
    pub fn put(&mut self, field: u16, child: Option<Node>) -> Result<(), NoMemory>
        requires low { height_of child ≤ 1000 }
        ensures ok { OnOk result (self.new ≡ with_child self.old field child) }
        ensures height { HasField (out-Shape self.old).kind field →
            OnOk result (height self.new ≡ max (height self.old) (height_of child + 1)) }
        ensures spans { HasField (out-Shape self.old).kind field → (test : Span → Bool) → OnOk result
            (spans_pass test self.new ≡ spans_pass test self.old && child_passes test child) }
        ensures err { OnErr result (self.new ≡ self.old) }
    {
        if field as usize >= self.shape.fields.len() {
            return Ok(());
        }
        let (shape, levels) = with_levels(child);
        push_at(&mut self.shape.fields, field as usize, shape)?;
        self.levels = self.levels.max(levels + 1);
        Ok(())
    }

    /// Gives the attribute this value, in place of any earlier one. The field is the attribute's code:
    /// its index, from 0, among the fields of the kind, child fields first. After `NoMemory` the node
    /// is as before.
    pub fn set(&mut self, alloc: Global, field: u16, value: Attribute) -> Result<(), NoMemory>
        requires attribute { HasAttribute (out-Shape self.old).kind field }
        requires value { IsSome (value_in value) }
        ensures ok { IfSome (value_in value.entry)
            (λ given. OnOk result (self.new ≡ with_attribute self.old field given)) }
        ensures kind { (out-Shape self.new).kind ≡ (out-Shape self.old).kind }
        ensures height { height self.new ≡ height self.old }
        ensures spans { (test : Span → Bool) → spans_pass test self.new ≡ spans_pass test self.old }
        ensures err { OnErr result (self.new ≡ self.old) }
    {
        let value = AttributeValue::of(alloc, value)?;
        self.give(alloc, field, value)
    }

    /// The same as `set` for any field, with a value that has its own memory.
    pub fn give(&mut self, alloc: Global, field: u16, value: AttributeValue) -> Result<(), NoMemory>
        ensures ok { OnOk result (self.new ≡ with_attribute self.old field value) }
        ensures err { OnErr result (self.new ≡ self.old) }
    {
        let attributes = &mut self.shape.attributes;
        let mut all = mem::replace(attributes, Items::new(alloc)).into_vec();
        let done = give(&mut all, SetAttribute { field, value });
        *attributes = Items::from_vec(all);
        done
    }
}

/// The child as plain data, with its height, or 0 for a hole.
fn with_levels(child: Option<Node>) -> (Option<Shape>, u32)
    ensures shape { result.0 ≡ child }
    ensures levels { result.1 ≡ height_of child }
{
    match child {
        None => (None, 0),
        Some(Node { shape, levels }) => (Some(shape), levels),
    }
}

/// Puts the attribute in place of the one of its field, or at the end where none has the field.
fn give(attributes: &mut Vec<SetAttribute>, new: SetAttribute) -> Result<(), NoMemory>
    ensures ok { OnOk result
        (attributes.new.items ≡ attributes_with attributes.old.items new.field new.value) }
    ensures err { OnErr result (attributes.new.items ≡ attributes.old.items) }
{
    match index_of(attributes, new.field) {
        Some(index) => attributes[index] = new,
        None => {
            attributes.try_reserve_exact(1)?;
            attributes.push(new)?;
        }
    }
    Ok(())
}

/// The index of the attribute with this field.
fn index_of(attributes: &[SetAttribute], field: u16) -> Option<usize>
    ensures { result ≡ position (λ given. given.field == field) attributes.now }
{
    attributes.iter().position(|given| given.field == field)
}
