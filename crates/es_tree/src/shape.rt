ghost use Rattle.std.specs.Prelude.{◌≡◌, Some, None, IsSome, IfOk};
ghost use Rattle.es_tree.specs.Attributes.{length_in, value_in};

use crate::attribute::Attribute;
use es_text::{Items, NoMemory, Span, Txt};
use std::alloc::Global;

/// What an attribute of a node says.
#[derive(Drop)]
pub enum AttributeValue {
    Flag(bool),
    Words(Txt),
}

/// One attribute of a node: the code of its field and the value.
#[derive(Drop)]
pub struct SetAttribute {
    pub field: u16,
    pub value: AttributeValue,
}

impl AttributeValue {
    /// The value, of which the attribute gets a copy.
    pub fn of(alloc: Global, value: Attribute) -> Result<AttributeValue, NoMemory>
        requires { IsSome (value_in value) }
        ensures { IfOk result (λ kept. value_in value.entry ≡ Some kept) }
    {
        match value {
            Attribute::Flag(flag) => Ok(AttributeValue::Flag(flag)),
            Attribute::Words(words) => Ok(AttributeValue::Words(Txt::new(alloc, words)?)),
            Attribute::Absent | Attribute::Length(_) => unreachable!(),
        }
    }

    pub fn as_attribute(&self) -> Attribute<'_>
        ensures value { value_in result ≡ Some self.now }
        ensures length { length_in result ≡ None }
    {
        match self {
            AttributeValue::Flag(flag) => Attribute::Flag(*flag),
            AttributeValue::Words(words) => Attribute::Words(words.as_str()),
        }
    }

    /// An equal value in memory of its own.
    fn copy(&self, alloc: Global) -> Result<AttributeValue, NoMemory>
        ensures { IfOk result (λ copy. copy ≡ self.now) }
    {
        match self {
            AttributeValue::Flag(flag) => Ok(AttributeValue::Flag(*flag)),
            AttributeValue::Words(words) => Ok(AttributeValue::Words(words.copy(alloc)?)),
        }
    }
}

/// Equal attributes in memory of their own.
pub fn copy_attributes(
    alloc: Global,
    attributes: &[SetAttribute],
) -> Result<Vec<SetAttribute>, NoMemory>
    ensures { IfOk result (λ copy. copy.items ≡ attributes.now) }
{
    let mut copy = Vec::with_capacity(alloc, attributes.len())?;
    for given in attributes {
        let value = given.value.copy(alloc)?;
        copy.push(SetAttribute {
            field: given.field,
            value,
        })?;
    }
    Ok(copy)
}

/// A node with all below it, as plain data: what contracts see of a `Node`. Each child field of its
/// kind has a list of children, in which `None` is a hole.
#[derive(Drop)]
pub struct Shape {
    pub kind: u16,
    pub span: Span,
    pub fields: Items<Items<Option<Shape>>>,
    pub attributes: Items<SetAttribute>,
}
