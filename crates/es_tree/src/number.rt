//! Numbers the nodes of a tree.
ghost use Rattle.std.specs.Prelude.{◌≡◌, ◌++◌, length, IfOk, OnOk};
ghost use Rattle.es_tree.specs.Numbering.{numbered, rows_of_all, numbers_of_all, all_filled};

use crate::part::index;
use crate::rows::Rows;
use crate::shape::Shape;
use es_text::{Items, NoMemory};
use std::alloc::Global;

/// The numbers of a node's children, field by field with the holes, and all of them without.
#[derive(Drop)]
struct Numbers {
    fields: Items<Items<Option<u32>>>,
    children: Items<u32>,
}

/// Puts the rows of the node and of all below it at the end.
#[cycle(number)]
pub fn number(
    alloc: Global,
    shape: Shape,
    parent: Option<u32>,
    rows: &mut Rows,
) -> Result<(), NoMemory>
    ensures { OnOk result (rows.new ≡ rows.old ++ numbered shape parent (length rows.old)) }
{
    let node = index(rows.len())?;
    let Shape {
        kind,
        span,
        fields,
        attributes,
    } = shape;
    rows.push(kind, span, parent, attributes)?;
    let numbers = number_children(alloc, fields, node, rows)?;
    rows.set_children(node, numbers.fields, numbers.children)
}

/// Puts the rows of the children and of all below them at the end.
#[cycle(number)]
fn number_children(
    alloc: Global,
    fields: Items<Items<Option<Shape>>>,
    parent: u32,
    rows: &mut Rows,
) -> Result<Numbers, NoMemory>
    ensures fields { IfOk result
        (λ numbers. numbers.fields ≡ numbers_of_all numbered parent (length rows.old) fields) }
    ensures children { IfOk result (λ numbers. numbers.children ≡ all_filled numbers.fields) }
    ensures rows { OnOk result (rows.new ≡ rows.old ++ rows_of_all numbered parent (length rows.old) fields) }
{
    let mut numbers = Numbers {
        fields: Items::new(alloc),
        children: Items::new(alloc),
    };
    for field in fields.into_vec() {
        let mut places = Items::new(alloc);
        for child in field.into_vec() {
            match child {
                None => places.push(None)?,
                Some(shape) => {
                    let at = index(rows.len())?;
                    places.push(Some(at))?;
                    numbers.children.push(at)?;
                    number(alloc, shape, Some(parent), rows)?;
                }
            }
        }
        numbers.fields.push(places)?;
    }
    Ok(numbers)
}
