//! How much the flat arrays of a tree's rows hold.

use crate::shape::Shape;

/// How many items the arrays hold. Memory for so many is asked for at once, so that none is copied while
/// the arrays grow.
#[derive(Clone, Copy)]
pub struct Sizes {
    pub nodes: usize,
    /// The child fields of all nodes.
    pub fields: usize,
    /// The children and the holes.
    pub places: usize,
    pub attributes: usize,
}

impl Sizes {
    /// What the rows of the node and of all below it take.
    pub fn of(shape: &Shape) -> Sizes {
        let mut sizes = Sizes {
            nodes: 0,
            fields: 0,
            places: 0,
            attributes: 0,
        };
        add(shape, &mut sizes);
        sizes
    }
}

/// Adds what the rows of the node and of all below it take.
fn add(shape: &Shape, sizes: &mut Sizes) {
    sizes.nodes = sizes.nodes.saturating_add(1);
    sizes.fields = sizes.fields.saturating_add(shape.fields.len());
    sizes.attributes = sizes.attributes.saturating_add(shape.attributes.len());
    for field in shape.fields.as_slice() {
        sizes.places = sizes.places.saturating_add(field.len());
        for child in field.as_slice() {
            if let Some(child) = child {
                add(child, sizes);
            }
        }
    }
}
