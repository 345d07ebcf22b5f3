//! Where a node stands in a tree, by the numbers of its nodes.
ghost use Rattle.std.specs.Prelude.{◌≡◌, ◌<◌, IfSome, Some, find, length};
ghost use Rattle.std.specs.List.{range_with_len};
ghost use Rattle.es_tables.specs.Nodes.{child_fields};
ghost use Rattle.es_selectors.specs.Selects.{child_at, count_in, fields_in, index_from, index_in, is_at};
ghost use Rattle.es_selectors.specs.Selects.{is_at_in, is_child_at, previous_of, seat, seat_among};
ghost use Rattle.es_selectors.specs.Selects.{sibling_at, stands_in_field, up};

use es_tables::count_child_fields;
use es_tree::{Attribute, Tree};

/// A node, and the node that counts as the root, above which nothing is seen.
#[derive(Clone, Copy)]
pub struct Spot {
    pub top: u32,
    pub node: u32,
}

/// From where a number counts.
#[derive(Clone, Copy)]
pub enum Side {
    Front,
    Back,
}

/// Where a node stands in a list field of its parent: the field's code, and the index from 0.
#[derive(Clone, Copy)]
pub struct Seat {
    pub parent: u32,
    pub field: u16,
    pub index: u32,
}

/// The parent's number, of which the root has none.
pub fn up(tree: &Tree, spot: Spot) -> Option<u32>
    requires { spot.node < length tree.now }
    ensures value { result ≡ up tree.now spot }
    ensures before { IfSome result (λ parent. parent < spot.node) }
{
    if spot.node == spot.top {
        None
    } else {
        tree.parent(spot.node)
    }
}

/// The child at this index of the field.
pub fn child_at(tree: &Tree, node: u32, field: u16, index: u32) -> Option<u32>
    requires { node < length tree.now }
    ensures value { result ≡ child_at tree.now node field index }
    ensures within { IfSome result (λ child. child < length tree.now) }
{
    let child = tree.field(node, field, index)?;
    if child < tree.count() {
        Some(child)
    } else {
        None
    }
}

/// How many children and holes stand in the field, if it is a list.
pub fn count_in(tree: &Tree, node: u32, field: u16) -> Option<u32>
    requires { node < length tree.now }
    ensures { result ≡ count_in tree.now node field }
{
    match tree.attribute(node, field) {
        Attribute::Length(count) => Some(count),
        Attribute::Absent | Attribute::Flag(_) | Attribute::Words(_) => None,
    }
}

/// How many child fields nodes of the kind have.
fn count_fields(kind: u16) -> u16
    ensures { result ≡ length (child_fields kind) }
{
    count_child_fields(kind) as u16
}

/// Whether the child at this index of the field is this one.
fn is_child_at(tree: &Tree, child: u32, parent: u32, field: u16, index: u32) -> bool
    requires { parent < length tree.now }
    ensures { result ≡ is_child_at tree.now child parent field index }
{
    child_at(tree, parent, field, index) == Some(child)
}

/// The first index, of so many, at which the field has the child.
#[tactic(auto, using(crate::proofs::RangeLemmas::range_next, crate::proofs::RangeLemmas::range_over))]
fn find_index(tree: &Tree, child: u32, parent: u32, field: u16, count: u32) -> Option<u32>
    requires { parent < length tree.now }
    ensures { result ≡ find (is_child_at tree.now child parent field) (range_with_len 0 count) }
{
    for index in 0..count {
        if is_child_at(tree, child, parent, field, index) {
            return Some(index);
        }
    }
    None
}

/// Whether the node stands in its parent's field with this code.
pub fn stands_in_field(tree: &Tree, spot: Spot, field: u16) -> bool
    requires { spot.node < length tree.now }
    ensures { result ≡ stands_in_field tree.now spot field }
{
    let Some(parent) = up(tree, spot) else {
        return false;
    };
    let count = count_in(tree, parent, field).unwrap_or(1);
    find_index(tree, spot.node, parent, field, count).is_some()
}

/// Whether the field is a list that has the child at the index that the number gives.
fn is_at_in(tree: &Tree, child: u32, parent: u32, field: u16, side: Side, number: u32) -> bool
    requires { parent < length tree.now }
    ensures { result ≡ is_at_in (index_from side number) tree.now child parent field }
{
    let Some(count) = count_in(tree, parent, field) else {
        return false;
    };
    match index_from(side, number, count) {
        Some(index) => is_child_at(tree, child, parent, field, index),
        None => false,
    }
}

/// Whether the node is the one of this number, from 1, in its list field, counted from this side.
#[tactic(auto, using(crate::proofs::RangeLemmas::range_next, crate::proofs::RangeLemmas::range_over))]
pub fn is_at(tree: &Tree, spot: Spot, side: Side, number: u32) -> bool
    requires { spot.node < length tree.now }
    ensures { result ≡ is_at (index_from side number) tree.now spot }
{
    let Some(parent) = up(tree, spot) else {
        return false;
    };
    for field in 0..count_fields(tree.kind(parent)) {
        if is_at_in(tree, spot.node, parent, field, side, number) {
            return true;
        }
    }
    false
}

/// The index, from 0, that a number from 1 gives among so many places, counted from this side.
fn index_from(side: Side, number: u32, count: u32) -> Option<u32>
    ensures { result ≡ index_from side number count }
{
    if number == 0 || count < number {
        return None;
    }
    match side {
        Side::Front => Some(number - 1),
        Side::Back => Some(count - number),
    }
}

/// The index of the child in the field, if it is a list that has it.
fn index_in(tree: &Tree, child: u32, parent: u32, field: u16) -> Option<u32>
    requires { parent < length tree.now }
    ensures { result ≡ index_in tree.now child parent field }
{
    let count = count_in(tree, parent, field)?;
    find_index(tree, child, parent, field, count)
}

/// Where the child stands in a list field of the parent.
#[tactic(auto, using(crate::proofs::RangeLemmas::range_next, crate::proofs::RangeLemmas::range_over))]
fn seat_in(tree: &Tree, child: u32, parent: u32) -> Option<Seat>
    requires { parent < length tree.now }
    ensures value { result ≡ seat_among tree.now child parent (fields_in tree.now parent) }
    ensures parent { IfSome result (λ place. place.parent ≡ parent) }
{
    for field in 0..count_fields(tree.kind(parent)) {
        if let Some(index) = index_in(tree, child, parent, field) {
            return Some(Seat {
                parent,
                field,
                index,
            });
        }
    }
    None
}

/// Where the node stands in a list field of its parent.
pub fn own_seat(tree: &Tree, spot: Spot) -> Option<Seat>
    requires { spot.node < length tree.now }
    ensures value { result ≡ seat tree.now spot }
    ensures within { IfSome result (λ place. place.parent < length tree.now) }
{
    let parent = up(tree, spot)?;
    seat_in(tree, spot.node, parent)
}

/// The sibling at this index of the field in which a node stands.
pub fn sibling_at(tree: &Tree, top: u32, place: Seat, index: u32) -> Option<u32>
    requires { place.parent < length tree.now }
    ensures value { result ≡ sibling_at tree.now top place index }
    ensures within { IfSome result (λ child. child < length tree.now) }
{
    let node = child_at(tree, place.parent, place.field, index)?;
    if up(tree, Spot { top, node }) == Some(place.parent) {
        Some(node)
    } else {
        None
    }
}

/// The sibling that stands directly before the node, with no hole between.
pub fn previous_of(tree: &Tree, spot: Spot) -> Option<u32>
    requires { spot.node < length tree.now }
    ensures value { result ≡ previous_of tree.now spot }
    ensures within { IfSome result (λ child. child < length tree.now) }
{
    let place = own_seat(tree, spot)?;
    if place.index == 0 {
        return None;
    }
    sibling_at(tree, spot.top, place, place.index - 1)
}
