//! What a node is and stands in, as atoms ask it.
ghost use Rattle.std.specs.Prelude.{◌≡◌, ◌&&◌, ◌<◌, length};
ghost use Rattle.es_selectors.specs.Matches.{holds_of, in_group, in_meta_property, stands_in};
ghost use Rattle.es_selectors.specs.Selects.{row_sight, stands_below};
ghost use Rattle.std.specs.Prelude.{Some, codes, nat_eq, option_map};
ghost use Rattle.std.specs.Option.{option_eq};
ghost use Rattle.es_selectors.specs.KindAtoms.{kind_named};
ghost use Rattle.es_selectors.specs.Selects.{spot_of, up};

use crate::group::is_in_group;
use crate::selector::Group;
use crate::spot::{Spot, stands_in_field, up};
use es_tables::field_of;
use es_text::Txt;
use es_tree::Tree;
use es_tree::kind::{IDENTIFIER, META_PROPERTY};

/// Whether the node stands in the field with this name of its parent.
pub fn stands_in(name: &Txt, tree: &Tree, spot: Spot) -> bool
    requires { spot.node < length tree.now }
    ensures { result ≡ stands_in (row_sight tree.now) name.now spot }
{
    let Some(parent) = up(tree, spot) else {
        return false;
    };
    match field_of(tree.kind(parent), name.as_str()) {
        Some(field) => stands_in_field(tree, spot, field),
        None => false,
    }
}

/// Whether the node stands in the inner field of a node that stands in the outer one.
pub fn stands_in_both(outer: &Txt, inner: &Txt, tree: &Tree, spot: Spot) -> bool
    requires { spot.node < length tree.now }
    ensures { result ≡ (stands_in (row_sight tree.now) inner.now spot
        && holds_of (stands_in (row_sight tree.now) outer.now)
        (option_map (spot_of spot.top) (up tree.now spot))) }
{
    if !stands_in(inner, tree, spot) {
        return false;
    }
    match up(tree, spot) {
        Some(node) => stands_in(
            outer,
            tree,
            Spot {
                top: spot.top,
                node,
            },
        ),
        None => false,
    }
}

/// Whether the node is an Identifier in a MetaProperty.
fn in_meta_property(tree: &Tree, spot: Spot) -> bool
    requires { spot.node < length tree.now }
    ensures { result ≡ in_meta_property (row_sight tree.now) spot }
{
    if !is_identifier(tree.kind(spot.node)) {
        return false;
    }
    match up(tree, spot) {
        Some(parent) => is_meta_property(tree.kind(parent)),
        None => false,
    }
}

#[tactic(auto, unfolding(crate::specs::KindAtoms::kind_named))]
fn is_identifier(kind: u16) -> bool
    ensures { result ≡ option_eq nat_eq (kind_named (codes "Identifier")) (Some kind) }
{
    IDENTIFIER == kind
}

#[tactic(auto, unfolding(crate::specs::KindAtoms::kind_named))]
fn is_meta_property(kind: u16) -> bool
    ensures { result ≡ option_eq nat_eq (kind_named (codes "MetaProperty")) (Some kind) }
{
    META_PROPERTY == kind
}

/// Whether the node is of the group.
pub fn in_group(group: Group, tree: &Tree, spot: Spot) -> bool
    requires { spot.node < length tree.now }
    ensures { result ≡ in_group (row_sight tree.now) group spot }
{
    is_in_group(group, tree.kind(spot.node)) && !in_meta_property(tree, spot)
}

/// Whether the node is no sibling of that one, nor above it.
pub fn stands_below(tree: &Tree, top: u32, node: u32) -> bool
    requires { node < length tree.now }
    ensures { result ≡ stands_below tree.now top node }
{
    match tree.parent(node) {
        Some(parent) => top <= parent,
        None => false,
    }
}
