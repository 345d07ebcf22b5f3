//! Tells whether chains of compounds hold of a node.
ghost use Rattle.std.specs.Prelude.{◌≡◌, ◌≢◌, ◌<◌, false, length};
ghost use Rattle.std.specs.List.{list_any};
ghost use Rattle.es_selectors.specs.Chains.{Nested, any_in, atom_in, compound_in, is_holding, links_in};
ghost use Rattle.es_selectors.specs.Selects.{above_of, below_of, earlier_spots};
ghost use Rattle.es_selectors.specs.declared.spot.Spot.{Spot};

use crate::found::{follow, meets};
use crate::selector::{Atom, Chain, Combinator, Link};
use crate::spot::{Side, Spot, is_at, own_seat, previous_of, sibling_at, up};
use crate::standing::{in_group, stands_below, stands_in, stands_in_both};
use es_tree::Tree;

/// Whether a part of a chain holds of a node.
#[derive(Clone, Copy)]
pub enum Outcome {
    Holds,
    Fails,
    /// It fails, and does so for each node that has no other ancestors.
    Never,
}

/// Whether one of the chains holds.
#[cycle(matching)]
pub fn any_holds(chains: &[Chain<Atom>], tree: &Tree, spot: Spot) -> bool
    requires { spot.node < length tree.now }
    ensures { result ≡ any_in tree.now chains.now spot }
{
    for chain in chains {
        if let Outcome::Holds = links_at(
            chain.first.as_slice(),
            chain.links.as_slice(),
            tree,
            spot,
        ) {
            return true;
        }
    }
    false
}

/// Whether the first compound, and the links behind it, hold of the node.
#[cycle(matching)]
fn links_at(first: &[Atom], links: &[Link<Atom>], tree: &Tree, spot: Spot) -> Outcome
    requires { spot.node < length tree.now }
    ensures holds { is_holding result ≡ links_in tree.now first.now links.now spot }
    ensures never { result ≡ Outcome.Never → (other : Spot) → Nested tree.now other spot
        → links_in tree.now first.now links.now other ≡ false }
{
    let Some((last, before)) = links.split_last() else {
        return if compound_holds(first, tree, spot) {
            Outcome::Holds
        } else {
            Outcome::Fails
        };
    };
    if !compound_holds(last.compound.as_slice(), tree, spot) {
        return Outcome::Fails;
    }
    match last.combinator {
        Combinator::Descendant => above_at(first, before, tree, spot),
        Combinator::Child => match up(tree, spot) {
            Some(node) => links_at(
                first,
                before,
                tree,
                Spot {
                    top: spot.top,
                    node,
                },
            ),
            None => Outcome::Fails,
        },
        Combinator::Next => match previous_of(tree, spot) {
            Some(node) => links_at(
                first,
                before,
                tree,
                Spot {
                    top: spot.top,
                    node,
                },
            ),
            None => Outcome::Fails,
        },
        Combinator::Later => earlier_at(first, before, tree, spot),
    }
}

/// Whether they hold of a node above this one.
#[cycle(matching)]
fn above_at(first: &[Atom], links: &[Link<Atom>], tree: &Tree, spot: Spot) -> Outcome
    requires { spot.node < length tree.now }
    ensures holds { is_holding result ≡ list_any (links_in tree.now first.now links.now) (above_of tree.now spot) }
    ensures never { result ≢ Outcome.Fails }
{
    let mut at = spot;
    while let Some(node) = up(tree, at) {
        at = Spot {
            top: spot.top,
            node,
        };
        match links_at(first, links, tree, at) {
            Outcome::Holds => return Outcome::Holds,
            Outcome::Never => return Outcome::Never,
            Outcome::Fails => {}
        }
    }
    Outcome::Never
}

/// Whether they hold of a node before this one in its list field.
#[cycle(matching)]
fn earlier_at(first: &[Atom], links: &[Link<Atom>], tree: &Tree, spot: Spot) -> Outcome
    requires { spot.node < length tree.now }
    ensures holds { is_holding result ≡ list_any (links_in tree.now first.now links.now) (earlier_spots tree.now spot) }
    ensures never { result ≡ Outcome.Never → (other : Spot) → Nested tree.now other spot
        → list_any (links_in tree.now first.now links.now) (earlier_spots tree.now other) ≡ false }
{
    let Some(place) = own_seat(tree, spot) else {
        return Outcome::Fails;
    };
    let mut index = place.index;
    while index > 0 {
        index -= 1;
        if let Some(node) = sibling_at(tree, spot.top, place, index) {
            match links_at(
                first,
                links,
                tree,
                Spot {
                    top: spot.top,
                    node,
                },
            ) {
                Outcome::Holds => return Outcome::Holds,
                Outcome::Never => return Outcome::Never,
                Outcome::Fails => {}
            }
        }
    }
    Outcome::Fails
}

/// Whether each atom holds.
#[cycle(matching)]
fn compound_holds(atoms: &[Atom], tree: &Tree, spot: Spot) -> bool
    requires { spot.node < length tree.now }
    ensures { result ≡ compound_in tree.now atoms.now spot }
{
    for atom in atoms {
        if !atom_holds(atom, tree, spot) {
            return false;
        }
    }
    true
}

/// Whether the atom holds.
#[cycle(matching)]
fn atom_holds(atom: &Atom, tree: &Tree, spot: Spot) -> bool
    requires { spot.node < length tree.now }
    ensures { result ≡ atom_in tree.now atom.now spot }
{
    match atom {
        Atom::Any => true,
        Atom::Kind(kind) => *kind == Some(tree.kind(spot.node)),
        Atom::Attribute(names, condition) => {
            meets(follow(names.as_slice(), tree, spot), condition)
        }
        Atom::Field(name) => stands_in(name, tree, spot),
        Atom::FieldOf(outer, inner) => stands_in_both(outer, inner, tree, spot),
        Atom::Group(group) => in_group(*group, tree, spot),
        Atom::Not(chains) => !any_holds(chains.as_slice(), tree, spot),
        Atom::Is(chains) => any_holds(chains.as_slice(), tree, spot),
        Atom::Has(chains) => any_below(chains.as_slice(), tree, spot.node),
        Atom::NthChild(number) => is_at(tree, spot, Side::Front, *number),
        Atom::NthLastChild(number) => is_at(tree, spot, Side::Back, *number),
    }
}

/// Whether one of the chains holds of a node below, as if this one were the root.
#[cycle(matching)]
fn any_below(chains: &[Chain<Atom>], tree: &Tree, top: u32) -> bool
    requires { top < length tree.now }
    ensures { result ≡ list_any (any_in tree.now chains.now) (below_of tree.now top) }
{
    let count = tree.count();
    let mut node = top + 1;
    while node < count && stands_below(tree, top, node) {
        if any_holds(chains, tree, Spot { top, node }) {
            return true;
        }
        node += 1;
    }
    false
}
