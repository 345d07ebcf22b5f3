//! Tells which nodes a selector matches.
ghost use Rattle.std.specs.Prelude.{ℕ, ◌≡◌, ◌<◌, ◌↔◌, List, length, Some, false, All};
ghost use Rattle.es_tree.specs.declared.shape.Shape.{Shape};
ghost use Rattle.es_tree.specs.Numbering.{rows_of};
ghost use Rattle.es_tree.specs.Rows.{Row, kind_of};
ghost use Rattle.std.specs.List.{list_all, list_any};
ghost use Rattle.es_selectors.specs.KindAtoms.{NamesOther, asks_other, last_compound, names_other};
ghost use Rattle.es_selectors.specs.Places.{Place, Step, kind_at, matches, number_at, place_at};
ghost use Rattle.es_selectors.specs.Selects.{selects};

use crate::chain::any_holds;
use crate::selector::{Atom, Chain, Spelling};
use crate::spot::Spot;
use es_tree::Tree;
use std::marker::Model;

/// A selector that was read.
#[derive(Drop)]
pub struct Selector {
    spelling: Spelling,
}

impl Model for Selector {
    ghost use Rattle.std.specs.Coded.{codes};
    ghost use Rattle.es_selectors.specs.contracts.selector.Atom as atom;
    ghost use Rattle.es_selectors.specs.declared.selector.Spelling.{Spelling};

    ghost Value = { Spelling };

    ghost coded = { Prim.hlevel (codes, atom.the_row.coded) };

    ghost view = { λ selector. selector.spelling };
}

impl Selector {
    /// The selector that says this.
    pub fn new(spelling: Spelling) -> Selector
        ensures { result ≡ spelling }
    {
        Selector { spelling }
    }

    /// What it says.
    pub fn spelling(&self) -> &Spelling
        ensures { result.now ≡ self.now }
    {
        &self.spelling
    }

    /// Whether it ends in `:exit`.
    pub fn exit(&self) -> bool
        ensures { result ≡ self.now.exit }
    {
        self.spelling.exit
    }

    /// Whether it matches this node of the tree. It takes no memory.
    pub fn matches(&self, tree: &Tree, node: u32) -> bool
        requires { node < length tree.now }
        ensures selects { result ≡ selects self.now tree.now node }
        ensures matches { (root : Shape) (path : List Step) (place : Place) →
            tree.now ≡ rows_of root → place_at root path ≡ Some place → number_at root path ≡ Some node
            → result ≡ matches self.now place }
    {
        let spot = Spot { top: 0, node };
        any_holds(self.spelling.chains.as_slice(), tree, spot)
    }

    /// Whether it may match a node of this kind: not where the last compound of each chain has a word for
    /// a kind that doesn't name this one.
    pub fn by_kind(&self, kind: u16) -> bool
        ensures other { (result ≡ false) ↔ All (NamesOther kind) self.now.chains }
        ensures rows { result ≡ false → (rows : List Row) (node : ℕ) →
            kind_of rows node ≡ Some kind → selects self.now rows node ≡ false }
        ensures places { result ≡ false → (place : Place) →
            kind_at place ≡ kind → matches self.now place ≡ false }
    {
        !all_name_other(kind, self.spelling.chains.as_slice())
    }
}

/// Whether the last compound of each chain has a word for a kind that doesn't name this one.
fn all_name_other(kind: u16, chains: &[Chain<Atom>]) -> bool
    ensures { result ≡ list_all (names_other kind) chains.now }
{
    for chain in chains {
        if !any_asks_other(kind, last_compound(chain)) {
            return false;
        }
    }
    true
}

/// The compound that the node itself is to match.
fn last_compound(chain: &Chain<Atom>) -> &[Atom]
    ensures { result.now ≡ last_compound chain.now }
{
    match chain.links.as_slice().last() {
        Some(link) => link.compound.as_slice(),
        None => chain.first.as_slice(),
    }
}

/// Whether one of the atoms is a word for a kind that doesn't name this one.
fn any_asks_other(kind: u16, atoms: &[Atom]) -> bool
    ensures { result ≡ list_any (asks_other kind) atoms.now }
{
    for atom in atoms {
        if asks_other(kind, atom) {
            return true;
        }
    }
    false
}

/// Whether the atom is a word for a kind that doesn't name this one.
fn asks_other(kind: u16, atom: &Atom) -> bool
    ensures { result ≡ asks_other kind atom.now }
{
    match atom {
        Atom::Kind(named) => *named != Some(kind),
        _ => false,
    }
}
