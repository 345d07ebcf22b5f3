//! The scopes of a tree.
ghost use Rattle.std.specs.Prelude.{◌≡◌, ◌<◌, All, length, map, slice_index};
ghost use Rattle.std.specs.Prelude.{IfOk, IfSome};
ghost use Rattle.es_scopes.specs.Analysis.{IsReferenceIn, IsVariableIn, standing};
ghost use Rattle.es_scopes.specs.Places.{scopes};
ghost use Rattle.es_scopes.specs.Uses.{references};
ghost use Rattle.es_scopes.specs.Variables.{resolves, seen, variables};

use crate::declarations::declared;
use crate::places::place_all;
use crate::resolved::{references, resolve};
use crate::scope::Scope;
use crate::uses::Reference;
use crate::variable::Variable;
use crate::variables::{Variables, gather_all};
use es_text::NoMemory;
use es_tree::Tree;
use std::alloc::Global;
use std::marker::Model;

/// The scopes of a tree, its variables and its references. Scopes have numbers from 0, the
/// Program's, in the order of their nodes, and of one node's the outer comes first.
#[derive(Drop)]
pub struct Scopes {
    scopes: Vec<Scope>,
    stands: Vec<Option<u32>>,
    variables: Variables,
    references: Vec<Reference>,
}

impl Model for Scopes {
    ghost use Rattle.std.specs.Prelude.{map};
    ghost use Rattle.es_scopes.specs.Analysis.{Analysis, or_first};
    ghost use Rattle.es_scopes.specs.Variables.{seen};

    ghost Value = { Analysis };

    ghost view = { λ s. record {
      standing = map or_first s.stands.items;
      scopes = s.scopes.items;
      variables = map seen s.variables.items.items;
      references = s.references.items;
    } };

    ghost use Rattle.es_scopes.specs.Chains.{AreNested};
    ghost use Rattle.es_scopes.specs.Gathering.{AreTables};

    ghost invariant = { λ s. AreNested s.scopes.items
        × AreTables (map seen s.variables.items.items) s.variables.tables.items };
}

impl Scopes {
    /// The number of the innermost scope that holds the node, for the Program its own.
    pub fn scope_of(&self, node: u32) -> u32
        requires { node < length self.now.standing }
        ensures { result ≡ slice_index self.now.standing node }
    {
        self.stands[node as usize].unwrap_or(0)
    }

    /// The variables, in the order of their scopes, and in a scope in the order of their first
    /// declarations, `arguments` before all.
    pub fn variables(&self) -> &[Variable]
        ensures { map seen result.now ≡ self.now.variables }
    {
        self.variables.items.as_slice()
    }

    /// The references, in the order of their nodes.
    pub fn references(&self) -> &[Reference]
        ensures { result.now ≡ self.now.references }
    {
        self.references.as_slice()
    }

    /// The index of the variable of this name of the innermost scope, from this one outwards, that
    /// has it, or `None` where none has. Takes a step for each scope around.
    pub fn resolve(&self, scope: u32, name: &str) -> Option<u32>
        ensures variable { result ≡ resolves self.now.scopes self.now.variables scope name.now }
        ensures within { IfSome result (λ variable. variable < length self.now.variables) }
    {
        resolve(&self.scopes, &self.variables.tables, scope, name)
    }
}

/// The scopes of a tree. Takes time linear in the tree, but for what looks outwards: each `var` out
/// to its function, each reference out to its variable, and each name in a pattern out of the
/// pattern. `NoMemory` is the answer also where there are 2^32 scopes or variables.
pub fn analyse(alloc: Global, tree: &Tree) -> Result<Scopes, NoMemory>
    ensures standing { IfOk result (λ found. found.standing ≡ standing tree.now) }
    ensures scopes { IfOk result (λ found. found.scopes ≡ scopes tree.now) }
    ensures variables { IfOk result (λ found. found.variables ≡ variables tree.now) }
    ensures references { IfOk result (λ found. found.references ≡ references tree.now) }
    ensures count { IfOk result (λ found. length found.standing ≡ length tree.now) }
    ensures variables_inside { IfOk result
        (λ found. All (IsVariableIn (length found.scopes) (length tree.now)) found.variables) }
    ensures references_inside { IfOk result
        (λ found. All (IsReferenceIn (length found.variables) (length tree.now)) found.references) }
{
    let places = place_all(alloc, tree)?;
    let declared = declared(alloc, tree, &places)?;
    let variables = gather_all(alloc, tree, &declared)?;
    let references = references(alloc, tree, &places, &variables)?;
    Ok(Scopes {
        scopes: places.scopes,
        stands: places.stands,
        variables,
        references,
    })
}
