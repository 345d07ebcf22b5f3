//! The variables of scopes.
ghost use Rattle.std.specs.Prelude.{List, ℕ, ◌≡◌, ◌<◌, ◌++◌, [], ◌∷◌, length, map};
ghost use Rattle.std.specs.Prelude.{Some, IfOk, OnOk};
ghost use Rattle.std.specs.HashMap.{get_by_text};
ghost use Rattle.std.specs.Map.{update};
ghost use Rattle.std.specs.Str.{bytes_eq};
ghost use Rattle.es_scopes.specs.Declarations.{by_scope, declarations, name_declared, some_list};
ghost use Rattle.es_scopes.specs.Gathering.{AreTables, IsFresh, IsTable, finds, joined};
ghost use Rattle.es_scopes.specs.Gathering.{with_nodes_at};
ghost use Rattle.es_scopes.specs.Places.{scopes};
ghost use Rattle.es_scopes.specs.Variables.{found_in, gathered, seen, variable, variables};
ghost use Rattle.es_scopes.specs.Variables.{variables_below};

use crate::declarations::{Declaration, name_declared};
use crate::number::number;
use crate::variable::Variable;
use es_text::{Items, NoMemory, Txt};
use es_tree::Tree;
use std::alloc::Global;
use std::collections::HashMap;

/// The variables of a tree, and for each scope the indices of its variables by their names.
#[derive(Drop)]
pub struct Variables {
    pub items: Vec<Variable>,
    pub tables: Vec<HashMap<String, u32>>,
}

/// A list of the node, if there is one.
fn some_list(alloc: Global, node: Option<u32>) -> Result<Items<u32>, NoMemory>
    ensures { IfOk result (λ nodes. nodes ≡ some_list node) }
{
    let mut nodes = Items::new(alloc);
    if let Some(node) = node {
        nodes.push(node)?;
    }
    Ok(nodes)
}

/// Notes a further declaration of the variable at this index.
fn note(variables: &mut Vec<Variable>, index: u32, node: Option<u32>) -> Result<(), NoMemory>
    requires { index < length variables.old.items }
    ensures { OnOk result (map seen variables.new.items
        ≡ with_nodes_at (map seen variables.old.items) index (some_list node)) }
{
    let Some(node) = node else {
        return Ok(());
    };
    let variable = &mut variables[index as usize];
    variable.nodes.push(node)?;
    Ok(())
}

/// Makes the variable of a scope that a first declaration makes.
fn make(
    alloc: Global,
    tree: &Tree,
    scope: u32,
    declaration: Declaration,
    variables: &mut Vec<Variable>,
    table: &mut HashMap<String, u32>,
) -> Result<(), NoMemory>
    ensures variables { OnOk result (map seen variables.new.items ≡ map seen variables.old.items
        ++ variable tree.now scope declaration (declaration ∷ []) ∷ []) }
    ensures table { OnOk result ((name : List ℕ) → get_by_text table.new name
        ≡ update bytes_eq (get_by_text table.old) (name_declared tree.now declaration.node)
        (Some (length variables.old.items)) name) }
{
    let index = number(variables.len())?;
    let text = name_declared(tree, declaration.node);
    let name = Txt::new(alloc, text)?;
    let nodes = some_list(alloc, declaration.node)?;
    table.insert(String::from_str(alloc, text)?, index)?;
    variables.push(Variable {
        name,
        scope,
        kind: declaration.kind,
        nodes,
    })?;
    Ok(())
}

/// Declares a name in a scope, whose variables the table has.
fn declare(
    alloc: Global,
    tree: &Tree,
    scope: u32,
    declaration: Declaration,
    variables: &mut Vec<Variable>,
    table: &mut HashMap<String, u32>,
) -> Result<(), NoMemory>
    requires { IsTable scope (map seen variables.old.items) table.old }
    ensures variables { OnOk result (map seen variables.new.items
        ≡ joined tree.now scope (map seen variables.old.items) declaration) }
    ensures table { OnOk result (IsTable scope (map seen variables.new.items) table.new) }
{
    match table.get(name_declared(tree, declaration.node)).copied() {
        Some(index) => note(variables, index, declaration.node),
        None => make(alloc, tree, scope, declaration, variables, table),
    }
}

/// Makes the variables of a scope, and answers their indices by their names.
fn gather(
    alloc: Global,
    tree: &Tree,
    scope: u32,
    declarations: &[Declaration],
    variables: &mut Vec<Variable>,
) -> Result<HashMap<String, u32>, NoMemory>
    requires { IsFresh scope (map seen variables.old.items) }
    ensures variables { OnOk result (map seen variables.new.items
        ≡ map seen variables.old.items ++ gathered tree.now scope declarations.now) }
    ensures table { IfOk result (IsTable scope (map seen variables.new.items)) }
{
    let mut table = HashMap::new(alloc);
    for declaration in declarations {
        declare(alloc, tree, scope, *declaration, variables, &mut table)?;
    }
    Ok(table)
}

/// The variables of the scopes in which this is declared.
pub fn gather_all(
    alloc: Global,
    tree: &Tree,
    declared: &Items<Items<Declaration>>,
) -> Result<Variables, NoMemory>
    requires { declared.now ≡ by_scope (length (scopes tree.now)) (declarations tree.now) }
    ensures variables { IfOk result (λ found. map seen found.items.items ≡ variables tree.now) }
    ensures tables { IfOk result (λ found. AreTables (variables tree.now) found.tables.items) }
{
    let mut items = Vec::new(alloc);
    let mut tables = Vec::new(alloc);
    for own in declared.as_slice() {
        let scope = number(tables.len())?;
        let table = gather(alloc, tree, scope, own.as_slice(), &mut items)?;
        tables.push(table)?;
    }
    Ok(Variables { items, tables })
}
