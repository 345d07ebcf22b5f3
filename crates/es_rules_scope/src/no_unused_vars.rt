ghost use Rattle.std.specs.Prelude.{◌≡◌, ◌++◌, map, IfOk, IsTrue, OnOk};
ghost use Rattle.std.specs.List.{flat_map, list_any, range_with_len};
ghost use Rattle.es_host.specs.Files.{IsWhole, file_in};
ghost use Rattle.es_host.specs.Nodes.{is_plain};
ghost use Rattle.es_host.specs.Spans.{findings_fit};
ghost use Rattle.es_scopes.specs.Declarations.{some_list};
ghost use Rattle.es_scopes.specs.Variables.{seen};
ghost use Rattle.es_text.specs.Texts.{text_bytes};
ghost use Rattle.es_rules_scope.specs.Exports.{is_exported, listed};
ghost use Rattle.es_rules_scope.specs.Marks.{has};
ghost use Rattle.es_rules_scope.specs.NoUnusedVars.{is_assigned, is_unused, is_watched, read, read_by};
ghost use Rattle.es_rules_scope.specs.NoUnusedVars.{said_at, said_in, said_of, said_of_first, writing, written, written_at, written_by};
ghost use Rattle.es_rules_scope.specs.Uses.{AreUses};

use crate::exports::{is_exported, listed};
use crate::marks::{is_marked, marks_of, put};
use crate::say::say_of_name;
use es_host::{FileView, SimpleFileRule};
use es_scopes::{DeclarationKind, Reference, Variable};
use es_text::{Finding, NoMemory};
use es_tree::Tree;
use std::alloc::Global;

/// Finds each variable that is declared and never read, but for parameters and what is exported.
#[derive(Drop)]
pub struct NoUnusedVars;

impl SimpleFileRule for NoUnusedVars {
    ghost use Rattle.es_rules_scope.specs.NoUnusedVars.{no_unused_vars};

    ghost meaning = { no_unused_vars };

    fn id(&self) -> &str {
        "no-unused-vars"
    }

    fn judge(&self, alloc: Global, file: &FileView) -> Result<Vec<Finding>, NoMemory> {
        let uses = uses_of(alloc, file)?;
        say_all(alloc, file, &uses, file.scopes.variables().len())
    }
}

/// What is said of so many variables.
#[tactic(auto, using(crate::proofs::RangesLemmas::below_more))]
fn say_all(
    alloc: Global,
    file: &FileView,
    uses: &Uses,
    count: usize,
) -> Result<Vec<Finding>, NoMemory>
    requires whole { IsWhole (file_in file.now) }
    requires uses { AreUses (file_in file.now) uses.now }
    ensures found { IfOk result (λ findings. findings.items
        ≡ flat_map (said_at (file_in file.now)) (range_with_len 0 count)) }
    ensures inside { IfOk result (λ findings.
        IsTrue (findings_fit (text_bytes (file_in file.now).text) findings.items)) }
{
    let mut findings = Vec::new(alloc);
    for index in 0..count {
        say_at(alloc, file, uses, index, &mut findings)?;
    }
    Ok(findings)
}

/// How variables are used, by their indices, and which Identifiers are written.
#[derive(Drop)]
struct Uses {
    read: Vec<bool>,
    listed: Vec<bool>,
    written: Vec<bool>,
    writing: Vec<bool>,
}

/// How the variables of a file are used.
fn uses_of(alloc: Global, file: &FileView) -> Result<Uses, NoMemory>
    ensures { IfOk result (AreUses (file_in file.now)) }
{
    let references = file.scopes.references();
    Ok(Uses {
        read: marks_of(alloc, read(alloc, references)?.as_slice())?,
        listed: marks_of(alloc, listed(alloc, file)?.as_slice())?,
        written: marks_of(alloc, written(alloc, references)?.as_slice())?,
        writing: marks_of(alloc, writing(alloc, references)?.as_slice())?,
    })
}

/// The variable that the reference reads, if it does.
fn read_by(reference: Reference) -> Option<u32>
    ensures { some_list result ≡ read_by reference }
{
    if reference.read {
        reference.variable
    } else {
        None
    }
}

/// The variable that the reference writes, if it does.
fn written_by(reference: Reference) -> Option<u32>
    ensures { some_list result ≡ written_by reference }
{
    if reference.write {
        reference.variable
    } else {
        None
    }
}

/// The Identifier that the reference writes, if it does.
fn written_at(reference: Reference) -> Option<u32>
    ensures { some_list result ≡ written_at reference }
{
    if reference.write {
        Some(reference.node)
    } else {
        None
    }
}

/// The variables that references read.
fn read(alloc: Global, references: &[Reference]) -> Result<Vec<u32>, NoMemory>
    ensures { IfOk result (λ found. found.items ≡ flat_map read_by references.now) }
{
    let mut found = Vec::new(alloc);
    for reference in references {
        put(&mut found, read_by(*reference))?;
    }
    Ok(found)
}

/// The variables that references write.
fn written(alloc: Global, references: &[Reference]) -> Result<Vec<u32>, NoMemory>
    ensures { IfOk result (λ found. found.items ≡ flat_map written_by references.now) }
{
    let mut found = Vec::new(alloc);
    for reference in references {
        put(&mut found, written_by(*reference))?;
    }
    Ok(found)
}

/// The Identifiers that are written.
fn writing(alloc: Global, references: &[Reference]) -> Result<Vec<u32>, NoMemory>
    ensures { IfOk result (λ found. found.items ≡ flat_map written_at references.now) }
{
    let mut found = Vec::new(alloc);
    for reference in references {
        put(&mut found, written_at(*reference))?;
    }
    Ok(found)
}

/// Whether variables of this kind are looked at.
fn is_watched(kind: DeclarationKind) -> bool
    ensures { result ≡ is_watched kind }
{
    matches!(
        kind,
        DeclarationKind::Var
            | DeclarationKind::Let
            | DeclarationKind::Const
            | DeclarationKind::Function
            | DeclarationKind::Class
            | DeclarationKind::Import
    )
}

/// Whether one of the names is declared by an export.
fn has_exported(tree: &Tree, nodes: &[u32]) -> bool
    ensures { result ≡ list_any (is_exported tree.now) nodes.now }
{
    for node in nodes {
        if is_exported(tree, *node) {
            return true;
        }
    }
    false
}

/// Whether a reference reads the variable at this index.
fn is_read(_file: &FileView, uses: &Uses, index: usize) -> bool
    requires { AreUses (file_in _file.now) uses.now }
    ensures { result ≡ has (read (file_in _file.now)) index }
{
    is_marked(uses.read.as_slice(), index)
}

/// Whether a list of exports names the variable at this index.
fn is_listed(_file: &FileView, uses: &Uses, index: usize) -> bool
    requires { AreUses (file_in _file.now) uses.now }
    ensures { result ≡ has (listed (file_in _file.now)) index }
{
    is_marked(uses.listed.as_slice(), index)
}

/// Whether a reference writes the variable at this index.
fn is_written(_file: &FileView, uses: &Uses, index: usize) -> bool
    requires { AreUses (file_in _file.now) uses.now }
    ensures { result ≡ has (written (file_in _file.now)) index }
{
    is_marked(uses.written.as_slice(), index)
}

/// Whether the Identifier is written.
fn is_writing(_file: &FileView, uses: &Uses, node: u32) -> bool
    requires { AreUses (file_in _file.now) uses.now }
    ensures { result ≡ has (writing (file_in _file.now)) node }
{
    is_marked(uses.writing.as_slice(), node as usize)
}

/// Whether one of the Identifiers is written.
fn has_writing(file: &FileView, uses: &Uses, nodes: &[u32]) -> bool
    requires { AreUses (file_in file.now) uses.now }
    ensures { result ≡ list_any (has (writing (file_in file.now))) nodes.now }
{
    for node in nodes {
        if is_writing(file, uses, *node) {
            return true;
        }
    }
    false
}

/// Whether the variable at this index is looked at, not read and not exported.
fn is_unused(file: &FileView, uses: &Uses, index: usize, variable: &Variable) -> bool
    requires { AreUses (file_in file.now) uses.now }
    ensures { result ≡ is_unused (file_in file.now) index (seen variable.now) }
{
    is_watched(variable.kind)
        && !is_read(file, uses, index)
        && !is_listed(file, uses, index)
        && !has_exported(&file.parsed.tree, variable.nodes.as_slice())
}

/// Whether a reference writes the variable at this index, or its declarator does.
fn is_assigned(file: &FileView, uses: &Uses, index: usize, variable: &Variable) -> bool
    requires { AreUses (file_in file.now) uses.now }
    ensures { result ≡ is_assigned (file_in file.now) index (seen variable.now) }
{
    is_written(file, uses, index) || has_writing(file, uses, variable.nodes.as_slice())
}

/// Puts what is said of the first of the names behind the findings.
fn say_of_first(
    alloc: Global,
    file: &FileView,
    nodes: &[u32],
    rest: &str,
    findings: &mut Vec<Finding>,
) -> Result<(), NoMemory>
    requires whole { IsWhole (file_in file.now) }
    requires plain { IsTrue (is_plain rest.now) }
    ensures found { OnOk result
        (findings.new.items ≡ findings.old.items ++ said_of_first (file_in file.now) rest.now nodes.now) }
    ensures inside { OnOk result (IsTrue (findings_fit (text_bytes (file_in file.now).text) findings.old.items)
        → IsTrue (findings_fit (text_bytes (file_in file.now).text) findings.new.items)) }
{
    match nodes {
        [first, ..] => say_of_name(alloc, file, *first, rest, findings),
        [] => Ok(()),
    }
}

/// Puts what is said of the variable behind the findings, which has this index.
fn say_of(
    alloc: Global,
    file: &FileView,
    uses: &Uses,
    index: usize,
    variable: &Variable,
    findings: &mut Vec<Finding>,
) -> Result<(), NoMemory>
    requires whole { IsWhole (file_in file.now) }
    requires uses { AreUses (file_in file.now) uses.now }
    ensures found { OnOk result
        (findings.new.items ≡ findings.old.items ++ said_of (file_in file.now) index (seen variable.now)) }
    ensures inside { OnOk result (IsTrue (findings_fit (text_bytes (file_in file.now).text) findings.old.items)
        → IsTrue (findings_fit (text_bytes (file_in file.now).text) findings.new.items)) }
{
    let nodes = variable.nodes.as_slice();
    if !is_unused(file, uses, index, variable) {
        Ok(())
    } else if is_assigned(file, uses, index, variable) {
        let rest = "' is assigned a value but never used.";
        say_of_first(alloc, file, nodes, rest, findings)
    } else {
        let rest = "' is defined but never used.";
        say_of_first(alloc, file, nodes, rest, findings)
    }
}

/// Puts what is said of the variable at this index behind the findings.
fn say_at(
    alloc: Global,
    file: &FileView,
    uses: &Uses,
    index: usize,
    findings: &mut Vec<Finding>,
) -> Result<(), NoMemory>
    requires whole { IsWhole (file_in file.now) }
    requires uses { AreUses (file_in file.now) uses.now }
    ensures found { OnOk result (findings.new.items ≡ findings.old.items ++ said_at (file_in file.now) index) }
    ensures inside { OnOk result (IsTrue (findings_fit (text_bytes (file_in file.now).text) findings.old.items)
        → IsTrue (findings_fit (text_bytes (file_in file.now).text) findings.new.items)) }
{
    say_in(alloc, file, uses, file.scopes.variables(), index, findings)
}

/// Puts what is said of the one of the variables at this index behind the findings.
fn say_in(
    alloc: Global,
    file: &FileView,
    uses: &Uses,
    variables: &[Variable],
    index: usize,
    findings: &mut Vec<Finding>,
) -> Result<(), NoMemory>
    requires whole { IsWhole (file_in file.now) }
    requires uses { AreUses (file_in file.now) uses.now }
    ensures found { OnOk result
        (findings.new.items ≡ findings.old.items ++ said_in (file_in file.now) (map seen variables.now) index) }
    ensures inside { OnOk result (IsTrue (findings_fit (text_bytes (file_in file.now).text) findings.old.items)
        → IsTrue (findings_fit (text_bytes (file_in file.now).text) findings.new.items)) }
{
    match variables.get(index) {
        Some(variable) => say_of(alloc, file, uses, index, variable, findings),
        None => Ok(()),
    }
}
