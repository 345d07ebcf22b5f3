ghost use Rattle.std.specs.Prelude.{◌≡◌, ◌++◌, length, IfOk, IsTrue, OnOk};
ghost use Rattle.std.specs.List.{flat_map, range_with_len};
ghost use Rattle.es_early.specs.Labels.{is_labelled};
ghost use Rattle.es_host.specs.Files.{IsWhole, file_in, rows_in};
ghost use Rattle.es_host.specs.Spans.{findings_fit};
ghost use Rattle.es_scopes.specs.Declarations.{some_list};
ghost use Rattle.es_text.specs.Texts.{text_bytes};
ghost use Rattle.es_rules_scope.specs.Marks.{AreMarked, has};
ghost use Rattle.es_rules_scope.specs.NoUnusedLabels.{has_unused_label, named, named_by, named_from, said_at};

use crate::marks::{is_marked, marks_of, put};
use crate::say::say_of_name;
use es_host::{FileView, SimpleFileRule};
use es_text::{Finding, NoMemory};
use es_tree::field::LABEL;
use es_tree::kind::{BREAK_STATEMENT, CONTINUE_STATEMENT, LABELED_STATEMENT};
use es_tree::{Ancestors, Tree, child, is_one_of, same_name};
use std::alloc::Global;

/// Finds each label that no `break` and no `continue` names.
#[derive(Drop)]
pub struct NoUnusedLabels;

impl SimpleFileRule for NoUnusedLabels {
    ghost use Rattle.es_rules_scope.specs.NoUnusedLabels.{no_unused_labels};

    ghost meaning = { no_unused_labels };

    fn id(&self) -> &str {
        "no-unused-labels"
    }

    fn judge(&self, alloc: Global, file: &FileView) -> Result<Vec<Finding>, NoMemory> {
        let tree = &file.parsed.tree;
        let named = named(alloc, tree)?;
        let marks = marks_of(alloc, named.as_slice())?;
        say_all(alloc, file, marks.as_slice())
    }
}

/// What is said of the labels of the file, where the marked statements are those whose labels are named.
#[tactic(auto, using(crate::proofs::RangesLemmas::below_more))]
fn say_all(alloc: Global, file: &FileView, marks: &[bool]) -> Result<Vec<Finding>, NoMemory>
    requires whole { IsWhole (file_in file.now) }
    requires marks { AreMarked (named (rows_in (file_in file.now))) marks.now }
    ensures found { IfOk result (λ findings. findings.items
        ≡ flat_map (said_at (file_in file.now)) (range_with_len 0 (length (rows_in (file_in file.now))))) }
    ensures inside { IfOk result (λ findings.
        IsTrue (findings_fit (text_bytes (file_in file.now).text) findings.items)) }
{
    let mut findings = Vec::new(alloc);
    for node in 0..file.parsed.tree.count() {
        say_at(alloc, file, marks, node, &mut findings)?;
    }
    Ok(findings)
}

/// Whether the statement is labelled, and its label isn't named.
fn has_unused_label(tree: &Tree, marks: &[bool], node: u32) -> bool
    requires { AreMarked (named tree.now) marks.now }
    ensures { result ≡ has_unused_label tree.now node }
{
    is_one_of(tree, &[LABELED_STATEMENT], node) && !is_named(tree, marks, node)
}

/// Whether the label of the statement is named.
fn is_named(_tree: &Tree, marks: &[bool], node: u32) -> bool
    requires { AreMarked (named _tree.now) marks.now }
    ensures { result ≡ has (named _tree.now) node }
{
    is_marked(marks, node as usize)
}

/// Whether the statement is a labelled one, of the same label as this.
fn is_labelled(tree: &Tree, label: u32, statement: u32) -> bool
    ensures { result ≡ is_labelled tree.now label statement }
{
    if !is_one_of(tree, &[LABELED_STATEMENT], statement) {
        return false;
    }
    match child(tree, statement, LABEL) {
        Some(own) => same_name(tree, own, label),
        None => false,
    }
}

/// The innermost statement around a jump that has its label.
fn named_from(tree: &Tree, jump: u32, label: u32) -> Option<u32>
    ensures { result ≡ named_from tree.now jump label }
{
    for around in Ancestors::of(tree, jump) {
        if is_labelled(tree, label, around) {
            return Some(around);
        }
    }
    None
}

/// The statement whose label the node names, if it is a `break` or a `continue` and names one.
fn named_by(tree: &Tree, node: u32) -> Option<u32>
    ensures { some_list result ≡ named_by tree.now node }
{
    if !is_one_of(tree, &[BREAK_STATEMENT, CONTINUE_STATEMENT], node) {
        return None;
    }
    let label = child(tree, node, LABEL)?;
    named_from(tree, node, label)
}

/// The statements whose labels are named.
fn named(alloc: Global, tree: &Tree) -> Result<Vec<u32>, NoMemory>
    ensures { IfOk result (λ found. found.items ≡ named tree.now) }
{
    let mut found = Vec::new(alloc);
    for node in 0..tree.count() {
        put(&mut found, named_by(tree, node))?;
    }
    Ok(found)
}

/// Puts what is said of the label of the node, where the marked statements are those whose labels are named,
/// behind the findings.
fn say_at(
    alloc: Global,
    file: &FileView,
    marks: &[bool],
    node: u32,
    findings: &mut Vec<Finding>,
) -> Result<(), NoMemory>
    requires whole { IsWhole (file_in file.now) }
    requires marks { AreMarked (named (rows_in (file_in file.now))) marks.now }
    ensures found { OnOk result (findings.new.items ≡ findings.old.items ++ said_at (file_in file.now) node) }
    ensures inside { OnOk result (IsTrue (findings_fit (text_bytes (file_in file.now).text) findings.old.items)
        → IsTrue (findings_fit (text_bytes (file_in file.now).text) findings.new.items)) }
{
    let tree = &file.parsed.tree;
    if !has_unused_label(tree, marks, node) {
        return Ok(());
    }
    if let Some(label) = child(tree, node, LABEL) {
        let rest = ":' is defined but never used.";
        say_of_name(alloc, file, label, rest, findings)?;
    }
    Ok(())
}
