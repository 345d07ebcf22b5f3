ghost use Rattle.std.specs.Prelude.{◌≡◌, ◌++◌, IfOk, IsTrue, OnOk};
ghost use Rattle.std.specs.List.{flat_map};
ghost use Rattle.es_text.specs.Texts.{text_bytes};
ghost use Rattle.es_host.specs.Files.{IsWhole, file_in};
ghost use Rattle.es_host.specs.Spans.{findings_fit};
ghost use Rattle.es_rules_scope.specs.Globals.{AreGlobals, is_global};
ghost use Rattle.es_rules_scope.specs.NoUndef.{is_operand_of_typeof, is_undefined, said_of};

use crate::field::UNARY_OPERATOR;
use crate::globals::Globals;
use crate::say::{name_at, say_of_name};
use es_host::{FileView, SimpleFileRule};
use es_scopes::Reference;
use es_text::{Finding, NoMemory};
use es_tree::kind::UNARY_EXPRESSION;
use es_tree::{Tree, has_words, is_one_of, parent};
use std::alloc::Global;

/// Finds each reference to a variable that isn't there, but for the operands of `typeof`.
#[derive(Drop)]
pub struct NoUndef;

impl SimpleFileRule for NoUndef {
    ghost use Rattle.es_rules_scope.specs.NoUndef.{no_undef};

    ghost meaning = { no_undef };

    fn id(&self) -> &str {
        "no-undef"
    }

    fn judge(&self, alloc: Global, file: &FileView) -> Result<Vec<Finding>, NoMemory> {
        let globals = Globals::of(alloc, file.config)?;
        say_all(alloc, file, &globals, file.scopes.references())
    }
}

/// What is said of the references.
fn say_all(
    alloc: Global,
    file: &FileView,
    globals: &Globals,
    references: &[Reference],
) -> Result<Vec<Finding>, NoMemory>
    requires whole { IsWhole (file_in file.now) }
    requires globals { AreGlobals (file_in file.now).settings globals.now }
    ensures found { IfOk result (λ findings. findings.items ≡ flat_map (said_of (file_in file.now)) references.now) }
    ensures inside { IfOk result (λ findings.
        IsTrue (findings_fit (text_bytes (file_in file.now).text) findings.items)) }
{
    let mut findings = Vec::new(alloc);
    for reference in references {
        say_of(alloc, file, globals, *reference, &mut findings)?;
    }
    Ok(findings)
}

/// Whether the name is a global variable's in the file.
fn is_global(file: &FileView, globals: &Globals, name: &str) -> bool
    requires { AreGlobals (file_in file.now).settings globals.now }
    ensures { result ≡ is_global (file_in file.now).settings name.now }
{
    globals.has(name)
}

/// Whether the node is the operand of a `typeof`.
fn is_operand_of_typeof(tree: &Tree, node: u32) -> bool
    ensures { result ≡ is_operand_of_typeof tree.now node }
{
    match parent(tree, node) {
        Some(above) => {
            is_one_of(tree, &[UNARY_EXPRESSION], above)
                && has_words(tree, above, UNARY_OPERATOR, "typeof")
        }
        None => false,
    }
}

/// Whether the reference is to a variable that isn't there.
fn is_undefined(file: &FileView, globals: &Globals, reference: Reference) -> bool
    requires globals { AreGlobals (file_in file.now).settings globals.now }
    ensures { result ≡ is_undefined (file_in file.now) reference }
{
    let tree = &file.parsed.tree;
    reference.variable.is_none()
        && !is_operand_of_typeof(tree, reference.node)
        && !is_global(file, globals, name_at(tree, reference.node))
}

/// Puts what is said of the reference behind the findings.
fn say_of(
    alloc: Global,
    file: &FileView,
    globals: &Globals,
    reference: Reference,
    findings: &mut Vec<Finding>,
) -> Result<(), NoMemory>
    requires whole { IsWhole (file_in file.now) }
    requires globals { AreGlobals (file_in file.now).settings globals.now }
    ensures found { OnOk result (findings.new.items ≡ findings.old.items ++ said_of (file_in file.now) reference) }
    ensures inside { OnOk result (IsTrue (findings_fit (text_bytes (file_in file.now).text) findings.old.items)
        → IsTrue (findings_fit (text_bytes (file_in file.now).text) findings.new.items)) }
{
    if is_undefined(file, globals, reference) {
        let rest = "' is not defined.";
        say_of_name(alloc, file, reference.node, rest, findings)?;
    }
    Ok(())
}
