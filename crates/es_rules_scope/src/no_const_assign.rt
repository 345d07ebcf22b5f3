ghost use Rattle.std.specs.Prelude.{◌≡◌, ◌++◌, map, IfOk, IsTrue, OnOk};
ghost use Rattle.std.specs.List.{flat_map};
ghost use Rattle.es_text.specs.Texts.{text_bytes};
ghost use Rattle.es_host.specs.Files.{IsWhole, file_in};
ghost use Rattle.es_host.specs.Spans.{findings_fit};
ghost use Rattle.es_scopes.specs.Variables.{seen};
ghost use Rattle.es_rules_scope.specs.NoConstAssign.{is_const, is_const_beyond, is_reassigned, said_of};

use crate::say::say_of_name;
use es_host::{FileView, SimpleFileRule};
use es_scopes::{DeclarationKind, Reference, Variable};
use es_text::{Finding, NoMemory};
use std::alloc::Global;

/// Finds each write to a `const` but its declaration.
#[derive(Drop)]
pub struct NoConstAssign;

impl SimpleFileRule for NoConstAssign {
    ghost use Rattle.es_rules_scope.specs.NoConstAssign.{no_const_assign};

    ghost meaning = { no_const_assign };

    fn id(&self) -> &str {
        "no-const-assign"
    }

    fn judge(&self, alloc: Global, file: &FileView) -> Result<Vec<Finding>, NoMemory> {
        say_all(alloc, file, file.scopes.references())
    }
}

/// What is said of the references.
fn say_all(
    alloc: Global,
    file: &FileView,
    references: &[Reference],
) -> Result<Vec<Finding>, NoMemory>
    requires { IsWhole (file_in file.now) }
    ensures found { IfOk result (λ findings. findings.items ≡ flat_map (said_of (file_in file.now)) references.now) }
    ensures inside { IfOk result (λ findings.
        IsTrue (findings_fit (text_bytes (file_in file.now).text) findings.items)) }
{
    let mut findings = Vec::new(alloc);
    for reference in references {
        say_of(alloc, file, *reference, &mut findings)?;
    }
    Ok(findings)
}

/// Whether a variable of this kind is a `const`.
fn is_const(kind: DeclarationKind) -> bool
    ensures { result ≡ is_const kind }
{
    matches!(kind, DeclarationKind::Const)
}

/// Whether the variable is a `const`, and the node isn't where it is declared. A `const` is declared once.
fn is_const_beyond(node: u32, variable: &Variable) -> bool
    ensures { result ≡ is_const_beyond node (seen variable.now) }
{
    is_const(variable.kind) && !variable.nodes.as_slice().contains(&node)
}

/// Whether the reference writes a `const` elsewhere than where that is declared.
fn is_reassigned(variables: &[Variable], reference: Reference) -> bool
    ensures { result ≡ is_reassigned (map seen variables.now) reference }
{
    let Some(index) = reference.variable else {
        return false;
    };
    match variables.get(index as usize) {
        Some(variable) => reference.write && is_const_beyond(reference.node, variable),
        None => false,
    }
}

/// Puts what is said of the reference behind the findings.
fn say_of(
    alloc: Global,
    file: &FileView,
    reference: Reference,
    findings: &mut Vec<Finding>,
) -> Result<(), NoMemory>
    requires { IsWhole (file_in file.now) }
    ensures found { OnOk result (findings.new.items ≡ findings.old.items ++ said_of (file_in file.now) reference) }
    ensures inside { OnOk result (IsTrue (findings_fit (text_bytes (file_in file.now).text) findings.old.items)
        → IsTrue (findings_fit (text_bytes (file_in file.now).text) findings.new.items)) }
{
    if is_reassigned(file.scopes.variables(), reference) {
        let rest = "' is constant.";
        say_of_name(alloc, file, reference.node, rest, findings)?;
    }
    Ok(())
}
