//! What is said of names.
ghost use Rattle.std.specs.Prelude.{◌≡◌, ◌++◌, ◌∷◌, [], IfOk, IsTrue, OnOk};
ghost use Rattle.std.specs.Str.{chars};
ghost use Rattle.es_text.specs.Texts.{text_bytes};
ghost use Rattle.es_host.specs.Files.{IsWhole, file_in};
ghost use Rattle.es_host.specs.Nodes.{is_plain};
ghost use Rattle.es_host.specs.Spans.{findings_fit};
ghost use Rattle.es_rules_scope.specs.Names.{name_at, quoted, said_of_name};

use es_host::FileView;
use es_text::{Finding, NoMemory, Txt};
use es_tree::field::NAME;
use es_tree::{Tree, words};
use std::alloc::Global;

/// The name of the Identifier.
pub fn name_at(tree: &Tree, node: u32) -> &str
    ensures { result.now ≡ name_at tree.now node }
{
    match words(tree, node, NAME) {
        Some(name) => name,
        None => "",
    }
}

/// A quotation mark, the name, and what follows, which is ASCII.
fn quoted(alloc: Global, name: &str, rest: &str) -> Result<Txt, NoMemory>
    requires { IsTrue (is_plain rest.now) }
    ensures { IfOk result (λ text. text ≡ quoted (chars name.now) rest.now) }
{
    let mut text = String::from_str(alloc, "'")?;
    text.push_str(name)?;
    text.push_str(rest)?;
    Txt::new(alloc, text.as_str())
}

/// Puts what is said of the name at an Identifier behind the findings: the name in quotes, by the text that
/// follows it, with the closing quotation mark.
pub fn say_of_name(
    alloc: Global,
    file: &FileView,
    node: u32,
    rest: &str,
    findings: &mut Vec<Finding>,
) -> Result<(), NoMemory>
    requires whole { IsWhole (file_in file.now) }
    requires plain { IsTrue (is_plain rest.now) }
    ensures found { OnOk result
        (findings.new.items ≡ findings.old.items ++ said_of_name (file_in file.now) node rest.now ∷ []) }
    ensures inside { OnOk result (IsTrue (findings_fit (text_bytes (file_in file.now).text) findings.old.items)
        → IsTrue (findings_fit (text_bytes (file_in file.now).text) findings.new.items)) }
{
    let text = quoted(alloc, name_at(&file.parsed.tree, node), rest)?;
    findings.push(Finding {
        span: file.span_of(node),
        text,
        fix: None,
    })?;
    Ok(())
}
