ghost use Rattle.std.specs.Prelude.{ℕ, ◌≡◌, false, List, IfOk, IsTrue};
ghost use Rattle.es_text.specs.Spans.{is_part};
ghost use Rattle.es_settings.specs.declared.verdict.Verdict.TheVariants.{Fine};
ghost use Rattle.es_settings.specs.Settings.{have_float, options_of};
ghost use Rattle.es_host.specs.Files.{IsWhole, file_in};
ghost use Rattle.es_rules_plain.specs.Semi.{declares, end_of, ends_in_semicolon, missing, reads_semi, takes_always};

use crate::eqeqeq::is_option;
use es_host::{Ctx, FileView, NodeRule, of_kinds, plain};
use es_selectors::Selector;
use es_settings::Verdict;
use es_text::{Finding, Fix, NoMemory, Span, Txt};
use es_tree::{Tree, child, is_one_of, kind, stands_as};
use serde_json::Value;
use std::alloc::Global;

/// The field of a loop over variables that stands first in its head.
const HEAD: u16 = 0;

/// The field of an export that has what it declares.
const DECLARATION: u16 = 0;

/// What the grammar ends with `;`, or with nothing where a line ends.
const ENDED: [u16; 13] = [
    kind::VARIABLE_DECLARATION,
    kind::EXPRESSION_STATEMENT,
    kind::DO_WHILE_STATEMENT,
    kind::CONTINUE_STATEMENT,
    kind::BREAK_STATEMENT,
    kind::RETURN_STATEMENT,
    kind::THROW_STATEMENT,
    kind::DEBUGGER_STATEMENT,
    kind::IMPORT_DECLARATION,
    kind::EXPORT_NAMED_DECLARATION,
    kind::EXPORT_DEFAULT_DECLARATION,
    kind::EXPORT_ALL_DECLARATION,
    kind::PROPERTY_DEFINITION,
];

/// Finds each statement and field that ends without its semicolon, and mends it by putting one there.
#[derive(Drop)]
pub struct Semi;

impl NodeRule for Semi {
    ghost use Rattle.es_rules_plain.specs.Semi.{semi};

    ghost meaning = { semi };

    ghost keeps = { λ _ _. Unit {0} };

    fn id(&self) -> &str {
        "semi"
    }

    fn verdict(&self, _alloc: Global, options: &[Value]) -> Result<Verdict, NoMemory> {
        Ok(takes_always(options))
    }

    fn set(&mut self, _alloc: Global, _options: &[Value]) -> Result<(), NoMemory> {
        Ok(())
    }

    fn interest(&self, alloc: Global) -> Result<Vec<Selector>, NoMemory> {
        of_kinds(alloc, &ENDED)
    }

    fn judge(
        &self,
        alloc: Global,
        ctx: &Ctx,
        node: u32,
        _which: u32,
        findings: &mut Vec<Finding>,
    ) -> Result<(), NoMemory> {
        let span = ctx.span(node);
        if !reads_semi(&ctx.file.parsed.tree, node) || ends_in_semicolon(ctx.file, span.end) {
            return Ok(());
        }
        let end = end_of(span);
        let fix = Fix {
            span: end,
            text: plain(alloc, ";")?,
        };
        ctx.report(end, missing(alloc)?, Some(fix), findings)
    }
}

/// Nothing and "always" are taken, which mean the same.
fn takes_always(options: &[Value]) -> Verdict
    ensures verdict { result ≡ takes_always (options_of options.now) }
    ensures floats { result ≡ Fine → have_float (options_of options.now) ≡ false }
{
    match options {
        [] => Verdict::Fine,
        [style] if is_option(style, "always") => Verdict::Fine,
        _ => Verdict::BadOption,
    }
}

/// Whether a node of these kinds is ended by `;`: not in the head of a loop, and not an export of a
/// declaration, which has its own end.
fn reads_semi(tree: &Tree, node: u32) -> bool
    ensures { result ≡ reads_semi tree.now node }
{
    let loops = [
        kind::FOR_STATEMENT,
        kind::FOR_IN_STATEMENT,
        kind::FOR_OF_STATEMENT,
    ];
    !stands_as(tree, &loops, HEAD, node) && !declares(tree, node)
}

/// Whether the node is an export of a declaration.
fn declares(tree: &Tree, node: u32) -> bool
    ensures { result ≡ declares tree.now node }
{
    let exports = [
        kind::EXPORT_NAMED_DECLARATION,
        kind::EXPORT_DEFAULT_DECLARATION,
    ];
    let declarations = [
        kind::VARIABLE_DECLARATION,
        kind::FUNCTION_DECLARATION,
        kind::CLASS_DECLARATION,
    ];
    is_one_of(tree, &exports, node)
        && match child(tree, node, DECLARATION) {
            Some(declared) => is_one_of(tree, &declarations, declared),
            None => false,
        }
}

/// Whether the last token before the offset is `;`.
fn ends_in_semicolon(file: &FileView, end: u32) -> bool
    requires { IsWhole (file_in file.now) }
    ensures { result ≡ ends_in_semicolon (file_in file.now) end }
{
    match file.token_before(end) {
        Some(token) => file.text_of(token.span) == ";",
        None => false,
    }
}

/// The empty span at the end of a span.
fn end_of(span: Span) -> Span
    ensures end { result ≡ end_of span }
    ensures inside { (bytes : List ℕ) → IsTrue (is_part bytes span) → IsTrue (is_part bytes result) }
{
    Span {
        start: span.end,
        end: span.end,
    }
}

#[tactic(auto, unfolding(crate::specs::Semi::missing))]
fn missing(alloc: Global) -> Result<Txt, NoMemory>
    ensures { IfOk result (λ text. text ≡ missing) }
{
    plain(alloc, "Missing semicolon.")
}
