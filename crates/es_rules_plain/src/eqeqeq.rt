ghost use Rattle.std.specs.Prelude.{◌≡◌, ◌<◌, ◌++◌, ◌∷◌, [], false, length, None, IsTrue, OnOk};
ghost use Rattle.es_text.specs.Spans.{is_part};
ghost use Rattle.es_text.specs.Texts.{text_bytes};
ghost use Rattle.es_host.specs.Files.{IsWhole, file_of, rows_in};
ghost use Rattle.es_host.specs.Nodes.{found, is_plain, span_at};
ghost use Rattle.es_host.specs.Spans.{findings_fit};
ghost use Rattle.serde_json.specs.View.{view};
ghost use Rattle.serde_json.specs.Written.{has_float};
ghost use Rattle.es_rules_plain.specs.Eqeqeq.{is_excuse, is_option, is_sure, operator_at};

use crate::literals::{Sort, is_same_sort, some_sort};
use crate::operators::{RIGHT, is_binary, is_some_typeof};
use es_host::{Ctx, NodeRule, of_kinds, plain};
use es_selectors::Selector;
use es_settings::Verdict;
use es_text::{Finding, NoMemory, Span};
use es_tree::field::LEFT;
use es_tree::{Tree, child, kind};
use serde_json::Value;
use std::alloc::Global;

/// Finds each `==` and `!=`. With the option "smart" it passes over those that can't surprise: beside
/// `null` or a `typeof`, and between literals of one sort.
#[derive(Drop)]
pub struct Eqeqeq {
    smart: bool,
}

impl Eqeqeq {
    pub fn new() -> Eqeqeq {
        Eqeqeq { smart: false }
    }
}

impl NodeRule for Eqeqeq {
    ghost use Rattle.std.specs.Prelude.{◌≡◌};
    ghost use Rattle.es_rules_plain.specs.Eqeqeq.{eqeqeq, is_smart};

    ghost meaning = { eqeqeq };

    ghost keeps = { λ rule options. rule.smart ≡ is_smart options };

    fn id(&self) -> &str {
        "eqeqeq"
    }

    fn verdict(&self, _alloc: Global, options: &[Value]) -> Result<Verdict, NoMemory> {
        let verdict = match options {
            [] => Verdict::Fine,
            [style] if is_option(style, "always") || is_option(style, "smart") => Verdict::Fine,
            _ => Verdict::BadOption,
        };
        Ok(verdict)
    }

    fn set(&mut self, _alloc: Global, options: &[Value]) -> Result<(), NoMemory> {
        self.smart = match options.first() {
            Some(style) => is_option(style, "smart"),
            None => false,
        };
        Ok(())
    }

    fn interest(&self, alloc: Global) -> Result<Vec<Selector>, NoMemory> {
        of_kinds(alloc, &[kind::BINARY_EXPRESSION])
    }

    fn judge(
        &self,
        alloc: Global,
        ctx: &Ctx,
        node: u32,
        _which: u32,
        findings: &mut Vec<Finding>,
    ) -> Result<(), NoMemory> {
        let tree = &ctx.file.parsed.tree;
        if self.smart && is_sure(tree, node) {
            return Ok(());
        }
        if is_binary(tree, node, "==") {
            report(
                alloc,
                ctx,
                node,
                "Expected '===' and instead saw '=='.",
                findings,
            )
        } else if is_binary(tree, node, "!=") {
            report(
                alloc,
                ctx,
                node,
                "Expected '!==' and instead saw '!='.",
                findings,
            )
        } else {
            Ok(())
        }
    }
}

/// Whether the option is this text.
pub fn is_option(option: &Value, text: &str) -> bool
    ensures option { result ≡ is_option text.now (view option.now) }
    ensures floats { IsTrue result → has_float (view option.now) ≡ false }
{
    match option {
        Value::String(given) => given.as_str() == text,
        _ => false,
    }
}

/// Whether there is a node, and it is `null` or a `typeof`.
fn is_excuse(tree: &Tree, side: Option<u32>) -> bool
    ensures { result ≡ is_excuse tree.now side }
{
    is_some_typeof(tree, side) || is_same_sort(Some(Sort::Null), some_sort(tree, side))
}

/// Whether a side is `null` or a `typeof`, or both are literals of one sort.
fn is_sure(tree: &Tree, node: u32) -> bool
    ensures { result ≡ is_sure tree.now node }
{
    let left = child(tree, node, LEFT);
    let right = child(tree, node, RIGHT);
    is_excuse(tree, left)
        || is_excuse(tree, right)
        || is_same_sort(some_sort(tree, left), some_sort(tree, right))
}

/// The end of the node in the text; 0 where no node has the number.
fn end_of(tree: &Tree, node: u32) -> u32
    ensures { result ≡ (span_at tree.now node).end }
{
    if node < tree.count() {
        tree.span(node).end
    } else {
        0
    }
}

/// The operator: what stands behind the left side and the parentheses around it.
fn operator_at(ctx: &Ctx, node: u32) -> Span
    requires whole { IsWhole (file_of ctx.now) }
    requires node { node < length (rows_in (file_of ctx.now)) }
    ensures span { result ≡ operator_at (file_of ctx.now) node }
    ensures inside { IsTrue (is_part (text_bytes (file_of ctx.now).text) result) }
{
    let tree = &ctx.file.parsed.tree;
    let Some(left) = child(tree, node, LEFT) else {
        return ctx.span(node);
    };
    match ctx.file.past_parentheses(end_of(tree, left)) {
        Some(operator) => operator.span,
        None => ctx.span(node),
    }
}

/// Puts what is said of the node's operator behind the findings.
fn report(
    alloc: Global,
    ctx: &Ctx,
    node: u32,
    text: &str,
    findings: &mut Vec<Finding>,
) -> Result<(), NoMemory>
    requires whole { IsWhole (file_of ctx.now) }
    requires node { node < length (rows_in (file_of ctx.now)) }
    requires plain { IsTrue (is_plain text.now) }
    ensures found { OnOk result (findings.new.items
        ≡ findings.old.items ++ found (operator_at (file_of ctx.now) node) text.now None ∷ []) }
    ensures inside { OnOk result (IsTrue (findings_fit (text_bytes (file_of ctx.now).text) findings.old.items)
        → IsTrue (findings_fit (text_bytes (file_of ctx.now).text) findings.new.items)) }
{
    ctx.report(operator_at(ctx, node), plain(alloc, text)?, None, findings)
}
