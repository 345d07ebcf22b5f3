ghost use Rattle.std.specs.Prelude.{◌≡◌};
ghost use Rattle.es_tree.specs.Around.{words_of};
ghost use Rattle.es_rules_plain.specs.ValidTypeof.{compares_typeof, is_no_type, is_type};

use crate::literals::{VALUE, is_text_literal};
use crate::operators::{RIGHT, is_equality, is_some_typeof};
use es_host::{Ctx, SimpleNodeRule};
use es_text::{Finding, NoMemory};
use es_tree::field::LEFT;
use es_tree::{Tree, child, has_words, kind, parent, words};
use std::alloc::Global;

/// Finds each Text that a `typeof` is compared with, and that no `typeof` gives.
#[derive(Drop)]
pub struct ValidTypeof;

impl SimpleNodeRule for ValidTypeof {
    ghost use Rattle.es_rules_plain.specs.ValidTypeof.{valid_typeof};

    ghost meaning = { valid_typeof };

    fn id(&self) -> &str {
        "valid-typeof"
    }

    fn kinds(&self) -> &[u16] {
        &[kind::LITERAL]
    }

    fn judge(
        &self,
        alloc: Global,
        ctx: &Ctx,
        node: u32,
        findings: &mut Vec<Finding>,
    ) -> Result<(), NoMemory> {
        let tree = &ctx.file.parsed.tree;
        let Some(above) = parent(tree, node) else {
            return Ok(());
        };
        if !is_no_type(tree, node) || !compares_typeof(tree, above) {
            return Ok(());
        }
        ctx.report_node(alloc, node, "Invalid typeof comparison value.", findings)
    }
}

/// Whether the node compares for equality, and a side is a `typeof`.
fn compares_typeof(tree: &Tree, node: u32) -> bool
    ensures { result ≡ compares_typeof tree.now node }
{
    is_equality(tree, node)
        && (is_some_typeof(tree, child(tree, node, LEFT))
            || is_some_typeof(tree, child(tree, node, RIGHT)))
}

/// Whether the node is a Text with a value that no `typeof` gives.
fn is_no_type(tree: &Tree, node: u32) -> bool
    ensures { result ≡ is_no_type tree.now node }
{
    is_text_literal(tree, node) && words(tree, node, VALUE).is_some() && !is_type(tree, node)
}

/// Whether the literal's value is one that a `typeof` gives.
fn is_type(tree: &Tree, node: u32) -> bool
    ensures { result ≡ is_type (words_of tree.now node VALUE) }
{
    has_words(tree, node, VALUE, "undefined")
        || has_words(tree, node, VALUE, "object")
        || has_words(tree, node, VALUE, "boolean")
        || has_words(tree, node, VALUE, "number")
        || has_words(tree, node, VALUE, "string")
        || has_words(tree, node, VALUE, "function")
        || has_words(tree, node, VALUE, "symbol")
        || has_words(tree, node, VALUE, "bigint")
}
