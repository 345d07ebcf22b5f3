ghost use Rattle.std.specs.Prelude.{◌≡◌};
ghost use Rattle.es_rules_plain.specs.NoUnsafeNegation.{negates_left_of};

use crate::operators::{is_binary, is_unary};
use es_host::{Ctx, SimpleNodeRule};
use es_text::{Finding, NoMemory};
use es_tree::field::LEFT;
use es_tree::{Tree, kind, parent, stands_as};
use std::alloc::Global;

/// Finds each `!a` without parentheses that is the left side of `in` or `instanceof`.
#[derive(Drop)]
pub struct NoUnsafeNegation;

impl SimpleNodeRule for NoUnsafeNegation {
    ghost use Rattle.es_rules_plain.specs.NoUnsafeNegation.{no_unsafe_negation};

    ghost meaning = { no_unsafe_negation };

    fn id(&self) -> &str {
        "no-unsafe-negation"
    }

    fn kinds(&self) -> &[u16] {
        &[kind::UNARY_EXPRESSION]
    }

    fn judge(
        &self,
        alloc: Global,
        ctx: &Ctx,
        node: u32,
        findings: &mut Vec<Finding>,
    ) -> Result<(), NoMemory> {
        if ctx.file.is_in_pair(ctx.span(node), 0) {
            return Ok(());
        }
        let tree = &ctx.file.parsed.tree;
        if negates_left_of(tree, node, "in") {
            let text = "Unexpected negating the left operand of 'in' operator.";
            ctx.report_node(alloc, node, text, findings)
        } else if negates_left_of(tree, node, "instanceof") {
            let text = "Unexpected negating the left operand of 'instanceof' operator.";
            ctx.report_node(alloc, node, text, findings)
        } else {
            Ok(())
        }
    }
}

/// Whether the node is `!` and the left side of an expression with this operator.
fn negates_left_of(tree: &Tree, node: u32, operator: &str) -> bool
    ensures { result ≡ negates_left_of tree.now node operator.now }
{
    stands_as(tree, &[kind::BINARY_EXPRESSION], LEFT, node)
        && is_unary(tree, node, "!")
        && match parent(tree, node) {
            Some(above) => is_binary(tree, above, operator),
            None => false,
        }
}
