ghost use Rattle.std.specs.Prelude.{◌≡◌, ◌<◌, length};
ghost use Rattle.es_host.specs.Files.{IsWhole, file_of, rows_in};
ghost use Rattle.es_rules_plain.specs.NoEmpty.{has_comment, is_empty_block, is_empty_switch};

use es_host::{Ctx, SimpleNodeRule, count_places};
use es_text::{Finding, NoMemory};
use es_tree::kinds::FUNCTIONS;
use es_tree::{Tree, is_one_of, kind, stands_in};
use std::alloc::Global;

/// The field of a block that has its statements.
const BODY: u16 = 0;

/// The field of a switch that has its clauses.
const CASES: u16 = 1;

/// Finds each block that is no function's body, and each switch, with nothing in it and no comment.
#[derive(Drop)]
pub struct NoEmpty;

impl SimpleNodeRule for NoEmpty {
    ghost use Rattle.es_rules_plain.specs.NoEmpty.{no_empty};

    ghost meaning = { no_empty };

    fn id(&self) -> &str {
        "no-empty"
    }

    fn kinds(&self) -> &[u16] {
        &[kind::BLOCK_STATEMENT, kind::SWITCH_STATEMENT]
    }

    fn judge(
        &self,
        alloc: Global,
        ctx: &Ctx,
        node: u32,
        findings: &mut Vec<Finding>,
    ) -> Result<(), NoMemory> {
        let tree = &ctx.file.parsed.tree;
        if is_empty_block(tree, node) && !has_comment(ctx, node) {
            ctx.report_node(alloc, node, "Empty block statement.", findings)
        } else if is_empty_switch(tree, node) && !has_comment(ctx, node) {
            ctx.report_node(alloc, node, "Empty switch statement.", findings)
        } else {
            Ok(())
        }
    }
}

/// Whether the node is a block without statements, which is no function's body.
fn is_empty_block(tree: &Tree, node: u32) -> bool
    requires { node < length tree.now }
    ensures { result ≡ is_empty_block tree.now node }
{
    is_one_of(tree, &[kind::BLOCK_STATEMENT], node)
        && count_places(tree, node, BODY) == 0
        && !stands_in(tree, &FUNCTIONS, node)
}

/// Whether the node is a switch without clauses.
fn is_empty_switch(tree: &Tree, node: u32) -> bool
    requires { node < length tree.now }
    ensures { result ≡ is_empty_switch tree.now node }
{
    is_one_of(tree, &[kind::SWITCH_STATEMENT], node) && count_places(tree, node, CASES) == 0
}

/// Whether a comment stands in the node.
fn has_comment(ctx: &Ctx, node: u32) -> bool
    requires whole { IsWhole (file_of ctx.now) }
    requires node { node < length (rows_in (file_of ctx.now)) }
    ensures { result ≡ has_comment (file_of ctx.now) node }
{
    !ctx.file.comments_in(ctx.span(node)).is_empty()
}
