ghost use Rattle.std.specs.Prelude.{◌≡◌, ◌<◌, length};
ghost use Rattle.es_host.specs.Files.{IsWhole, file_of, rows_in};
ghost use Rattle.es_rules_plain.specs.NoCondAssign.{is_excused, is_for_test, is_test};

use es_host::{Ctx, SimpleNodeRule};
use es_text::{Finding, NoMemory};
use es_tree::{Tree, kind, stands_as};
use std::alloc::Global;

/// The field of `if`, `while` and `?:` that has the test.
const FIRST_TEST: u16 = 0;

/// The field of do-while and `for` that has the test.
const SECOND_TEST: u16 = 1;

/// Finds each assignment that is a test, but for those in parentheses of their own.
#[derive(Drop)]
pub struct NoCondAssign;

impl SimpleNodeRule for NoCondAssign {
    ghost use Rattle.es_rules_plain.specs.NoCondAssign.{no_cond_assign};

    ghost meaning = { no_cond_assign };

    fn id(&self) -> &str {
        "no-cond-assign"
    }

    fn kinds(&self) -> &[u16] {
        &[kind::ASSIGNMENT_EXPRESSION]
    }

    fn judge(
        &self,
        alloc: Global,
        ctx: &Ctx,
        node: u32,
        findings: &mut Vec<Finding>,
    ) -> Result<(), NoMemory> {
        let tree = &ctx.file.parsed.tree;
        if !(is_test(tree, node) || is_for_test(tree, node)) || is_excused(ctx, node) {
            return Ok(());
        }
        let text = "Expected a conditional expression and instead saw an assignment.";
        ctx.report_node(alloc, node, text, findings)
    }
}

/// Whether the node is the test of `if`, `while`, do-while or `?:`.
fn is_test(tree: &Tree, node: u32) -> bool
    ensures { result ≡ is_test tree.now node }
{
    let first = [
        kind::IF_STATEMENT,
        kind::WHILE_STATEMENT,
        kind::CONDITIONAL_EXPRESSION,
    ];
    stands_as(tree, &first, FIRST_TEST, node)
        || stands_as(tree, &[kind::DO_WHILE_STATEMENT], SECOND_TEST, node)
}

/// Whether the node is the test of a `for`.
fn is_for_test(tree: &Tree, node: u32) -> bool
    ensures { result ≡ is_for_test tree.now node }
{
    stands_as(tree, &[kind::FOR_STATEMENT], SECOND_TEST, node)
}

/// Whether the test has parentheses of its own.
fn is_excused(ctx: &Ctx, node: u32) -> bool
    requires whole { IsWhole (file_of ctx.now) }
    requires node { node < length (rows_in (file_of ctx.now)) }
    ensures { result ≡ is_excused (file_of ctx.now) node }
{
    let span = ctx.span(node);
    ctx.file.is_in_pair(span, 0)
        && (is_for_test(&ctx.file.parsed.tree, node) || ctx.file.is_in_pair(span, 1))
}
