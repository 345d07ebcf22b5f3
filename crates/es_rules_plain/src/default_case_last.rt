ghost use Rattle.std.specs.Prelude.{◌≡◌, ◌<◌, is_none, length, IfOk};
ghost use Rattle.es_tree.specs.Around.{child};
ghost use Rattle.es_rules_plain.specs.DefaultCaseLast.{is_last, should_be_last};

use es_host::{Ctx, SimpleNodeRule, count_places, plain};
use es_text::{Finding, NoMemory, Txt};
use es_tree::{Tree, kind};
use std::alloc::Global;

/// The field of a switch that has its clauses.
const CASES: u16 = 1;

/// The field of a clause that has its test.
const TEST: u16 = 0;

/// Finds each `default` that isn't the last clause of its switch.
#[derive(Drop)]
pub struct DefaultCaseLast;

impl SimpleNodeRule for DefaultCaseLast {
    ghost use Rattle.es_rules_plain.specs.DefaultCaseLast.{default_case_last};

    ghost meaning = { default_case_last };

    fn id(&self) -> &str {
        "default-case-last"
    }

    fn kinds(&self) -> &[u16] {
        &[kind::SWITCH_CASE]
    }

    fn judge(
        &self,
        alloc: Global,
        ctx: &Ctx,
        node: u32,
        findings: &mut Vec<Finding>,
    ) -> Result<(), NoMemory> {
        let tree = &ctx.file.parsed.tree;
        if !is_default(tree, node) || is_last(tree, node) {
            return Ok(());
        }
        ctx.report(ctx.span(node), should_be_last(alloc)?, None, findings)
    }
}

/// Whether the clause has no test.
fn is_default(tree: &Tree, node: u32) -> bool
    requires { node < length tree.now }
    ensures { result ≡ is_none (child tree.now node TEST) }
{
    tree.field(node, TEST, 0).is_none()
}

/// Whether the clause is the last of its switch.
fn is_last(tree: &Tree, node: u32) -> bool
    requires { node < length tree.now }
    ensures { result ≡ is_last tree.now node }
{
    match tree.parent(node) {
        None => true,
        Some(switch) => {
            let last = count_places(tree, switch, CASES).saturating_sub(1);
            tree.field(switch, CASES, last) == Some(node)
        }
    }
}

#[tactic(auto, unfolding(crate::specs::DefaultCaseLast::should_be_last))]
fn should_be_last(alloc: Global) -> Result<Txt, NoMemory>
    ensures { IfOk result (λ text. text ≡ should_be_last) }
{
    plain(alloc, "Default clause should be the last clause.")
}
