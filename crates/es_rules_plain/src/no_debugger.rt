use es_host::{Ctx, SimpleNodeRule};
use es_text::{Finding, NoMemory};
use es_tree::kind;
use std::alloc::Global;

/// Finds each `debugger` statement.
#[derive(Drop)]
pub struct NoDebugger;

impl SimpleNodeRule for NoDebugger {
    ghost use Rattle.es_rules_plain.specs.NoDebugger.{no_debugger};

    ghost meaning = { no_debugger };

    fn id(&self) -> &str {
        "no-debugger"
    }

    fn kinds(&self) -> &[u16] {
        &[kind::DEBUGGER_STATEMENT]
    }

    fn judge(
        &self,
        alloc: Global,
        ctx: &Ctx,
        node: u32,
        findings: &mut Vec<Finding>,
    ) -> Result<(), NoMemory> {
        ctx.report_node(alloc, node, "Unexpected 'debugger' statement.", findings)
    }
}
