ghost use Rattle.std.specs.Prelude.{◌≡◌, ◌<◌, length};
ghost use Rattle.es_rules_plain.specs.NoSparseArrays.{has_hole};

use es_host::{Ctx, SimpleNodeRule, count_places};
use es_text::{Finding, NoMemory};
use es_tree::{Tree, kind};
use std::alloc::Global;

/// The field of an array that has its elements.
const ELEMENTS: u16 = 0;

/// Finds each array with a hole.
#[derive(Drop)]
pub struct NoSparseArrays;

impl SimpleNodeRule for NoSparseArrays {
    ghost use Rattle.es_rules_plain.specs.NoSparseArrays.{no_sparse_arrays};

    ghost meaning = { no_sparse_arrays };

    fn id(&self) -> &str {
        "no-sparse-arrays"
    }

    fn kinds(&self) -> &[u16] {
        &[kind::ARRAY_EXPRESSION]
    }

    fn judge(
        &self,
        alloc: Global,
        ctx: &Ctx,
        node: u32,
        findings: &mut Vec<Finding>,
    ) -> Result<(), NoMemory> {
        if !has_hole(&ctx.file.parsed.tree, node) {
            return Ok(());
        }
        ctx.report_node(
            alloc,
            node,
            "Unexpected comma in middle of array.",
            findings,
        )
    }
}

/// Whether a hole stands among the array's elements.
fn has_hole(tree: &Tree, node: u32) -> bool
    requires { node < length tree.now }
    ensures { result ≡ has_hole tree.now node }
{
    for index in 0..count_places(tree, node, ELEMENTS) {
        if tree.field(node, ELEMENTS, index).is_none() {
            return true;
        }
    }
    false
}
