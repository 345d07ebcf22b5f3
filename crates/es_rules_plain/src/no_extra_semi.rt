ghost use Rattle.std.specs.Prelude.{◌≡◌, IfOk};
ghost use Rattle.es_tree.specs.Around.{is_among};
ghost use Rattle.es_rules_plain.specs.NoExtraSemi.{unnecessary, with_body};

use es_host::{Ctx, SimpleNodeRule, plain};
use es_text::{Finding, Fix, NoMemory, Txt};
use es_tree::kind;
use std::alloc::Global;

/// Finds each empty statement that is no body, and mends it by taking it away.
#[derive(Drop)]
pub struct NoExtraSemi;

impl SimpleNodeRule for NoExtraSemi {
    ghost use Rattle.es_rules_plain.specs.NoExtraSemi.{no_extra_semi};

    ghost meaning = { no_extra_semi };

    fn id(&self) -> &str {
        "no-extra-semi"
    }

    fn kinds(&self) -> &[u16] {
        &[kind::EMPTY_STATEMENT]
    }

    fn judge(
        &self,
        alloc: Global,
        ctx: &Ctx,
        node: u32,
        findings: &mut Vec<Finding>,
    ) -> Result<(), NoMemory> {
        if has_body(ctx.parent_kind(node)) {
            return Ok(());
        }
        let span = ctx.span(node);
        let fix = Fix {
            span,
            text: plain(alloc, "")?,
        };
        ctx.report(span, unnecessary(alloc)?, Some(fix), findings)
    }
}

/// Whether a node of this kind has a statement as its body.
fn has_body(kind: Option<u16>) -> bool
    ensures { result ≡ is_among with_body kind }
{
    match kind {
        None => false,
        Some(kind) => [
            kind::DO_WHILE_STATEMENT,
            kind::FOR_IN_STATEMENT,
            kind::FOR_OF_STATEMENT,
            kind::FOR_STATEMENT,
            kind::WHILE_STATEMENT,
            kind::IF_STATEMENT,
            kind::WITH_STATEMENT,
            kind::LABELED_STATEMENT,
        ]
        .contains(&kind),
    }
}

#[tactic(auto, unfolding(crate::specs::NoExtraSemi::unnecessary))]
fn unnecessary(alloc: Global) -> Result<Txt, NoMemory>
    ensures { IfOk result (λ text. text ≡ unnecessary) }
{
    plain(alloc, "Unnecessary semicolon.")
}
