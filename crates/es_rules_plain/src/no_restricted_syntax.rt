ghost use Rattle.std.specs.Prelude.{◌≡◌};

use crate::restriction::{Restriction, restrictions_in, selectors_of, verdict_on};
use es_host::{Ctx, NodeRule};
use es_selectors::Selector;
use es_settings::Verdict;
use es_text::{Finding, NoMemory};
use serde_json::Value;
use std::alloc::Global;

/// Finds each node that a selector of its options matches, once for each selector.
///
/// An option is a selector as a text, or an object with a text `selector` and perhaps a text `message`.
#[derive(Drop)]
pub struct NoRestrictedSyntax {
    restrictions: Vec<Restriction>,
}

impl NoRestrictedSyntax {
    /// The rule without options, which finds nothing.
    pub fn new(alloc: Global) -> NoRestrictedSyntax {
        NoRestrictedSyntax {
            restrictions: Vec::new(alloc),
        }
    }
}

impl NodeRule for NoRestrictedSyntax {
    ghost use Rattle.std.specs.Prelude.{◌≡◌};
    ghost use Rattle.es_rules_plain.specs.NoRestrictedSyntax.{no_restricted_syntax};
    ghost use Rattle.es_rules_plain.specs.Restrictions.{restrictions};

    ghost meaning = { no_restricted_syntax };

    ghost keeps = { λ rule options. rule.restrictions.items ≡ restrictions options };

    fn id(&self) -> &str {
        "no-restricted-syntax"
    }

    fn verdict(&self, alloc: Global, options: &[Value]) -> Result<Verdict, NoMemory> {
        verdict_on(alloc, options)
    }

    fn set(&mut self, alloc: Global, options: &[Value]) -> Result<(), NoMemory> {
        self.restrictions = restrictions_in(alloc, options)?;
        Ok(())
    }

    fn interest(&self, alloc: Global) -> Result<Vec<Selector>, NoMemory> {
        selectors_of(alloc, self.restrictions.as_slice())
    }

    fn judge(
        &self,
        alloc: Global,
        ctx: &Ctx,
        node: u32,
        which: u32,
        findings: &mut Vec<Finding>,
    ) -> Result<(), NoMemory> {
        match self.restrictions.as_slice().get(which as usize) {
            Some(restriction) => {
                let text = restriction.text.copy(alloc)?;
                ctx.report(ctx.span(node), text, None, findings)
            }
            None => Ok(()),
        }
    }
}
