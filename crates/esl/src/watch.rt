//! Rules for tests, which say where each node of one kind stands.
use es_host::{Ctx, NodeRule, SimpleNodeRule, no_options, of_kinds, plain};
use es_selectors::Selector;
use es_settings::Verdict;
use es_text::{Finding, Fix, NoMemory};
use es_tree::kind;
use serde_json::Value;
use std::alloc::Global;

/// Says the span of each empty statement. Its message is its id.
#[derive(Drop)]
pub(crate) struct WatchEmpty;

impl SimpleNodeRule for WatchEmpty {
    ghost use Rattle.std.specs.Prelude.{[], ◌∷◌, None, codes};
    ghost use Rattle.es_tree.specs.declared.kind.TheConstants.{EMPTY_STATEMENT};
    ghost use Rattle.es_host.specs.Files.{rows_in};
    ghost use Rattle.es_host.specs.Nodes.{found, span_at};

    ghost meaning = { record {
      id = codes "empty";
      kinds = EMPTY_STATEMENT ∷ [];
      finds = λ file node. found (span_at (rows_in file) node) (codes "empty") None ∷ [];
    } };

    fn id(&self) -> &str {
        "empty"
    }

    fn kinds(&self) -> &[u16] {
        &[kind::EMPTY_STATEMENT]
    }

    fn judge(
        &self,
        alloc: Global,
        ctx: &Ctx,
        node: u32,
        findings: &mut Vec<Finding>,
    ) -> Result<(), NoMemory> {
        ctx.report_node(alloc, node, "empty", findings)
    }
}

/// Says the span of each name. Its message is its id.
#[derive(Drop)]
pub(crate) struct WatchNames {
    /// How often it still answers that it is out of memory.
    pub(crate) refusals: u32,
}

impl NodeRule for WatchNames {
    ghost use Rattle.std.specs.Prelude.{[], ◌∷◌, None, codes};
    ghost use Rattle.es_tree.specs.declared.kind.TheConstants.{IDENTIFIER};
    ghost use Rattle.es_host.specs.Files.{rows_in};
    ghost use Rattle.es_host.specs.Nodes.{found, of_kind, span_at, takes_none};

    ghost meaning = { record {
      id = codes "name";
      verdict = takes_none;
      interest = λ options. of_kind IDENTIFIER ∷ [];
      finds = λ file options node which. found (span_at (rows_in file) node) (codes "name") None ∷ [];
    } };

    ghost keeps = { λ _ _. Unit {0} };

    fn id(&self) -> &str {
        "name"
    }

    fn verdict(&self, _alloc: Global, options: &[Value]) -> Result<Verdict, NoMemory> {
        Ok(no_options(options))
    }

    fn set(&mut self, _alloc: Global, _options: &[Value]) -> Result<(), NoMemory> {
        if self.refusals > 0 {
            self.refusals -= 1;
            return Err(NoMemory);
        }
        Ok(())
    }

    fn interest(&self, alloc: Global) -> Result<Vec<Selector>, NoMemory> {
        of_kinds(alloc, &[kind::IDENTIFIER])
    }

    fn judge(
        &self,
        alloc: Global,
        ctx: &Ctx,
        node: u32,
        _which: u32,
        findings: &mut Vec<Finding>,
    ) -> Result<(), NoMemory> {
        ctx.report_node(alloc, node, "name", findings)
    }
}

/// Finds each `this`, and puts an empty array in its place.
#[derive(Drop)]
pub(crate) struct ToArray;

impl SimpleNodeRule for ToArray {
    ghost use Rattle.std.specs.Prelude.{[], ◌∷◌, Some, codes};
    ghost use Rattle.es_tree.specs.declared.kind.TheConstants.{THIS_EXPRESSION};
    ghost use Rattle.es_host.specs.Files.{rows_in};
    ghost use Rattle.es_host.specs.Nodes.{found, span_at};

    ghost meaning = { record {
      id = codes "this";
      kinds = THIS_EXPRESSION ∷ [];
      finds = λ file node. found (span_at (rows_in file) node) (codes "no")
          (Some (record { span = span_at (rows_in file) node; text = codes "[]" })) ∷ [];
    } };

    fn id(&self) -> &str {
        "this"
    }

    fn kinds(&self) -> &[u16] {
        &[kind::THIS_EXPRESSION]
    }

    fn judge(
        &self,
        alloc: Global,
        ctx: &Ctx,
        node: u32,
        findings: &mut Vec<Finding>,
    ) -> Result<(), NoMemory> {
        let span = ctx.span(node);
        let fix = Fix {
            span,
            text: plain(alloc, "[]")?,
        };
        ctx.report(span, plain(alloc, "no")?, Some(fix), findings)
    }
}

/// Finds each array, and puts `this` in its place.
#[derive(Drop)]
pub(crate) struct ToThis;

impl SimpleNodeRule for ToThis {
    ghost use Rattle.std.specs.Prelude.{[], ◌∷◌, Some, codes};
    ghost use Rattle.es_tree.specs.declared.kind.TheConstants.{ARRAY_EXPRESSION};
    ghost use Rattle.es_host.specs.Files.{rows_in};
    ghost use Rattle.es_host.specs.Nodes.{found, span_at};

    ghost meaning = { record {
      id = codes "array";
      kinds = ARRAY_EXPRESSION ∷ [];
      finds = λ file node. found (span_at (rows_in file) node) (codes "no")
          (Some (record { span = span_at (rows_in file) node; text = codes "this" })) ∷ [];
    } };

    fn id(&self) -> &str {
        "array"
    }

    fn kinds(&self) -> &[u16] {
        &[kind::ARRAY_EXPRESSION]
    }

    fn judge(
        &self,
        alloc: Global,
        ctx: &Ctx,
        node: u32,
        findings: &mut Vec<Finding>,
    ) -> Result<(), NoMemory> {
        let span = ctx.span(node);
        let fix = Fix {
            span,
            text: plain(alloc, "this")?,
        };
        ctx.report(span, plain(alloc, "no")?, Some(fix), findings)
    }
}
