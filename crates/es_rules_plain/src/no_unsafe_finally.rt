ghost use Rattle.std.specs.Prelude.{◌≡◌, IfOk};
ghost use Rattle.es_early.specs.Labels.{is_labelled};
ghost use Rattle.es_rules_plain.specs.NoUnsafeFinally.{aims_at, leaves_finalizer, unsafe_usage};

use es_host::{Ctx, SimpleNodeRule, plain};
use es_text::{Finding, NoMemory, Txt};
use es_tree::field::LABEL;
use es_tree::kinds::{LOOPS, LOOPS_AND_SWITCHES};
use es_tree::{Ancestors, Tree, child, is_one_of, kind, same_name, stands_as};
use std::alloc::Global;

/// The field of a `try` that has its finalizer.
const FINALIZER: u16 = 2;

/// What a jump doesn't leave.
const FUNCTIONS_AND_CLASSES: [u16; 5] = [
    kind::FUNCTION_DECLARATION,
    kind::FUNCTION_EXPRESSION,
    kind::ARROW_FUNCTION_EXPRESSION,
    kind::CLASS_DECLARATION,
    kind::CLASS_EXPRESSION,
];

/// Finds each jump that leaves a finalizer.
#[derive(Drop)]
pub struct NoUnsafeFinally;

impl SimpleNodeRule for NoUnsafeFinally {
    ghost use Rattle.es_rules_plain.specs.NoUnsafeFinally.{no_unsafe_finally};

    ghost meaning = { no_unsafe_finally };

    fn id(&self) -> &str {
        "no-unsafe-finally"
    }

    fn kinds(&self) -> &[u16] {
        &[
            kind::RETURN_STATEMENT,
            kind::THROW_STATEMENT,
            kind::BREAK_STATEMENT,
            kind::CONTINUE_STATEMENT,
        ]
    }

    fn judge(
        &self,
        alloc: Global,
        ctx: &Ctx,
        node: u32,
        findings: &mut Vec<Finding>,
    ) -> Result<(), NoMemory> {
        let tree = &ctx.file.parsed.tree;
        if !leaves_finalizer(tree, node) {
            return Ok(());
        }
        let text = unsafe_usage(alloc, tree.kind(node))?;
        ctx.report(ctx.span(node), text, None, findings)
    }
}

/// Whether the jump leaves a finalizer.
fn leaves_finalizer(tree: &Tree, jump: u32) -> bool
    ensures { result ≡ leaves_finalizer tree.now jump }
{
    for around in Ancestors::of(tree, jump) {
        if is_one_of(tree, &FUNCTIONS_AND_CLASSES, around) || aims_at(tree, jump, around) {
            return false;
        }
        if stands_as(tree, &[kind::TRY_STATEMENT], FINALIZER, around) {
            return true;
        }
    }
    false
}

/// Whether the jump aims at the statement around it.
fn aims_at(tree: &Tree, jump: u32, statement: u32) -> bool
    ensures { result ≡ aims_at tree.now jump statement }
{
    match child(tree, jump, LABEL) {
        Some(label) => {
            is_one_of(
                tree,
                &[kind::BREAK_STATEMENT, kind::CONTINUE_STATEMENT],
                jump,
            ) && is_labelled(tree, label, statement)
        }
        None => {
            (is_one_of(tree, &[kind::BREAK_STATEMENT], jump)
                && is_one_of(tree, &LOOPS_AND_SWITCHES, statement))
                || (is_one_of(tree, &[kind::CONTINUE_STATEMENT], jump)
                    && is_one_of(tree, &LOOPS, statement))
        }
    }
}

/// Whether the statement is a labelled one, of this label.
fn is_labelled(tree: &Tree, label: u32, statement: u32) -> bool
    ensures { result ≡ is_labelled tree.now label statement }
{
    is_one_of(tree, &[kind::LABELED_STATEMENT], statement)
        && match child(tree, statement, LABEL) {
            Some(named) => same_name(tree, named, label),
            None => false,
        }
}

/// What is said of a jump of this kind.
#[tactic(auto, unfolding(crate::specs::NoUnsafeFinally::unsafe_usage))]
fn unsafe_usage(alloc: Global, kind: u16) -> Result<Txt, NoMemory>
    ensures { IfOk result (λ text. text ≡ unsafe_usage kind) }
{
    match kind {
        kind::RETURN_STATEMENT => plain(alloc, "Unsafe usage of ReturnStatement."),
        kind::THROW_STATEMENT => plain(alloc, "Unsafe usage of ThrowStatement."),
        kind::BREAK_STATEMENT => plain(alloc, "Unsafe usage of BreakStatement."),
        _ => plain(alloc, "Unsafe usage of ContinueStatement."),
    }
}
