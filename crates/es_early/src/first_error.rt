//! The first early error of a tree.
ghost use Rattle.std.specs.Prelude.{◌≡◌, IfNone, IfOk, IfSome};
ghost use Rattle.es_early.specs.Lookups.{AreFirsts, IsLeastCode, earlier_of};
ghost use Rattle.es_early.specs.Errors.{HasNone, IsFirst};
ghost use Rattle.es_early.specs.Errors.{is_before};

use crate::code::{
    DOUBLED_LABEL, Early, REDECLARED, SECOND_DEFAULT, STRAY_BREAK, STRAY_CONTINUE, STRAY_RETURN,
    STRAY_SUPER, UNDECLARED_PRIVATE,
};
use crate::declarations::{first_declared, first_lexical, is_redeclared};
use crate::defaults::{first_defaults, is_second_default};
use crate::firsts::Firsts;
use crate::jumps::{is_stray_break, is_stray_continue};
use crate::labels::is_doubled_label;
use crate::private_names::{first_private_names, is_undeclared_private};
use crate::returns::is_stray_return;
use crate::supers::is_stray_super;
use es_text::{NoMemory, SourceType};
use es_tree::Tree;
use std::alloc::Global;

/// What is looked up of the tree.
fn firsts_of<'a>(alloc: Global, tree: &'a Tree) -> Result<Firsts<'a>, NoMemory>
    ensures { IfOk result (AreFirsts tree.now) }
{
    let lexical = first_lexical(alloc, tree)?;
    let declared = first_declared(alloc, tree, &lexical)?;
    let private_names = first_private_names(alloc, tree)?;
    let defaults = first_defaults(alloc, tree)?;
    Ok(Firsts {
        lexical,
        declared,
        private_names,
        defaults,
    })
}

/// The least code of the errors that the node is.
fn code_at<'a>(
    alloc: Global,
    tree: &'a Tree,
    source_type: SourceType,
    firsts: &Firsts<'a>,
    node: u32,
) -> Result<Option<u8>, NoMemory>
    requires { AreFirsts tree.now firsts.now }
    ensures { IfOk result (IsLeastCode tree.now source_type node) }
{
    if is_stray_return(tree, source_type, node) {
        return Ok(Some(STRAY_RETURN));
    }
    if is_stray_break(tree, node) {
        return Ok(Some(STRAY_BREAK));
    }
    if is_stray_continue(tree, node) {
        return Ok(Some(STRAY_CONTINUE));
    }
    if is_doubled_label(tree, node) {
        return Ok(Some(DOUBLED_LABEL));
    }
    if is_redeclared(alloc, tree, &firsts.lexical, &firsts.declared, node)? {
        return Ok(Some(REDECLARED));
    }
    if is_undeclared_private(tree, &firsts.private_names, node) {
        return Ok(Some(UNDECLARED_PRIVATE));
    }
    if is_stray_super(tree, node) {
        return Ok(Some(STRAY_SUPER));
    }
    if is_second_default(tree, &firsts.defaults, node) {
        return Ok(Some(SECOND_DEFAULT));
    }
    Ok(None)
}

/// Whether the one starts before the other, or at the same place and has a smaller code, or the same and
/// ends no later.
fn is_before(first: Early, other: Early) -> bool
    ensures { result ≡ is_before first other }
{
    first.span.start < other.span.start
        || (first.span.start == other.span.start
            && (first.code < other.code
                || (first.code == other.code && first.span.end <= other.span.end)))
}

/// The earlier of both, of which the first may be missing.
fn earlier(first: Option<Early>, other: Early) -> Early
    ensures { result ≡ earlier_of first other }
{
    match first {
        Some(first) => {
            if is_before(first, other) {
                first
            } else {
                other
            }
        }
        None => other,
    }
}

/// The first early error of the tree, by the start of its span, then by its code and by its end, or
/// `None` where it has none. The source type says whether the Program is the body of a function.
///
/// Takes time in proportion to the nodes, each of which may look at those around it, and to the
/// scopes in which each name counts.
pub fn early(alloc: Global, tree: &Tree, source_type: SourceType) -> Result<Option<Early>, NoMemory>
    ensures some { IfOk result (λ found. IfSome found (IsFirst tree.now source_type)) }
    ensures none { IfOk result (λ found. IfNone found (HasNone tree.now source_type)) }
{
    let firsts = firsts_of(alloc, tree)?;
    let mut first = None;
    for node in 0..tree.count() {
        if let Some(code) = code_at(alloc, tree, source_type, &firsts, node)? {
            let span = tree.span(node);
            first = Some(earlier(first, Early { code, span }));
        }
    }
    Ok(first)
}
