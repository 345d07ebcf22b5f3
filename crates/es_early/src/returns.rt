//! A `return` outside of a function.
ghost use Rattle.std.specs.Prelude.{◌≡◌};
ghost use Rattle.es_early.specs.Returns.{function_around, is_stray_return, lets_return};

use es_text::SourceType;
use es_tree::kind::RETURN_STATEMENT;
use es_tree::kinds::{FUNCTIONS, FUNCTIONS_AND_STATIC_BLOCKS};
use es_tree::{Ancestors, Tree, is_one_of};

/// The innermost function or static block around the node.
fn function_around(tree: &Tree, node: u32) -> Option<u32>
    ensures { result ≡ function_around tree.now node }
{
    for around in Ancestors::of(tree, node) {
        if is_one_of(tree, &FUNCTIONS_AND_STATIC_BLOCKS, around) {
            return Some(around);
        }
    }
    None
}

/// Whether the innermost function or static block, if there is one, lets a `return` stand.
fn lets_return(tree: &Tree, source_type: SourceType, around: Option<u32>) -> bool
    ensures { result ≡ lets_return tree.now source_type around }
{
    match around {
        Some(around) => is_one_of(tree, &FUNCTIONS, around),
        None => source_type == SourceType::Commonjs,
    }
}

/// Whether the node is a `return` outside of a function.
pub fn is_stray_return(tree: &Tree, source_type: SourceType, node: u32) -> bool
    ensures { result ≡ is_stray_return tree.now source_type node }
{
    is_one_of(tree, &[RETURN_STATEMENT], node)
        && !lets_return(tree, source_type, function_around(tree, node))
}
