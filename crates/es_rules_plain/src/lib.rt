//! Rules that look at the text and the tree alone.
#![tactic(auto)]

mod default_case_last;
mod eol_last;
mod eqeqeq;
mod law;
mod literals;
mod no_cond_assign;
mod no_debugger;
mod no_duplicate_case;
mod no_empty;
mod no_extra_semi;
mod no_restricted_syntax;
mod no_sparse_arrays;
mod no_trailing_spaces;
mod no_unsafe_finally;
mod no_unsafe_negation;
mod operators;
mod restriction;
mod semi;
mod trailing_spaces;
mod valid_typeof;

pub use default_case_last::DefaultCaseLast;
pub use eol_last::EolLast;
pub use eqeqeq::Eqeqeq;
pub use law::finds_spelled;
pub use no_cond_assign::NoCondAssign;
pub use no_debugger::NoDebugger;
pub use no_duplicate_case::NoDuplicateCase;
pub use no_empty::NoEmpty;
pub use no_extra_semi::NoExtraSemi;
pub use no_restricted_syntax::NoRestrictedSyntax;
pub use no_sparse_arrays::NoSparseArrays;
pub use no_trailing_spaces::NoTrailingSpaces;
pub use no_unsafe_finally::NoUnsafeFinally;
pub use no_unsafe_negation::NoUnsafeNegation;
pub use semi::Semi;
pub use valid_typeof::ValidTypeof;
