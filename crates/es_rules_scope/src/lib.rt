//! Rules that look at the scopes of a file, at its labels, and at what is declared and never used.
#![tactic(auto)]

mod exports;
mod field;
mod globals;
mod marks;
mod no_const_assign;
mod no_undef;
mod no_unused_labels;
mod no_unused_vars;
mod say;

pub use no_const_assign::NoConstAssign;
pub use no_undef::NoUndef;
pub use no_unused_labels::NoUnusedLabels;
pub use no_unused_vars::NoUnusedVars;
