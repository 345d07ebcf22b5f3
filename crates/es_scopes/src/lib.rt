//! The scopes of a tree, what is declared in them, and what its Identifiers refer to.
#![tactic(auto)]

mod binding;
mod bindings;
mod chain;
mod deciding;
mod declarations;
mod field;
mod number;
mod opened;
mod places;
mod resolved;
mod scope;
mod scopes;
mod uses;
mod variable;
mod variables;

pub use binding::DeclarationKind;
pub use scopes::{Scopes, analyse};
pub use uses::Reference;
pub use variable::Variable;
