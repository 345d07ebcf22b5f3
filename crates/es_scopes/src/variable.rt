use crate::binding::DeclarationKind;
use es_text::{Items, Txt};

/// A name of a scope, with all that declares it there.
#[derive(Drop)]
pub struct Variable {
    pub name: Txt,
    /// The number of its scope.
    pub scope: u32,
    /// What its first declaration is.
    pub kind: DeclarationKind,
    /// The Identifiers that declare it, in order: none for an `arguments` that none declares.
    pub nodes: Items<u32>,
}
