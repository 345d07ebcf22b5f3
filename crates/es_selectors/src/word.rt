//! The words behind a colon.
use crate::selector::Group;

/// What takes a selector in parentheses.
#[derive(Clone, Copy)]
pub enum Nest {
    Not,
    Is,
    Has,
}

/// A word behind a colon, with the parenthesis that opens where it takes something.
#[derive(Clone, Copy)]
pub enum Word {
    Group(Group),
    FirstChild,
    LastChild,
    NthChild,
    NthLastChild,
    Nest(Nest),
}
