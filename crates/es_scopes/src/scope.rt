/// What a scope is of.
#[derive(Clone, Copy, Debug, PartialEq, Eq)]
pub enum ScopeKind {
    Program,
    /// A function with its parameters.
    Function,
    Block,
    Switch,
    /// A `for` statement of any kind.
    For,
    Catch,
    /// A class, which has its own name in it.
    Class,
    /// A named function expression, which has its own name in it and the function's scope.
    Name,
    StaticBlock,
    /// The value of a class field.
    Field,
}

/// A scope, and the number of the one around it, or `None` for the Program's.
#[derive(Clone, Copy, Debug, PartialEq, Eq)]
pub struct Scope {
    pub kind: ScopeKind,
    pub parent: Option<u32>,
}
