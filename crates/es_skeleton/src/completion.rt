ghost use Rattle.std.specs.Prelude.{◌≡◌};
ghost use Rattle.es_skeleton.specs.Completions.{same};

/// How a part of a program ends, without its value (ECMA-262, 6.2.4). One that is cut off has none.
#[derive(Clone, Copy)]
pub enum Completion {
    /// A normal end.
    Normal,
    /// The normal end of an expression that is a test, with its truth.
    Truth(bool),
    /// `break`, with the node that it aims at.
    Break(u32),
    /// `continue`, with the loop that it aims at.
    Continue(u32),
    Return,
    Throw,
    /// The end of an optional chain whose object is missing.
    Short,
}

impl Completion {
    pub(crate) fn is(self, other: Completion) -> bool
        ensures { result ≡ same self other }
    {
        match (self, other) {
            (Completion::Normal, Completion::Normal) => true,
            (Completion::Truth(left), Completion::Truth(right)) => left == right,
            (Completion::Break(left), Completion::Break(right)) => left == right,
            (Completion::Continue(left), Completion::Continue(right)) => left == right,
            (Completion::Return, Completion::Return) => true,
            (Completion::Throw, Completion::Throw) => true,
            (Completion::Short, Completion::Short) => true,
            _ => false,
        }
    }
}
