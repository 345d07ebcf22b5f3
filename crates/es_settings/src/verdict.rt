/// What a rule has to say of options for it.
#[derive(Clone, Copy, Debug, PartialEq, Eq)]
pub enum Verdict {
    /// It takes them.
    Fine,
    /// One of them isn't as it asks for.
    BadOption,
    /// One of them is a selector that isn't read.
    BadSelector,
}
