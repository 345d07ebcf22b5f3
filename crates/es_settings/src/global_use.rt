/// Whether a name that a configuration or a comment lists is a global variable, as ESLint's `globals`.
#[derive(Clone, Copy, Debug, PartialEq, Eq)]
pub enum GlobalUse {
    /// It isn't one, also where it is built in.
    Off,
    /// It is one.
    On,
}
