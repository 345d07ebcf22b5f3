/// What a place of a program allows, which goes down from a symbol to those that it reads.
#[derive(Clone, Copy, Debug, PartialEq, Eq)]
pub struct Context {
    /// `await` is an operator here.
    pub await_operator: bool,
    /// `yield` is an operator here.
    pub yield_operator: bool,
    /// `in` is read as an operator here.
    pub in_operator: bool,
    /// The source is a module.
    pub in_module: bool,
}

/// How the context changes on the way to a symbol.
#[derive(Clone, Copy, Debug, PartialEq, Eq)]
pub enum Change {
    /// It stays.
    Same,
    /// Between brackets the operator `in` is read again.
    Brackets,
    /// The operator `in` isn't read.
    WithoutIn,
    /// Inside of a function that is neither async nor a generator, a field's value or a static block.
    Plain,
    /// Inside of an async function.
    Async,
    /// Inside of a generator.
    Generator,
    /// Inside of an async generator.
    AsyncGenerator,
}

/// Where reading begins.
#[derive(Clone, Copy, Debug, PartialEq, Eq)]
pub struct Spot {
    /// The offset in the text.
    pub at: u32,
    pub context: Context,
    /// How many symbols that take room may still stand inside of one another.
    pub room: u32,
}
