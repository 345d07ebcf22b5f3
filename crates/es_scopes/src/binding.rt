/// What declares a name.
#[derive(Clone, Copy, Debug, PartialEq, Eq)]
pub enum DeclarationKind {
    Var,
    Let,
    Const,
    /// A function declaration, in the list in which it stands.
    Function,
    /// A class declaration, in the list in which it stands.
    Class,
    Import,
    /// A parameter of a function.
    Param,
    /// A parameter of a `catch`.
    Catch,
    /// `arguments`, which each function that isn't an arrow function has by itself.
    Arguments,
    /// The name of a class or of a function expression, as it stands inside of that.
    Own,
}
