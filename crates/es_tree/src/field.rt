//! Fields by their index, from 0, among the fields of their kinds, child fields first.

/// The callee of a call.
pub const CALLEE: u16 = 0;

/// The heritage of a class, which `extends` gives.
pub const SUPER_CLASS: u16 = 1;

/// The key of a member of a class.
pub const KEY: u16 = 0;

/// The value of a member of a class or of a property.
pub const VALUE: u16 = 1;

/// The attribute `kind` of a member of a class or of a property.
pub const MEMBER_KIND: u16 = 2;

/// The attribute `method` of a property.
pub const METHOD: u16 = 3;

/// The label of a labelled statement, a `break` or a `continue`.
pub const LABEL: u16 = 0;

/// The test of a case of a switch.
pub const TEST: u16 = 0;

/// The attribute `name` of a name.
pub const NAME: u16 = 0;

/// The attribute `kind` of a declaration of variables.
pub const DECLARATION_KIND: u16 = 1;

/// What a declarator, a function or a class has as its name or pattern.
pub const ID: u16 = 0;

/// The body of a function that isn't an arrow function.
pub const FUNCTION_BODY: u16 = 2;

/// The body of an arrow function.
pub const ARROW_BODY: u16 = 1;

/// The parameter of a `catch`.
pub const CATCH_PARAMETER: u16 = 0;

/// The left side of an AssignmentPattern.
pub const LEFT: u16 = 0;

/// The local name of an import of one name.
pub const IMPORTED_LOCAL: u16 = 1;

/// The local name of an import of the default or of the namespace.
pub const LOCAL: u16 = 0;
