//! Fields by their index, from 0, among the fields of their kinds, child fields first.

/// What a switch decides on.
pub const DISCRIMINANT: u16 = 0;

/// The value of a declarator.
pub const INIT: u16 = 1;

/// The argument of an UpdateExpression.
pub const ARGUMENT: u16 = 0;

/// The attribute `operator` of an AssignmentExpression.
pub const OPERATOR: u16 = 2;

/// The property that a MemberExpression takes.
pub const MEMBER_PROPERTY: u16 = 1;

/// The attribute `computed` of a MemberExpression.
pub const MEMBER_COMPUTED: u16 = 2;

/// The attribute `computed` of a PropertyDefinition.
pub const FIELD_COMPUTED: u16 = 3;

/// The attribute `computed` of a MethodDefinition.
pub const METHOD_COMPUTED: u16 = 4;

/// The attribute `computed` of a Property.
pub const PROPERTY_COMPUTED: u16 = 5;
