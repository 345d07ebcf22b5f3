//! Fields by their index, from 0, among the fields of their kinds, child fields first.

/// The attribute `operator` of a UnaryExpression.
pub const UNARY_OPERATOR: u16 = 1;

/// The module that an export takes names from.
pub const SOURCE: u16 = 2;

/// What an entry of a list of exports names here.
pub const EXPORTED_LOCAL: u16 = 0;
