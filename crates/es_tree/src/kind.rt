//! The kinds of nodes. A kind's code is its index, from 0, among the kinds in the order in which
//! `es_tables` lists them; what ties each constant to its kind is a test.
//!
//! Above each constant stand the fields: first those for children in the order of the walk, where `*`
//! is a list and `?` may be missing, and behind the bar the attributes. In brackets is the part of
//! the ESTree specification that has the kind. A list field has besides an attribute `length`, its
//! holes counted.

/// `body* | sourceType` (ES5, Programs)
pub const PROGRAM: u16 = 0;

/// `expression | directive` (ES5, Statements, ExpressionStatement; Directive)
pub const EXPRESSION_STATEMENT: u16 = 1;

/// `body*` (ES5, Statements, BlockStatement)
pub const BLOCK_STATEMENT: u16 = 2;

/// `body*` (ES2022, Classes)
pub const STATIC_BLOCK: u16 = 3;

/// `body*` (ES2015, Classes)
pub const CLASS_BODY: u16 = 4;

/// No fields (ES5, Statements, EmptyStatement)
pub const EMPTY_STATEMENT: u16 = 5;

/// No fields (ES5, Statements, DebuggerStatement)
pub const DEBUGGER_STATEMENT: u16 = 6;

/// No fields (ES5, Expressions)
pub const THIS_EXPRESSION: u16 = 7;

/// No fields (ES2015, Expressions)
pub const SUPER: u16 = 8;

/// `object, body` (ES5, Statements, WithStatement)
pub const WITH_STATEMENT: u16 = 9;

/// `argument?` (ES5, Statements, Control Flow)
pub const RETURN_STATEMENT: u16 = 10;

/// `argument?` (ES5, Statements, Exceptions)
pub const THROW_STATEMENT: u16 = 11;

/// `label, body` (ES5, Statements, Control Flow)
pub const LABELED_STATEMENT: u16 = 12;

/// `label?` (ES5, Statements, Control Flow)
pub const BREAK_STATEMENT: u16 = 13;

/// `label?` (ES5, Statements, Control Flow)
pub const CONTINUE_STATEMENT: u16 = 14;

/// `test, consequent, alternate?` (ES5, Statements, Choice)
pub const IF_STATEMENT: u16 = 15;

/// `discriminant, cases*` (ES5, Statements, Choice)
pub const SWITCH_STATEMENT: u16 = 16;

/// `test?, consequent*` (ES5, Statements, Choice)
pub const SWITCH_CASE: u16 = 17;

/// `block, handler?, finalizer?` (ES5, Statements, Exceptions)
pub const TRY_STATEMENT: u16 = 18;

/// `param?, body` (ES5, Statements, Exceptions)
pub const CATCH_CLAUSE: u16 = 19;

/// `test, body` (ES5, Statements, Loops)
pub const WHILE_STATEMENT: u16 = 20;

/// `body, test` (ES5, Statements, Loops)
pub const DO_WHILE_STATEMENT: u16 = 21;

/// `init?, test?, update?, body` (ES5, Statements, Loops)
pub const FOR_STATEMENT: u16 = 22;

/// `left, right, body` (ES5, Statements, Loops)
pub const FOR_IN_STATEMENT: u16 = 23;

/// `left, right, body | await` (ES2015, Statements, ForOfStatement)
pub const FOR_OF_STATEMENT: u16 = 24;

/// `id?, params*, body | async, generator` (ES5, Declarations, FunctionDeclaration)
pub const FUNCTION_DECLARATION: u16 = 25;

/// `id?, params*, body | async, generator` (ES5, Expressions, FunctionExpression)
pub const FUNCTION_EXPRESSION: u16 = 26;

/// `params*, body | async, expression` (ES2015, Expressions)
pub const ARROW_FUNCTION_EXPRESSION: u16 = 27;

/// `declarations* | kind` (ES5, Declarations, VariableDeclaration)
pub const VARIABLE_DECLARATION: u16 = 28;

/// `id, init?` (ES5, Declarations, VariableDeclaration)
pub const VARIABLE_DECLARATOR: u16 = 29;

/// `id?, superClass?, body` (ES2015, Classes)
pub const CLASS_DECLARATION: u16 = 30;

/// `id?, superClass?, body` (ES2015, Classes)
pub const CLASS_EXPRESSION: u16 = 31;

/// `key, value | kind, static, computed` (ES2015, Classes)
pub const METHOD_DEFINITION: u16 = 32;

/// `key, value? | static, computed` (ES2022, Classes)
pub const PROPERTY_DEFINITION: u16 = 33;

/// `| name` (ES5, Identifier)
pub const IDENTIFIER: u16 = 34;

/// `| name` (ES2022, Classes)
pub const PRIVATE_IDENTIFIER: u16 = 35;

/// `| raw, value, regex, bigint` (ES5, Literal)
pub const LITERAL: u16 = 36;

/// `elements*` (ES5, Expressions)
pub const ARRAY_EXPRESSION: u16 = 37;

/// `elements*` (ES2015, Patterns)
pub const ARRAY_PATTERN: u16 = 38;

/// `properties*` (ES5, Expressions, ObjectExpression)
pub const OBJECT_EXPRESSION: u16 = 39;

/// `properties*` (ES2015, Patterns)
pub const OBJECT_PATTERN: u16 = 40;

/// `key, value | kind, method, shorthand, computed` (ES5, Expressions, ObjectExpression)
pub const PROPERTY: u16 = 41;

/// `argument | operator, prefix` (ES5, Expressions, Unary operations)
pub const UNARY_EXPRESSION: u16 = 42;

/// `argument | operator, prefix` (ES5, Expressions, Unary operations)
pub const UPDATE_EXPRESSION: u16 = 43;

/// `left, right | operator` (ES5, Expressions, Binary operations)
pub const BINARY_EXPRESSION: u16 = 44;

/// `left, right | operator` (ES5, Expressions, Binary operations)
pub const LOGICAL_EXPRESSION: u16 = 45;

/// `left, right | operator` (ES5, Expressions, Binary operations)
pub const ASSIGNMENT_EXPRESSION: u16 = 46;

/// `left, right` (ES2015, Patterns)
pub const ASSIGNMENT_PATTERN: u16 = 47;

/// `object, property | computed, optional` (ES5, Expressions, Binary operations)
pub const MEMBER_EXPRESSION: u16 = 48;

/// `callee, arguments* | optional` (ES5, Expressions)
pub const CALL_EXPRESSION: u16 = 49;

/// `callee, arguments*` (ES5, Expressions)
pub const NEW_EXPRESSION: u16 = 50;

/// `test, consequent, alternate` (ES5, Expressions)
pub const CONDITIONAL_EXPRESSION: u16 = 51;

/// `expressions*` (ES5, Expressions)
pub const SEQUENCE_EXPRESSION: u16 = 52;

/// `argument? | delegate` (ES2015, Expressions)
pub const YIELD_EXPRESSION: u16 = 53;

/// `argument` (ES2017, Expressions)
pub const AWAIT_EXPRESSION: u16 = 54;

/// `argument` (ES2015, Expressions)
pub const SPREAD_ELEMENT: u16 = 55;

/// `argument` (ES2015, Patterns)
pub const REST_ELEMENT: u16 = 56;

/// `quasis*, expressions*` (ES2015, Template Literals)
pub const TEMPLATE_LITERAL: u16 = 57;

/// `| raw, tail` (ES2015, Template Literals)
pub const TEMPLATE_ELEMENT: u16 = 58;

/// `tag, quasi` (ES2015, Template Literals)
pub const TAGGED_TEMPLATE_EXPRESSION: u16 = 59;

/// `expression` (ES2020, Expressions)
pub const CHAIN_EXPRESSION: u16 = 60;

/// `source` (ES2020, Expressions)
pub const IMPORT_EXPRESSION: u16 = 61;

/// `meta, property` (ES2015, Classes)
pub const META_PROPERTY: u16 = 62;

/// `specifiers*, source` (ES2015, Modules, Imports)
pub const IMPORT_DECLARATION: u16 = 63;

/// `imported, local` (ES2015, Modules, Imports)
pub const IMPORT_SPECIFIER: u16 = 64;

/// `local` (ES2015, Modules, Imports)
pub const IMPORT_DEFAULT_SPECIFIER: u16 = 65;

/// `local` (ES2015, Modules, Imports)
pub const IMPORT_NAMESPACE_SPECIFIER: u16 = 66;

/// `declaration?, specifiers*, source?` (ES2015, Modules, Exports)
pub const EXPORT_NAMED_DECLARATION: u16 = 67;

/// `local, exported` (ES2015, Modules, Exports)
pub const EXPORT_SPECIFIER: u16 = 68;

/// `declaration` (ES2015, Modules, Exports)
pub const EXPORT_DEFAULT_DECLARATION: u16 = 69;

/// `exported?, source` (ES2015, Modules, Exports)
pub const EXPORT_ALL_DECLARATION: u16 = 70;
