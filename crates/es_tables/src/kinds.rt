//! The kinds of nodes.
ghost use Rattle.es_tables.specs.Rows.{IsOrdered, IsNumbered};
ghost use Rattle.es_tables.specs.Nodes.{kind_words};

use crate::row::rows;
use crate::{Row, Table};

static KINDS: [Row; 71] = rows![
    "ArrayExpression" => 37, "ArrayPattern" => 38, "ArrowFunctionExpression" => 27,
    "AssignmentExpression" => 46, "AssignmentPattern" => 47, "AwaitExpression" => 54,
    "BinaryExpression" => 44, "BlockStatement" => 2, "BreakStatement" => 13, "CallExpression" => 49,
    "CatchClause" => 19, "ChainExpression" => 60, "ClassBody" => 4, "ClassDeclaration" => 30,
    "ClassExpression" => 31, "ConditionalExpression" => 51, "ContinueStatement" => 14,
    "DebuggerStatement" => 6, "DoWhileStatement" => 21, "EmptyStatement" => 5,
    "ExportAllDeclaration" => 70, "ExportDefaultDeclaration" => 69, "ExportNamedDeclaration" => 67,
    "ExportSpecifier" => 68, "ExpressionStatement" => 1, "ForInStatement" => 23,
    "ForOfStatement" => 24, "ForStatement" => 22, "FunctionDeclaration" => 25,
    "FunctionExpression" => 26, "Identifier" => 34, "IfStatement" => 15, "ImportDeclaration" => 63,
    "ImportDefaultSpecifier" => 65, "ImportExpression" => 61, "ImportNamespaceSpecifier" => 66,
    "ImportSpecifier" => 64, "LabeledStatement" => 12, "Literal" => 36, "LogicalExpression" => 45,
    "MemberExpression" => 48, "MetaProperty" => 62, "MethodDefinition" => 32, "NewExpression" => 50,
    "ObjectExpression" => 39, "ObjectPattern" => 40, "PrivateIdentifier" => 35, "Program" => 0,
    "Property" => 41, "PropertyDefinition" => 33, "RestElement" => 56, "ReturnStatement" => 10,
    "SequenceExpression" => 52, "SpreadElement" => 55, "StaticBlock" => 3, "Super" => 8,
    "SwitchCase" => 17, "SwitchStatement" => 16, "TaggedTemplateExpression" => 59,
    "TemplateElement" => 58, "TemplateLiteral" => 57, "ThisExpression" => 7, "ThrowStatement" => 11,
    "TryStatement" => 18, "UnaryExpression" => 42, "UpdateExpression" => 43,
    "VariableDeclaration" => 28, "VariableDeclarator" => 29, "WhileStatement" => 20,
    "WithStatement" => 9, "YieldExpression" => 53,
];

/// The kinds of nodes, each with its code, which is its index, from 0, in the list of them.
pub fn node_kinds() -> Table<71>
    ensures ordered { IsOrdered result.rows.now }
    ensures words { IsNumbered kind_words result.rows.now }
{
    Table { rows: &KINDS }
}
