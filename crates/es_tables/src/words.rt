//! The reserved words and the punctuators.
ghost use Rattle.es_tables.specs.Rows.{IsOrdered, IsNumbered};
ghost use Rattle.es_tables.specs.Words.{keyword_words, punctuator_words};

use crate::row::rows;
use crate::{Row, Table};

static KEYWORDS: [Row; 38] = rows![
    "break" => 0, "case" => 1, "catch" => 2, "class" => 3, "const" => 4, "continue" => 5,
    "debugger" => 6, "default" => 7, "delete" => 8, "do" => 9, "else" => 10, "enum" => 11,
    "export" => 12, "extends" => 13, "false" => 14, "finally" => 15, "for" => 16, "function" => 17,
    "if" => 18, "import" => 19, "in" => 20, "instanceof" => 21, "let" => 22, "new" => 23,
    "null" => 24, "return" => 25, "super" => 26, "switch" => 27, "this" => 28, "throw" => 29,
    "true" => 30, "try" => 31, "typeof" => 32, "var" => 33, "void" => 34, "while" => 35,
    "with" => 36, "yield" => 37,
];

static PUNCTUATORS: [Row; 57] = rows![
    "!" => 32, "!=" => 15, "!==" => 17, "%" => 22, "%=" => 46, "&" => 29, "&&" => 34, "&&=" => 54,
    "&=" => 51, "(" => 2, ")" => 3, "*" => 20, "**" => 23, "**=" => 47, "*=" => 44, "+" => 18,
    "++" => 24, "+=" => 42, "," => 9, "-" => 19, "--" => 25, "-=" => 43, "." => 6, "..." => 7,
    "/" => 21, "/=" => 45, ":" => 39, ";" => 8, "<" => 10, "<<" => 26, "<<=" => 48, "<=" => 12,
    "=" => 40, "==" => 14, "===" => 16, "=>" => 41, ">" => 11, ">=" => 13, ">>" => 27, ">>=" => 49,
    ">>>" => 28, ">>>=" => 50, "?" => 37, "?." => 38, "??" => 36, "??=" => 56, "[" => 4, "]" => 5,
    "^" => 31, "^=" => 53, "{" => 0, "|" => 30, "|=" => 52, "||" => 35, "||=" => 55, "}" => 1,
    "~" => 33,
];

/// The reserved words without `await`, each with its index, from 0, in the list of them.
pub fn keywords() -> Table<38>
    ensures ordered { IsOrdered result.rows.now }
    ensures words { IsNumbered keyword_words result.rows.now }
{
    Table { rows: &KEYWORDS }
}

/// The punctuators, each with its index, from 0, in the list of them.
pub fn punctuators() -> Table<57>
    ensures ordered { IsOrdered result.rows.now }
    ensures words { IsNumbered punctuator_words result.rows.now }
{
    Table { rows: &PUNCTUATORS }
}
