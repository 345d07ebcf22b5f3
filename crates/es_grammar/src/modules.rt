//! Modules. ECMA-262, 16.
ghost use Rattle.std.specs.Prelude.{◌≡◌};
ghost use Rattle.es_grammar.specs.Modules.{module_rule};
ghost use Rattle.es_grammar.specs.Rules.{seen};

use crate::notation::{
    check, choice, commas, inside, leaf, node, option, plain, read, rules, terminal, token, turns,
    twin,
};
use crate::{Alternative, Change, Condition, Field, Part, Product, Rule, Symbol, Terminal, Turns};
use es_tree::kind;

static MODULE_ITEM: Rule = choice![
    plain![read!(ImportDeclaration)],
    plain![read!(ExportDeclaration)],
    plain![read!(StatementListItem)],
];

static MODULE_EXPORT_NAME: Rule = choice![
    plain![leaf!(Word as IDENTIFIER)],
    plain![leaf!(Text as LITERAL)],
];

static IMPORT_DECLARATION: Rule = choice![
    node![IMPORT_DECLARATION;
        token!("import"), check!(NoImportExpressionNext), leaf!(Text as LITERAL into Source),
        read!(Semicolon),
    ],
    node![IMPORT_DECLARATION;
        token!("import"), check!(NoImportExpressionNext), read!(ImportClause into Specifiers),
        token!("from"), leaf!(Text as LITERAL into Source), read!(Semicolon),
    ],
];

static IMPORT_CLAUSE: Rule = choice![
    plain![read!(ImportedDefaultBinding), read!(FurtherImports)],
    plain![read!(NameSpaceImport)],
    plain![read!(NamedImports)],
];

static FURTHER_IMPORTS: Rule = option![
    plain![token!(","), read!(NameSpaceImport)],
    plain![token!(","), read!(NamedImports)],
];

static IMPORTED_DEFAULT_BINDING: Rule = choice![
    node![IMPORT_DEFAULT_SPECIFIER; leaf!(Name as IDENTIFIER into Local)],
];

static NAME_SPACE_IMPORT: Rule = choice![node![IMPORT_NAMESPACE_SPECIFIER;
        token!("*"), token!("as"), leaf!(Name as IDENTIFIER into Local),
    ],];

static NAMED_IMPORTS: Rule = choice![plain![token!("{"), inside!(ImportsList), token!("}")]];

static IMPORTS_LIST: Rule = commas![
    node![IMPORT_SPECIFIER;
        read!(ModuleExportName into Imported), token!("as"), leaf!(Name as IDENTIFIER into Local),
    ],
    node![IMPORT_SPECIFIER;
        twin!(Name as IDENTIFIER into Imported), leaf!(Name as IDENTIFIER into Local),
    ],
];

static EXPORT_DECLARATION: Rule = choice![
    node![EXPORT_ALL_DECLARATION;
        token!("export"), token!("*"), read!(ExportedName into Exported), token!("from"),
        leaf!(Text as LITERAL into Source), read!(Semicolon),
    ],
    node![EXPORT_NAMED_DECLARATION;
        token!("export"), token!("{"), inside!(ExportsList into Specifiers), token!("}"),
        read!(FromClause into Source), read!(Semicolon),
    ],
    node![EXPORT_DEFAULT_DECLARATION;
        token!("export"), token!("default"), read!(DefaultFunction into Declaration),
    ],
    node![EXPORT_DEFAULT_DECLARATION;
        token!("export"), token!("default"), read!(DefaultClass into Declaration),
    ],
    node![EXPORT_DEFAULT_DECLARATION;
        token!("export"), token!("default"), read!(AssignmentExpression into Declaration),
        read!(Semicolon),
    ],
    node![EXPORT_NAMED_DECLARATION; token!("export"), read!(VariableStatement into Declaration)],
    node![EXPORT_NAMED_DECLARATION; token!("export"), read!(LexicalDeclaration into Declaration)],
    node![EXPORT_NAMED_DECLARATION; token!("export"), read!(FunctionDeclaration into Declaration)],
    node![EXPORT_NAMED_DECLARATION; token!("export"), read!(ClassDeclaration into Declaration)],
];

static EXPORTED_NAME: Rule = option![plain![token!("as"), read!(ModuleExportName)]];

static FROM_CLAUSE: Rule = option![plain![token!("from"), leaf!(Text as LITERAL)]];

static EXPORTS_LIST: Rule = commas![
    node![EXPORT_SPECIFIER;
        read!(ModuleExportName into Local), token!("as"), read!(ModuleExportName into Exported),
    ],
    node![EXPORT_SPECIFIER;
        twin!(Word as IDENTIFIER into Local), leaf!(Word as IDENTIFIER into Exported),
    ],
    node![EXPORT_SPECIFIER;
        twin!(Text as LITERAL into Local), leaf!(Text as LITERAL into Exported),
    ],
];

/// The rule of the symbol, of this chapter or a later one.
#[tactic(auto, unfolding(crate::specs::Modules::module_rule))]
pub fn module_rule(symbol: Symbol) -> Rule
    ensures { seen result ≡ module_rule symbol }
{
    rules![symbol else Rule::Choice(&[]);
        ModuleItem is MODULE_ITEM, ModuleExportName is MODULE_EXPORT_NAME,
        ImportDeclaration is IMPORT_DECLARATION, ImportClause is IMPORT_CLAUSE,
        FurtherImports is FURTHER_IMPORTS, ImportedDefaultBinding is IMPORTED_DEFAULT_BINDING,
        NameSpaceImport is NAME_SPACE_IMPORT, NamedImports is NAMED_IMPORTS,
        ImportsList is IMPORTS_LIST, ExportDeclaration is EXPORT_DECLARATION,
        ExportedName is EXPORTED_NAME, FromClause is FROM_CLAUSE, ExportsList is EXPORTS_LIST,
    ]
}
