//! Statements and declarations. ECMA-262, 14.
ghost use Rattle.std.specs.Prelude.{◌≡◌};
ghost use Rattle.es_grammar.specs.Statements.{statement_rule};
ghost use Rattle.es_grammar.specs.Rules.{seen};

use crate::functions::function_rule;
use crate::notation::{
    any_number, becomes, becoming, behind, check, choice, commas, deeper, flag, inside, kind, leaf,
    node, option, plain, read, rules, terminal, token, turns, twin, words,
};
use crate::{
    Alternative, Change, Condition, Field, MemberKind, Part, Product, Rule, Symbol, Terminal, Turns,
};
use es_tree::kind;

static STATEMENT: Rule = choice![
    plain![read!(Block)],
    plain![read!(VariableStatement)],
    node![EMPTY_STATEMENT; token!(";")],
    plain![read!(IfStatement)],
    plain![read!(DoWhileStatement)],
    plain![read!(WhileStatement)],
    plain![read!(ForStatement)],
    plain![read!(ContinueStatement)],
    plain![read!(BreakStatement)],
    plain![read!(ReturnStatement)],
    plain![read!(WithStatement)],
    plain![read!(SwitchStatement)],
    plain![read!(ThrowStatement)],
    plain![read!(TryStatement)],
    plain![read!(DebuggerStatement)],
    plain![read!(LabelledStatement)],
    plain![read!(ExpressionStatement)],
];

static SEMICOLON: Rule = choice![plain![token!(";")], plain![check!(SemicolonLeftOut)]];

static BLOCK: Rule = choice![
    node![BLOCK_STATEMENT; token!("{"), inside!(StatementList into Body), token!("}")],
];

static STATEMENT_LIST: Rule = any_number![plain![read!(StatementListItem)]];

static STATEMENT_LIST_ITEM: Rule = choice![
    plain![read!(FunctionDeclaration)],
    plain![read!(ClassDeclaration)],
    plain![read!(LexicalDeclaration)],
    plain![read!(Statement)],
];

static LEXICAL_DECLARATION: Rule = choice![
    node![VARIABLE_DECLARATION;
        words!("let" into Kind), read!(DeclaratorList into Declarations), read!(Semicolon),
    ],
    node![VARIABLE_DECLARATION;
        words!("const" into Kind), read!(DeclaratorList into Declarations), read!(Semicolon),
    ],
];

static VARIABLE_STATEMENT: Rule = choice![node![VARIABLE_DECLARATION;
        words!("var" into Kind), read!(DeclaratorList into Declarations), read!(Semicolon),
    ],];

static DECLARATOR_LIST: Rule = behind![Declarator, any_number;
    plain![token!(","), read!(Declarator)],
];

static DECLARATOR: Rule = choice![node![VARIABLE_DECLARATOR;
        read!(BindingTarget into Id), read!(Initializer into Init), check!(PatternHasValue),
    ],];

static BINDING_TARGET: Rule = choice![
    plain![leaf!(Name as IDENTIFIER)],
    node![ARRAY_PATTERN; token!("["), inside!(BindingElementList into Elements), token!("]")],
    node![OBJECT_PATTERN; token!("{"), inside!(BindingPropertyList into Properties), token!("}")],
];

static BINDING_ELEMENT_LIST: Rule = commas![
    plain![check!(CommaNext), Part::Hole],
    plain![read!(BindingElement)],
    node![REST_ELEMENT; token!("..."), read!(BindingTarget into Argument), check!(NoCommaNext)],
];

static BINDING_PROPERTY_LIST: Rule = commas![
    node![PROPERTY;
        read!(PropertyName into Key), token!(":"), read!(BindingElement into Value), kind!(Init),
    ],
    node![PROPERTY;
        twin!(Name as IDENTIFIER into Key), read!(SingleNameBinding into Value), kind!(Init),
        flag!(Shorthand),
    ],
    node![REST_ELEMENT;
        token!("..."), leaf!(Name as IDENTIFIER into Argument), check!(NoCommaNext),
    ],
];

static BINDING_ELEMENT: Rule = behind![BindingTarget, option;
    node![ASSIGNMENT_PATTERN; token!("="), deeper!(AssignmentExpression into Right)],
];

static SINGLE_NAME_BINDING: Rule = behind![BindingIdentifier, option;
    node![ASSIGNMENT_PATTERN; token!("="), deeper!(AssignmentExpression into Right)],
];

static EXPRESSION_STATEMENT: Rule = choice![node![EXPRESSION_STATEMENT;
        check!(ExpressionNext), read!(Expression into Expression), read!(Semicolon),
    ],];

static IF_STATEMENT: Rule = choice![node![IF_STATEMENT;
        token!("if"), token!("("), inside!(Expression into Test), token!(")"),
        deeper!(Statement into Consequent), read!(ElseClause into Alternate),
    ],];

static ELSE_CLAUSE: Rule = option![plain![token!("else"), deeper!(Statement)]];

static DO_WHILE_STATEMENT: Rule = choice![node![DO_WHILE_STATEMENT;
        token!("do"), deeper!(Statement into Body), token!("while"), token!("("),
        inside!(Expression into Test), token!(")"), read!(OptionalSemicolon),
    ],];

static OPTIONAL_SEMICOLON: Rule = option![plain![token!(";")]];

static WHILE_STATEMENT: Rule = choice![node![WHILE_STATEMENT;
        token!("while"), token!("("), inside!(Expression into Test), token!(")"),
        deeper!(Statement into Body),
    ],];

static FOR_STATEMENT: Rule = choice![
    becoming![
        token!("for"),
        check!(AwaitIsOperator),
        token!("await"),
        flag!(Await),
        token!("("),
        inside!(ForAwaitHead),
        token!(")"),
        deeper!(Statement into Body),
    ],
    becoming![
        token!("for"),
        token!("("),
        inside!(ForHead),
        token!(")"),
        deeper!(Statement into Body),
    ],
];

static FOR_AWAIT_HEAD: Rule = choice![
    plain![
        read!(ForDeclaration into Left),
        token!("of"),
        read!(AssignmentExpression into Right),
        becomes!(FOR_OF_STATEMENT),
    ],
    plain![
        read!(AssignmentTarget into Left),
        token!("of"),
        read!(AssignmentExpression into Right),
        becomes!(FOR_OF_STATEMENT),
    ],
];

static FOR_HEAD: Rule = choice![
    plain![read!(ForInOfHead)],
    plain![
        read!(ForInitializer under WithoutIn into Init),
        token!(";"),
        read!(OptionalExpression into Test),
        token!(";"),
        read!(OptionalExpression into Update),
        becomes!(FOR_STATEMENT),
    ],
];

static FOR_IN_OF_HEAD: Rule = choice![
    plain![read!(ForDeclaration into Left), read!(ForInOfObject)],
    plain![read!(AssignmentTarget into Left), read!(ForInOfObject)],
];

static FOR_IN_OF_OBJECT: Rule = choice![
    plain![
        token!("of"),
        read!(AssignmentExpression into Right),
        becomes!(FOR_OF_STATEMENT),
    ],
    plain![
        token!("in"),
        read!(Expression into Right),
        becomes!(FOR_IN_STATEMENT),
    ],
];

static FOR_DECLARATION: Rule = choice![node![VARIABLE_DECLARATION;
        words!(DeclarationWord into Kind), read!(ForBinding into Declarations),
    ],];

static FOR_BINDING: Rule = choice![node![VARIABLE_DECLARATOR; read!(BindingTarget into Id)]];

static FOR_INITIALIZER: Rule = option![
    node![VARIABLE_DECLARATION;
        words!(DeclarationWord into Kind), read!(DeclaratorList into Declarations),
    ],
    plain![read!(Expression)],
];

static OPTIONAL_EXPRESSION: Rule = option![plain![read!(Expression)]];

static CONTINUE_STATEMENT: Rule = choice![node![CONTINUE_STATEMENT;
        token!("continue"), read!(OptionalLabel into Label), read!(Semicolon),
    ],];

static BREAK_STATEMENT: Rule = choice![
    node![BREAK_STATEMENT; token!("break"), read!(OptionalLabel into Label), read!(Semicolon)],
];

static OPTIONAL_LABEL: Rule = option![where SameLine; plain![leaf!(Name as IDENTIFIER)]];

static RETURN_STATEMENT: Rule = choice![node![RETURN_STATEMENT;
        token!("return"), read!(OptionalResult into Argument), read!(Semicolon),
    ],];

static OPTIONAL_RESULT: Rule = option![where SameLine; plain![read!(Expression)]];

static WITH_STATEMENT: Rule = choice![node![WITH_STATEMENT;
        token!("with"), token!("("), inside!(Expression into Object), token!(")"),
        deeper!(Statement into Body),
    ],];

static SWITCH_STATEMENT: Rule = choice![node![SWITCH_STATEMENT;
        token!("switch"), token!("("), inside!(Expression into Discriminant), token!(")"),
        token!("{"), inside!(CaseClauses into Cases), token!("}"),
    ],];

static CASE_CLAUSES: Rule = any_number![plain![read!(CaseClause)]];

static CASE_CLAUSE: Rule = choice![
    node![SWITCH_CASE;
        token!("case"), read!(Expression into Test), token!(":"),
        read!(StatementList into Consequent),
    ],
    node![SWITCH_CASE; token!("default"), token!(":"), read!(StatementList into Consequent)],
];

static LABELLED_STATEMENT: Rule = choice![node![LABELED_STATEMENT;
        leaf!(Name as IDENTIFIER into Label), token!(":"), deeper!(Statement into Body),
    ],];

static THROW_STATEMENT: Rule = choice![node![THROW_STATEMENT;
        token!("throw"), check!(SameLine), read!(Expression into Argument), read!(Semicolon),
    ],];

static TRY_STATEMENT: Rule = choice![
    node![TRY_STATEMENT; token!("try"), read!(Block into Block), read!(TryClauses)],
];

static TRY_CLAUSES: Rule = choice![
    plain![
        read!(CatchClause into Handler),
        read!(OptionalFinally into Finalizer)
    ],
    plain![read!(Finally into Finalizer)],
];

static CATCH_CLAUSE: Rule = choice![
    node![CATCH_CLAUSE; token!("catch"), read!(CatchParameter into Param), read!(Block into Body)],
];

static CATCH_PARAMETER: Rule = option![plain![token!("("), inside!(BindingTarget), token!(")")],];

static FINALLY: Rule = choice![plain![token!("finally"), read!(Block)]];

static OPTIONAL_FINALLY: Rule = option![plain![read!(Finally)]];

static DEBUGGER_STATEMENT: Rule = choice![
    node![DEBUGGER_STATEMENT; token!("debugger"), read!(Semicolon)],
];

/// The rule of the symbol, of this chapter or a later one.
#[tactic(auto, unfolding(crate::specs::Statements::statement_rule))]
pub fn statement_rule(symbol: Symbol) -> Rule
    ensures { seen result ≡ statement_rule symbol }
{
    rules![symbol else function_rule(symbol);
        Statement is STATEMENT, Semicolon is SEMICOLON, Block is BLOCK,
        StatementList is STATEMENT_LIST, StatementListItem is STATEMENT_LIST_ITEM,
        LexicalDeclaration is LEXICAL_DECLARATION, VariableStatement is VARIABLE_STATEMENT,
        DeclaratorList is DECLARATOR_LIST, Declarator is DECLARATOR,
        BindingTarget is BINDING_TARGET, BindingElementList is BINDING_ELEMENT_LIST,
        BindingPropertyList is BINDING_PROPERTY_LIST, BindingElement is BINDING_ELEMENT,
        SingleNameBinding is SINGLE_NAME_BINDING, ExpressionStatement is EXPRESSION_STATEMENT,
        IfStatement is IF_STATEMENT, ElseClause is ELSE_CLAUSE,
        DoWhileStatement is DO_WHILE_STATEMENT, OptionalSemicolon is OPTIONAL_SEMICOLON,
        WhileStatement is WHILE_STATEMENT, ForStatement is FOR_STATEMENT,
        ForAwaitHead is FOR_AWAIT_HEAD, ForHead is FOR_HEAD, ForInOfHead is FOR_IN_OF_HEAD,
        ForInOfObject is FOR_IN_OF_OBJECT, ForDeclaration is FOR_DECLARATION,
        ForBinding is FOR_BINDING, ForInitializer is FOR_INITIALIZER,
        OptionalExpression is OPTIONAL_EXPRESSION, ContinueStatement is CONTINUE_STATEMENT,
        BreakStatement is BREAK_STATEMENT, OptionalLabel is OPTIONAL_LABEL,
        ReturnStatement is RETURN_STATEMENT, OptionalResult is OPTIONAL_RESULT,
        WithStatement is WITH_STATEMENT, SwitchStatement is SWITCH_STATEMENT,
        CaseClauses is CASE_CLAUSES, CaseClause is CASE_CLAUSE,
        LabelledStatement is LABELLED_STATEMENT, ThrowStatement is THROW_STATEMENT,
        TryStatement is TRY_STATEMENT, TryClauses is TRY_CLAUSES, CatchClause is CATCH_CLAUSE,
        CatchParameter is CATCH_PARAMETER, Finally is FINALLY, OptionalFinally is OPTIONAL_FINALLY,
        DebuggerStatement is DEBUGGER_STATEMENT,
    ]
}
