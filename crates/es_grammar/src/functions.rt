//! Functions and classes. ECMA-262, 15.
ghost use Rattle.std.specs.Prelude.{◌≡◌};
ghost use Rattle.es_grammar.specs.Functions.{function_rule};
ghost use Rattle.es_grammar.specs.Rules.{seen};

use crate::modules::module_rule;
use crate::notation::{
    any_number, becomes, becoming, check, choice, commas, deeper, flag, inside, kind, leaf, node,
    option, plain, read, rules, terminal, token, turns, words,
};
use crate::{
    Alternative, Change, Condition, Field, MemberKind, Part, Product, Rule, Symbol, Terminal, Turns,
};
use es_tree::kind;

static FORMAL_PARAMETERS: Rule = commas![
    plain![read!(BindingElement)],
    node![REST_ELEMENT; token!("..."), read!(BindingTarget into Argument), check!(NoCommaNext)],
];

static FUNCTION_REST: Rule = choice![plain![
    token!("("),
    inside!(FormalParameters into Params),
    token!(")"),
    read!(FunctionBody into Body),
],];

static FUNCTION_BODY: Rule = choice![node![BLOCK_STATEMENT;
        token!("{"), inside!(StatementList into Body), Part::Directives, token!("}"),
    ],];

static FUNCTION_DECLARATION: Rule = choice![
    node![FUNCTION_DECLARATION;
        token!("async"), check!(SameLine), token!("function"), token!("*"),
        read!(BindingIdentifier into Id), read!(FunctionRest under AsyncGenerator), flag!(Async),
        flag!(Generator),
    ],
    node![FUNCTION_DECLARATION;
        token!("async"), check!(SameLine), token!("function"), read!(BindingIdentifier into Id),
        read!(FunctionRest under Async), flag!(Async),
    ],
    node![FUNCTION_DECLARATION;
        token!("function"), token!("*"), read!(BindingIdentifier into Id),
        read!(FunctionRest under Generator), flag!(Generator),
    ],
    node![FUNCTION_DECLARATION;
        token!("function"), read!(BindingIdentifier into Id), read!(FunctionRest under Plain),
    ],
];

static DEFAULT_FUNCTION: Rule = choice![
    node![FUNCTION_DECLARATION;
        token!("async"), check!(SameLine), token!("function"), token!("*"),
        read!(OptionalName into Id), read!(FunctionRest under AsyncGenerator), flag!(Async),
        flag!(Generator),
    ],
    node![FUNCTION_DECLARATION;
        token!("async"), check!(SameLine), token!("function"), read!(OptionalName into Id),
        read!(FunctionRest under Async), flag!(Async),
    ],
    node![FUNCTION_DECLARATION;
        token!("function"), token!("*"), read!(OptionalName into Id),
        read!(FunctionRest under Generator), flag!(Generator),
    ],
    node![FUNCTION_DECLARATION;
        token!("function"), read!(OptionalName into Id), read!(FunctionRest under Plain),
    ],
];

static FUNCTION_EXPRESSION: Rule = choice![
    node![FUNCTION_EXPRESSION;
        token!("async"), check!(SameLine), token!("function"), token!("*"),
        read!(OptionalName into Id), read!(FunctionRest under AsyncGenerator), flag!(Async),
        flag!(Generator),
    ],
    node![FUNCTION_EXPRESSION;
        token!("async"), check!(SameLine), token!("function"), read!(OptionalName into Id),
        read!(FunctionRest under Async), flag!(Async),
    ],
    node![FUNCTION_EXPRESSION;
        token!("function"), token!("*"), read!(OptionalName into Id),
        read!(FunctionRest under Generator), flag!(Generator),
    ],
    node![FUNCTION_EXPRESSION;
        token!("function"), read!(OptionalName into Id), read!(FunctionRest under Plain),
    ],
];

static ARROW_FUNCTION: Rule = choice![
    node![ARROW_FUNCTION_EXPRESSION;
        token!("async"), check!(SameLine), read!(ArrowParameters into Params), check!(SameLine),
        token!("=>"), read!(ConciseBody under Async into Body), flag!(Async),
    ],
    node![ARROW_FUNCTION_EXPRESSION;
        read!(ArrowParameters into Params), check!(SameLine), token!("=>"),
        read!(ConciseBody under Plain into Body),
    ],
];

static ARROW_PARAMETERS: Rule = choice![
    plain![leaf!(Name as IDENTIFIER)],
    plain![token!("("), inside!(FormalParameters), token!(")")],
];

static CONCISE_BODY: Rule = choice![
    plain![read!(FunctionBody)],
    plain![
        check!(NoBraceNext),
        deeper!(AssignmentExpression),
        flag!(Expression)
    ],
];

static METHOD: Rule = choice![node![FUNCTION_EXPRESSION; read!(FunctionRest under Plain)]];

static ASYNC_METHOD: Rule = choice![
    node![FUNCTION_EXPRESSION; read!(FunctionRest under Async), flag!(Async)],
];

static GENERATOR_METHOD: Rule = choice![
    node![FUNCTION_EXPRESSION; read!(FunctionRest under Generator), flag!(Generator)],
];

static ASYNC_GENERATOR_METHOD: Rule = choice![node![FUNCTION_EXPRESSION;
        read!(FunctionRest under AsyncGenerator), flag!(Async), flag!(Generator),
    ],];

static YIELD_EXPRESSION: Rule = choice![node![YIELD_EXPRESSION;
        check!(YieldIsOperator), token!("yield"), read!(YieldOperand into Argument),
    ],];

static YIELD_OPERAND: Rule = option![where SameLine;
    plain![token!("*"), flag!(Delegate), deeper!(AssignmentExpression)],
    plain![deeper!(AssignmentExpression)],
];

static CLASS_DECLARATION: Rule = choice![node![CLASS_DECLARATION;
        token!("class"), read!(BindingIdentifier into Id), read!(ClassHeritage into SuperClass),
        read!(ClassBody into Body),
    ],];

static DEFAULT_CLASS: Rule = choice![node![CLASS_DECLARATION;
        token!("class"), read!(OptionalName into Id), read!(ClassHeritage into SuperClass),
        read!(ClassBody into Body),
    ],];

static CLASS_EXPRESSION: Rule = choice![node![CLASS_EXPRESSION;
        token!("class"), read!(OptionalName into Id), read!(ClassHeritage into SuperClass),
        read!(ClassBody into Body),
    ],];

static CLASS_HERITAGE: Rule = option![plain![token!("extends"), deeper!(LeftHandSideExpression)],];

static CLASS_BODY: Rule = choice![
    node![CLASS_BODY; token!("{"), inside!(ClassElementList into Body), token!("}")],
];

static CLASS_ELEMENT_LIST: Rule = any_number![plain![read!(ClassElement)]];

static CLASS_ELEMENT: Rule = choice![
    plain![token!(";")],
    node![STATIC_BLOCK;
        token!("static"), token!("{"), deeper!(StatementList under Plain into Body), token!("}"),
    ],
    node![METHOD_DEFINITION; token!("static"), flag!(Static), read!(PrefixedMethod)],
    becoming![
        token!("static"),
        flag!(Static),
        read!(ClassElementName into Key),
        read!(ClassElementValue),
    ],
    node![METHOD_DEFINITION; read!(PrefixedMethod)],
    node![METHOD_DEFINITION;
        read!(ConstructorName into Key), check!(ConstructorKey), read!(Method into Value),
        kind!(Constructor),
    ],
    becoming![read!(ClassElementName into Key), read!(ClassElementValue)],
];

static CLASS_ELEMENT_VALUE: Rule = choice![
    plain![
        read!(Method into Value),
        kind!(Method),
        becomes!(METHOD_DEFINITION)
    ],
    plain![
        read!(Initializer under Plain into Value),
        read!(Semicolon),
        becomes!(PROPERTY_DEFINITION),
    ],
];

static CONSTRUCTOR_NAME: Rule = choice![
    plain![leaf!(Word as IDENTIFIER)],
    plain![leaf!(Text as LITERAL)],
];

static PREFIXED_METHOD: Rule = choice![
    plain![
        words!(AccessorWord into Kind),
        read!(ClassElementName into Key),
        read!(Method into Value),
    ],
    plain![
        token!("async"),
        check!(SameLine),
        token!("*"),
        read!(ClassElementName into Key),
        read!(AsyncGeneratorMethod into Value),
        kind!(Method),
    ],
    plain![
        token!("async"),
        check!(SameLine),
        read!(ClassElementName into Key),
        read!(AsyncMethod into Value),
        kind!(Method),
    ],
    plain![
        token!("*"),
        read!(ClassElementName into Key),
        read!(GeneratorMethod into Value),
        kind!(Method),
    ],
];

static CLASS_ELEMENT_NAME: Rule = choice![
    plain![leaf!(Private as PRIVATE_IDENTIFIER)],
    plain![read!(PropertyName)],
];

/// The rule of the symbol, of this chapter or a later one.
#[tactic(auto, unfolding(crate::specs::Functions::function_rule))]
pub fn function_rule(symbol: Symbol) -> Rule
    ensures { seen result ≡ function_rule symbol }
{
    rules![symbol else module_rule(symbol);
        FormalParameters is FORMAL_PARAMETERS, FunctionRest is FUNCTION_REST,
        FunctionBody is FUNCTION_BODY, FunctionDeclaration is FUNCTION_DECLARATION,
        DefaultFunction is DEFAULT_FUNCTION, FunctionExpression is FUNCTION_EXPRESSION,
        ArrowFunction is ARROW_FUNCTION, ArrowParameters is ARROW_PARAMETERS,
        ConciseBody is CONCISE_BODY, Method is METHOD, AsyncMethod is ASYNC_METHOD,
        GeneratorMethod is GENERATOR_METHOD, AsyncGeneratorMethod is ASYNC_GENERATOR_METHOD,
        YieldExpression is YIELD_EXPRESSION, YieldOperand is YIELD_OPERAND,
        ClassDeclaration is CLASS_DECLARATION, DefaultClass is DEFAULT_CLASS,
        ClassExpression is CLASS_EXPRESSION, ClassHeritage is CLASS_HERITAGE,
        ClassBody is CLASS_BODY, ClassElementList is CLASS_ELEMENT_LIST,
        ClassElement is CLASS_ELEMENT, ClassElementValue is CLASS_ELEMENT_VALUE,
        ConstructorName is CONSTRUCTOR_NAME, PrefixedMethod is PREFIXED_METHOD,
        ClassElementName is CLASS_ELEMENT_NAME,
    ]
}
