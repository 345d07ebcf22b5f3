//! Expressions. ECMA-262, 13.
ghost use Rattle.std.specs.Prelude.{◌≡◌};
ghost use Rattle.es_grammar.specs.Expressions.{expression_rule};
ghost use Rattle.es_grammar.specs.Rules.{seen};

use crate::notation::{
    any_number, becomes, becoming, behind, check, choice, commas, deeper, flag, inside, kind, leaf,
    node, option, plain, read, rules, terminal, token, turns, twin, words,
};
use crate::statements::statement_rule;
use crate::{
    Alternative, Change, Condition, Field, MemberKind, Part, Product, Rule, Symbol, Terminal, Turns,
};
use es_tree::kind;

static BINDING_IDENTIFIER: Rule = choice![plain![leaf!(Name as IDENTIFIER)]];

static OPTIONAL_NAME: Rule = option![plain![leaf!(Name as IDENTIFIER)]];

static PRIMARY_EXPRESSION: Rule = choice![
    node![THIS_EXPRESSION; token!("this")],
    plain![leaf!("null" as LITERAL)],
    plain![leaf!("true" as LITERAL)],
    plain![leaf!("false" as LITERAL)],
    plain![leaf!(Number as LITERAL)],
    plain![leaf!(Text as LITERAL)],
    plain![leaf!(RegExp as LITERAL)],
    plain![read!(TemplateLiteral)],
    node![ARRAY_EXPRESSION; token!("["), inside!(ElementList into Elements), token!("]")],
    node![OBJECT_EXPRESSION;
        token!("{"), inside!(PropertyDefinitionList into Properties), token!("}"),
    ],
    plain![read!(FunctionExpression)],
    plain![read!(ClassExpression)],
    plain![leaf!(Name as IDENTIFIER)],
    plain![token!("("), inside!(Expression), token!(")")],
];

static ELEMENT_LIST: Rule = commas![
    plain![check!(CommaNext), Part::Hole],
    plain![read!(AssignmentExpression)],
    node![SPREAD_ELEMENT; token!("..."), read!(AssignmentExpression into Argument)],
];

static PROPERTY_DEFINITION_LIST: Rule = commas![
    node![SPREAD_ELEMENT; token!("..."), read!(AssignmentExpression into Argument)],
    node![PROPERTY;
        words!(AccessorWord into Kind), read!(PropertyName into Key), read!(Method into Value),
    ],
    node![PROPERTY;
        token!("async"), check!(SameLine), token!("*"), read!(PropertyName into Key),
        read!(AsyncGeneratorMethod into Value), kind!(Init), flag!(Method),
    ],
    node![PROPERTY;
        token!("async"), check!(SameLine), read!(PropertyName into Key),
        read!(AsyncMethod into Value), kind!(Init), flag!(Method),
    ],
    node![PROPERTY;
        token!("*"), read!(PropertyName into Key), read!(GeneratorMethod into Value), kind!(Init),
        flag!(Method),
    ],
    node![PROPERTY; read!(PropertyName into Key), read!(PropertyValue)],
    node![PROPERTY;
        twin!(Name as IDENTIFIER into Key), leaf!(Name as IDENTIFIER into Value), kind!(Init),
        flag!(Shorthand),
    ],
];

static PROPERTY_VALUE: Rule = choice![
    plain![read!(Method into Value), kind!(Init), flag!(Method)],
    plain![
        token!(":"),
        read!(AssignmentExpression into Value),
        kind!(Init)
    ],
];

static PROPERTY_NAME: Rule = choice![
    plain![leaf!(Word as IDENTIFIER)],
    plain![leaf!(Text as LITERAL)],
    plain![leaf!(Number as LITERAL)],
    plain![
        token!("["),
        inside!(AssignmentExpression),
        token!("]"),
        flag!(Computed)
    ],
];

static INITIALIZER: Rule = option![plain![token!("="), deeper!(AssignmentExpression)]];

static TEMPLATE_LITERAL: Rule = choice![
    node![TEMPLATE_LITERAL; leaf!(Full as TEMPLATE_ELEMENT into Quasis)],
    node![TEMPLATE_LITERAL;
        leaf!(Head as TEMPLATE_ELEMENT into Quasis), inside!(Expression into Expressions),
        read!(TemplateMiddleList), leaf!(Tail as TEMPLATE_ELEMENT into Quasis),
    ],
];

static TEMPLATE_MIDDLE_LIST: Rule = any_number![plain![
    leaf!(Middle as TEMPLATE_ELEMENT into Quasis),
    inside!(Expression into Expressions)
],];

static LEFT_HAND_SIDE_EXPRESSION: Rule = choice![becoming![read!(CallChain)]];

static CALL_CHAIN: Rule = behind![CallChainStart, any_number;
    node![MEMBER_EXPRESSION; token!("."), read!(MemberName into Property)],
    node![MEMBER_EXPRESSION;
        token!("["), inside!(Expression into Property), token!("]"), flag!(Computed),
    ],
    node![CALL_EXPRESSION; read!(Arguments into Arguments)],
    node![TAGGED_TEMPLATE_EXPRESSION; read!(TemplateLiteral into Quasi)],
    node![MEMBER_EXPRESSION;
        token!("?."), read!(MemberName into Property), flag!(Optional),
        becomes!(CHAIN_EXPRESSION),
    ],
    node![MEMBER_EXPRESSION;
        token!("?."), token!("["), inside!(Expression into Property), token!("]"),
        flag!(Computed), flag!(Optional), becomes!(CHAIN_EXPRESSION),
    ],
    node![CALL_EXPRESSION;
        token!("?."), read!(Arguments into Arguments), flag!(Optional),
        becomes!(CHAIN_EXPRESSION),
    ],
];

static MEMBER_NAME: Rule = choice![
    plain![leaf!(Word as IDENTIFIER)],
    plain![leaf!(Private as PRIVATE_IDENTIFIER)],
];

static CALL_CHAIN_START: Rule = choice![
    node![META_PROPERTY;
        leaf!("new" as IDENTIFIER into Meta), token!("."),
        leaf!("target" as IDENTIFIER into Property),
    ],
    plain![read!(NewExpression)],
    node![SUPER; token!("super"), check!(MemberOrCallNext)],
    node![IMPORT_EXPRESSION;
        token!("import"), token!("("), inside!(AssignmentExpression into Source), token!(")"),
    ],
    node![META_PROPERTY;
        leaf!("import" as IDENTIFIER into Meta), token!("."),
        leaf!("meta" as IDENTIFIER into Property),
    ],
    plain![read!(PrimaryExpression)],
];

static NEW_EXPRESSION: Rule = choice![node![NEW_EXPRESSION;
        token!("new"), deeper!(NewCallee into Callee), read!(OptionalArguments into Arguments),
    ],];

static OPTIONAL_ARGUMENTS: Rule = option![plain![read!(Arguments)]];

static NEW_CALLEE: Rule = behind![NewCalleeStart, any_number;
    node![MEMBER_EXPRESSION; token!("."), read!(MemberName into Property)],
    node![MEMBER_EXPRESSION;
        token!("["), inside!(Expression into Property), token!("]"), flag!(Computed),
    ],
    node![TAGGED_TEMPLATE_EXPRESSION; read!(TemplateLiteral into Quasi)],
];

static NEW_CALLEE_START: Rule = choice![
    node![META_PROPERTY;
        leaf!("new" as IDENTIFIER into Meta), token!("."),
        leaf!("target" as IDENTIFIER into Property),
    ],
    plain![read!(NewExpression)],
    node![SUPER; token!("super"), check!(MemberNext)],
    node![META_PROPERTY;
        leaf!("import" as IDENTIFIER into Meta), token!("."),
        leaf!("meta" as IDENTIFIER into Property),
    ],
    plain![read!(PrimaryExpression)],
];

static ARGUMENTS: Rule = choice![plain![token!("("), inside!(ArgumentList), token!(")")]];

static ARGUMENT_LIST: Rule = commas![
    plain![read!(AssignmentExpression)],
    node![SPREAD_ELEMENT; token!("..."), read!(AssignmentExpression into Argument)],
];

static UNARY_EXPRESSION: Rule = choice![
    node![UNARY_EXPRESSION;
        words!(UnaryOperator into Operator), flag!(Prefix),
        deeper!(UnaryExpression into Argument),
    ],
    node![AWAIT_EXPRESSION;
        check!(AwaitIsOperator), token!("await"), deeper!(UnaryExpression into Argument),
    ],
    node![UPDATE_EXPRESSION;
        words!(UpdateOperator into Operator), flag!(Prefix),
        deeper!(UnaryExpression into Argument), check!(PlainTarget),
    ],
    plain![read!(UpdateExpression)],
];

static UPDATE_EXPRESSION: Rule =
    behind![LeftHandSideExpression, option; where SameLine, PlainTarget;
    node![UPDATE_EXPRESSION; words!(UpdateOperator into Operator)],
];

static EXPONENTIATION_EXPRESSION: Rule = behind![UnaryExpression, option; where NoUnaryOperator;
    node![BINARY_EXPRESSION;
        words!("**" into Operator), deeper!(ExponentiationExpression into Right),
    ],
];

static MULTIPLICATIVE_EXPRESSION: Rule = behind![ExponentiationExpression, any_number;
    node![BINARY_EXPRESSION;
        words!(MultiplicativeOperator into Operator), read!(ExponentiationExpression into Right),
    ],
];

static ADDITIVE_EXPRESSION: Rule = behind![MultiplicativeExpression, any_number;
    node![BINARY_EXPRESSION;
        words!(AdditiveOperator into Operator), read!(MultiplicativeExpression into Right),
    ],
];

static SHIFT_EXPRESSION: Rule = behind![AdditiveExpression, any_number;
    node![BINARY_EXPRESSION;
        words!(ShiftOperator into Operator), read!(AdditiveExpression into Right),
    ],
];

static RELATIONAL_EXPRESSION: Rule = behind![RelationalOperand, any_number;
    node![BINARY_EXPRESSION;
        words!(RelationalOperator into Operator), read!(ShiftExpression into Right),
    ],
    node![BINARY_EXPRESSION;
        check!(InIsOperator), words!("in" into Operator), read!(ShiftExpression into Right),
    ],
];

static RELATIONAL_OPERAND: Rule = choice![
    plain![leaf!(Private as PRIVATE_IDENTIFIER), check!(InNext)],
    plain![read!(ShiftExpression)],
];

static EQUALITY_EXPRESSION: Rule = behind![RelationalExpression, any_number;
    node![BINARY_EXPRESSION;
        words!(EqualityOperator into Operator), read!(RelationalExpression into Right),
    ],
];

static BITWISE_AND_EXPRESSION: Rule = behind![EqualityExpression, any_number;
    node![BINARY_EXPRESSION; words!("&" into Operator), read!(EqualityExpression into Right)],
];

static BITWISE_XOR_EXPRESSION: Rule = behind![BitwiseANDExpression, any_number;
    node![BINARY_EXPRESSION; words!("^" into Operator), read!(BitwiseANDExpression into Right)],
];

static BITWISE_OR_EXPRESSION: Rule = behind![BitwiseXORExpression, any_number;
    node![BINARY_EXPRESSION; words!("|" into Operator), read!(BitwiseXORExpression into Right)],
];

static LOGICAL_AND_EXPRESSION: Rule = behind![BitwiseORExpression, any_number;
    node![LOGICAL_EXPRESSION; words!("&&" into Operator), read!(BitwiseORExpression into Right)],
];

static LOGICAL_OR_EXPRESSION: Rule = behind![LogicalANDExpression, any_number;
    node![LOGICAL_EXPRESSION; words!("||" into Operator), read!(LogicalANDExpression into Right)],
];

static SHORT_CIRCUIT_EXPRESSION: Rule =
    behind![LogicalORExpression, any_number; where NoLogicalOperator;
    node![LOGICAL_EXPRESSION; words!("??" into Operator), read!(BitwiseORExpression into Right)],
];

static CONDITIONAL_EXPRESSION: Rule = behind![ShortCircuitExpression, option;
    node![CONDITIONAL_EXPRESSION;
        token!("?"), inside!(AssignmentExpression into Consequent), token!(":"),
        deeper!(AssignmentExpression into Alternate),
    ],
];

static ASSIGNMENT_EXPRESSION: Rule = choice![
    plain![read!(YieldExpression)],
    plain![read!(ArrowFunction)],
    plain![read!(DestructuringAssignment)],
    plain![read!(SimpleAssignment)],
];

static DESTRUCTURING_ASSIGNMENT: Rule = choice![node![ASSIGNMENT_EXPRESSION;
        check!(BracketNext), read!(AssignmentPattern into Left), words!("=" into Operator),
        deeper!(AssignmentExpression into Right),
    ],];

static SIMPLE_ASSIGNMENT: Rule = behind![ConditionalExpression, option; where PlainTarget;
    node![ASSIGNMENT_EXPRESSION;
        words!(AssignmentOperator into Operator), deeper!(AssignmentExpression into Right),
    ],
];

static ASSIGNMENT_PATTERN: Rule = choice![
    node![ARRAY_PATTERN; token!("["), inside!(AssignmentElementList into Elements), token!("]")],
    node![OBJECT_PATTERN;
        token!("{"), inside!(AssignmentPropertyList into Properties), token!("}"),
    ],
];

static ASSIGNMENT_ELEMENT_LIST: Rule = commas![
    plain![check!(CommaNext), Part::Hole],
    plain![read!(AssignmentElement)],
    node![REST_ELEMENT; token!("..."), read!(AssignmentTarget into Argument), check!(NoCommaNext)],
];

static ASSIGNMENT_PROPERTY_LIST: Rule = commas![
    node![PROPERTY;
        read!(PropertyName into Key), token!(":"), read!(AssignmentElement into Value),
        kind!(Init),
    ],
    node![PROPERTY;
        twin!(Name as IDENTIFIER into Key), read!(SingleNameBinding into Value), kind!(Init),
        flag!(Shorthand),
    ],
    node![REST_ELEMENT; token!("..."), read!(AssignmentTarget into Argument), check!(NoCommaNext)],
];

static ASSIGNMENT_ELEMENT: Rule = behind![AssignmentTarget, option;
    node![ASSIGNMENT_PATTERN; token!("="), deeper!(AssignmentExpression into Right)],
];

static ASSIGNMENT_TARGET: Rule = choice![
    plain![check!(BracketNext), read!(AssignmentPattern)],
    plain![
        check!(NoBracketNext),
        read!(LeftHandSideExpression),
        check!(PlainTarget)
    ],
];

static EXPRESSION: Rule = behind![AssignmentExpression, option;
    node![SEQUENCE_EXPRESSION;
        token!(","), read!(AssignmentExpression into Expressions),
        read!(FurtherExpressions into Expressions),
    ],
];

static FURTHER_EXPRESSIONS: Rule = any_number![plain![token!(","), read!(AssignmentExpression)],];

/// The rule of the symbol, of this chapter or a later one.
#[tactic(auto, unfolding(crate::specs::Expressions::expression_rule))]
pub fn expression_rule(symbol: Symbol) -> Rule
    ensures { seen result ≡ expression_rule symbol }
{
    rules![symbol else statement_rule(symbol);
        BindingIdentifier is BINDING_IDENTIFIER, OptionalName is OPTIONAL_NAME,
        PrimaryExpression is PRIMARY_EXPRESSION, ElementList is ELEMENT_LIST,
        PropertyDefinitionList is PROPERTY_DEFINITION_LIST, PropertyValue is PROPERTY_VALUE,
        PropertyName is PROPERTY_NAME, Initializer is INITIALIZER,
        TemplateLiteral is TEMPLATE_LITERAL, TemplateMiddleList is TEMPLATE_MIDDLE_LIST,
        LeftHandSideExpression is LEFT_HAND_SIDE_EXPRESSION, CallChain is CALL_CHAIN,
        MemberName is MEMBER_NAME, CallChainStart is CALL_CHAIN_START,
        NewExpression is NEW_EXPRESSION, OptionalArguments is OPTIONAL_ARGUMENTS,
        NewCallee is NEW_CALLEE, NewCalleeStart is NEW_CALLEE_START, Arguments is ARGUMENTS,
        ArgumentList is ARGUMENT_LIST, UnaryExpression is UNARY_EXPRESSION,
        UpdateExpression is UPDATE_EXPRESSION,
        ExponentiationExpression is EXPONENTIATION_EXPRESSION,
        MultiplicativeExpression is MULTIPLICATIVE_EXPRESSION,
        AdditiveExpression is ADDITIVE_EXPRESSION, ShiftExpression is SHIFT_EXPRESSION,
        RelationalExpression is RELATIONAL_EXPRESSION, RelationalOperand is RELATIONAL_OPERAND,
        EqualityExpression is EQUALITY_EXPRESSION, BitwiseANDExpression is BITWISE_AND_EXPRESSION,
        BitwiseXORExpression is BITWISE_XOR_EXPRESSION,
        BitwiseORExpression is BITWISE_OR_EXPRESSION,
        LogicalANDExpression is LOGICAL_AND_EXPRESSION,
        LogicalORExpression is LOGICAL_OR_EXPRESSION,
        ShortCircuitExpression is SHORT_CIRCUIT_EXPRESSION,
        ConditionalExpression is CONDITIONAL_EXPRESSION,
        AssignmentExpression is ASSIGNMENT_EXPRESSION,
        DestructuringAssignment is DESTRUCTURING_ASSIGNMENT, SimpleAssignment is SIMPLE_ASSIGNMENT,
        AssignmentPattern is ASSIGNMENT_PATTERN, AssignmentElementList is ASSIGNMENT_ELEMENT_LIST,
        AssignmentPropertyList is ASSIGNMENT_PROPERTY_LIST,
        AssignmentElement is ASSIGNMENT_ELEMENT, AssignmentTarget is ASSIGNMENT_TARGET,
        Expression is EXPRESSION, FurtherExpressions is FURTHER_EXPRESSIONS,
    ]
}
