//! The tokens that can begin what may be left out.
ghost use Rattle.std.specs.Prelude.{◌≡◌, IsTrue};
ghost use Rattle.es_grammar.specs.declared.part.Terminal.{Terminal as TerminalOf};
ghost use Rattle.es_grammar.specs.FirstSets.{ways_first};
ghost use Rattle.es_grammar.specs.Firsts.{BeginsTurn, turn_rows, ways_of};
ghost use Rattle.es_grammar.specs.Expressions.{expression_rule};
ghost use Rattle.es_grammar.specs.Functions.{function_rule};
ghost use Rattle.es_grammar.specs.Statements.{statement_rule};
ghost use Rattle.es_grammar.specs.TerminalSets.{HasTerminal, code_of};

use crate::{Symbol, Terminal};

impl Terminal {
    /// A code of its own, by which it stands in a set of terminals: there the bit of its code is set.
    #[tactic(auto, unfolding(crate::specs::TerminalSets::code_of))]
    pub fn code(self) -> u32
        ensures { result ≡ code_of self }
    {
        match self {
            Terminal::Word => 0,
            Terminal::Name => 1,
            Terminal::Private => 2,
            Terminal::Number => 3,
            Terminal::Text => 4,
            Terminal::RegExp => 5,
            Terminal::Full => 6,
            Terminal::Head => 7,
            Terminal::Middle => 8,
            Terminal::Tail => 9,
            Terminal::AccessorWord => 10,
            Terminal::DeclarationWord => 11,
            Terminal::AssignmentOperator => 12,
            Terminal::EqualityOperator => 13,
            Terminal::RelationalOperator => 14,
            Terminal::ShiftOperator => 15,
            Terminal::AdditiveOperator => 16,
            Terminal::MultiplicativeOperator => 17,
            Terminal::UnaryOperator => 18,
            Terminal::UpdateOperator => 19,
            Terminal::Spelled(code) => 20 + code as u32,
        }
    }
}

/// The set of the symbol, by symbols of a chapter and their sets, and those that have none.
macro_rules! turn_sets {
    ($symbol:ident else $other:expr;
        $($name:ident $set:literal),*; $(none: $($none:ident),* $(,)?)?) => {
        match $symbol {
            $(Symbol::$name => $set,)*
            $($(Symbol::$none)|* => 0,)?
            _ => $other,
        }
    };
}

/// The set of the terminals that can begin a turn of the symbol's rule: one of the rows of its option, its
/// repetition or its list. It is empty where the rule has none.
#[tactic(auto, unfolding(crate::specs::Expressions::expression_rule, crate::specs::TerminalSets::code_of, crate::specs::FirstSets::first_of, crate::specs::FirstSets::may_be_empty, crate::specs::FirstSets::part_empty, crate::specs::FirstSets::part_first, crate::specs::FirstSets::parts_first, crate::specs::FirstSets::ways_first, crate::specs::Firsts::reads_nothing))]
fn expression_turns(symbol: Symbol) -> u128
    ensures { result ≡ ways_first (ways_of (turn_rows (expression_rule symbol))) }
{
    turn_sets![symbol else statement_turns(symbol);
        OptionalName 0x2, ElementList 0x1c_0ab1_4801_0000_0000_0000_095c_00fe,
        PropertyDefinitionList 0x10_0000_0000_0000_0000_0100_0900_041b,
        Initializer 0x1000_0000_0000_0000, TemplateMiddleList 0x100,
        CallChain 0x400_0000_0540_00c0, OptionalArguments 0x40_0000, NewCallee 0x500_00c0,
        ArgumentList 0x1c_0ab1_4801_0000_0000_0000_095c_00fe, UpdateExpression 0x8_0000,
        ExponentiationExpression 0x800_0000_0000, MultiplicativeExpression 0x2_0000,
        AdditiveExpression 0x1_0000, ShiftExpression 0x8000,
        RelationalExpression 0x2_0000_0000_0000_0000_0000_4000, EqualityExpression 0x2000,
        BitwiseANDExpression 0x2_0000_0000_0000, BitwiseXORExpression 0x8_0000_0000_0000,
        BitwiseORExpression 0x4_0000_0000_0000, LogicalANDExpression 0x40_0000_0000_0000,
        LogicalORExpression 0x80_0000_0000_0000, ShortCircuitExpression 0x100_0000_0000_0000,
        ConditionalExpression 0x200_0000_0000_0000, SimpleAssignment 0x1000,
        AssignmentElementList 0x10_0ab1_4801_0000_0000_0000_0950_00fa,
        AssignmentPropertyList 0x900_001b, AssignmentElement 0x1000_0000_0000_0000,
        Expression 0x2000_0000, FurtherExpressions 0x2000_0000;
        none: BindingIdentifier, PrimaryExpression, PropertyValue, PropertyName, TemplateLiteral,
            LeftHandSideExpression, MemberName, CallChainStart, NewExpression, NewCalleeStart,
            Arguments, UnaryExpression, RelationalOperand, AssignmentExpression,
            DestructuringAssignment, AssignmentPattern, AssignmentTarget,
    ]
}

/// The same for the symbols behind those of expressions.
#[tactic(auto, unfolding(crate::specs::Statements::statement_rule, crate::specs::TerminalSets::code_of, crate::specs::FirstSets::first_of, crate::specs::FirstSets::may_be_empty, crate::specs::FirstSets::part_empty, crate::specs::FirstSets::part_first, crate::specs::FirstSets::parts_first, crate::specs::FirstSets::ways_first, crate::specs::Firsts::reads_nothing))]
fn statement_turns(symbol: Symbol) -> u128
    ensures { result ≡ ways_first (ways_of (turn_rows (statement_rule symbol))) }
{
    turn_sets![symbol else function_turns(symbol);
        StatementList 0x1f_5ff9_e84f_2000_0000_0000_115c_00fe, DeclaratorList 0x2000_0000,
        BindingElementList 0x910_0002, BindingPropertyList 0x900_001b,
        BindingElement 0x1000_0000_0000_0000, SingleNameBinding 0x1000_0000_0000_0000,
        ElseClause 0x80_0000_0000_0000_0000_0000, OptionalSemicolon 0x1000_0000,
        ForInitializer 0x1c_0ab1_4801_0000_0000_0000_015c_08fe,
        OptionalExpression 0x1c_0ab1_4801_0000_0000_0000_015c_00fe, OptionalLabel 0x2,
        OptionalResult 0x1c_0ab1_4801_0000_0000_0000_015c_00fe,
        CaseClauses 0x10_4000_0000_0000_0000_0000, CatchParameter 0x40_0000,
        OptionalFinally 0x1000_0000_0000_0000_0000_0000;
        none: Statement, Semicolon, Block, StatementListItem, LexicalDeclaration,
            VariableStatement, Declarator, BindingTarget, ExpressionStatement, IfStatement,
            DoWhileStatement, WhileStatement, ForStatement, ForAwaitHead, ForHead, ForInOfHead,
            ForInOfObject, ForDeclaration, ForBinding, ContinueStatement, BreakStatement,
            ReturnStatement, WithStatement, SwitchStatement, CaseClause, LabelledStatement,
            ThrowStatement, TryStatement, TryClauses, CatchClause, Finally, DebuggerStatement,
    ]
}

/// The same for the symbols of functions, classes and modules.
#[tactic(auto, unfolding(crate::specs::Functions::function_rule, crate::specs::Modules::module_rule, crate::specs::TerminalSets::code_of, crate::specs::FirstSets::first_of, crate::specs::FirstSets::may_be_empty, crate::specs::FirstSets::part_empty, crate::specs::FirstSets::part_first, crate::specs::FirstSets::parts_first, crate::specs::FirstSets::ways_first, crate::specs::Firsts::reads_nothing))]
fn function_turns(symbol: Symbol) -> u128
    ensures { result ≡ ways_first (ways_of (turn_rows (function_rule symbol))) }
{
    turn_sets![symbol else 0;
        FormalParameters 0x910_0002, YieldOperand 0x1c_0ab1_4801_0000_0000_0100_015c_00fe,
        ClassHeritage 0x400_0000_0000_0000_0000_0000,
        ClassElementList 0x30_0000_0000_0000_0000_0100_1100_041d, FurtherImports 0x2000_0000,
        ImportsList 0x13, ExportedName 0x400_0000_0000_0000_0000_0000_0000_0000,
        FromClause 0x200_0000_0000_0000_0000_0000_0000_0000, ExportsList 0x11;
    ]
}

/// Whether a token that one of these terminals reads can begin a turn of the symbol's rule: one of the rows
/// of its option, its repetition or its list. The terminals are a set. Takes constant time.
pub fn can_begin(symbol: Symbol, terminals: u128) -> bool
    ensures some { IsTrue result →
        (terminal : TerminalOf) × HasTerminal terminals terminal × BeginsTurn terminal symbol }
    ensures each { (terminal : TerminalOf) → HasTerminal terminals terminal → BeginsTurn terminal symbol
        → IsTrue result }
{
    terminals & expression_turns(symbol) != 0
}
