//! The symbols at the heads of rules, and the contexts of the symbols that a rule names.
ghost use Rattle.std.specs.Prelude.{◌≡◌, ◌<◌, IfSome};
ghost use Rattle.es_grammar.specs.Contexts.{changed};
ghost use Rattle.es_grammar.specs.Grammar.{rule_of};
ghost use Rattle.es_grammar.specs.Ranks.{rank_of};
ghost use Rattle.es_parser.specs.Turns.{head_of};

use es_grammar::{Change, Context, Symbol};

/// The context in which a symbol is read that a rule names.
pub fn changed(change: Change, context: Context) -> Context
    ensures { result ≡ changed change context }
{
    let (is_async, is_generator) = match change {
        Change::Same => return context,
        Change::Brackets => return Context {
            in_operator: true,
            ..context
        },
        Change::WithoutIn => return Context {
            in_operator: false,
            ..context
        },
        Change::Plain => (false, false),
        Change::Async => (true, false),
        Change::Generator => (false, true),
        Change::AsyncGenerator => (true, true),
    };
    Context {
        await_operator: is_async,
        yield_operator: is_generator,
        ..context
    }
}

/// The symbol that stands behind the symbol among these.
macro_rules! heads {
    ($symbol:ident; $($behind:ident $head:ident),*) => {
        match $symbol {
            $(Symbol::$behind => Some(Symbol::$head),)*
            _ => None,
        }
    };
}

/// The symbol at the head of the symbol's rule, with turns behind it.
#[inline(never)]
#[tactic(auto, unfolding(es_grammar::specs::Grammar::rule_of, es_grammar::specs::Expressions::expression_rule, es_grammar::specs::Statements::statement_rule, es_grammar::specs::Functions::function_rule, es_grammar::specs::Modules::module_rule, es_grammar::specs::Ranks::rank_of))]
pub fn head_of(symbol: Symbol) -> Option<Symbol>
    ensures head { result ≡ head_of (rule_of symbol) }
    ensures below { IfSome result (λ head. rank_of head < rank_of symbol) }
    ensures low { rank_of symbol < 64 }
{
    heads![symbol;
        CallChain CallChainStart, NewCallee NewCalleeStart, UpdateExpression LeftHandSideExpression,
        ExponentiationExpression UnaryExpression, MultiplicativeExpression ExponentiationExpression,
        AdditiveExpression MultiplicativeExpression, ShiftExpression AdditiveExpression,
        RelationalExpression RelationalOperand, EqualityExpression RelationalExpression,
        BitwiseANDExpression EqualityExpression, BitwiseXORExpression BitwiseANDExpression,
        BitwiseORExpression BitwiseXORExpression, LogicalANDExpression BitwiseORExpression,
        LogicalORExpression LogicalANDExpression, ShortCircuitExpression LogicalORExpression,
        ConditionalExpression ShortCircuitExpression, SimpleAssignment ConditionalExpression,
        AssignmentElement AssignmentTarget, Expression AssignmentExpression,
        DeclaratorList Declarator, BindingElement BindingTarget,
        SingleNameBinding BindingIdentifier
    ]
}
