//! The rule of each symbol.
ghost use Rattle.std.specs.Prelude.{◌≡◌, ◌<◌, IsTrue};
ghost use Rattle.es_grammar.specs.Grammar.{rule_of};
ghost use Rattle.es_grammar.specs.Ranks.{form_below, rank_of};
ghost use Rattle.es_grammar.specs.Rules.{seen};

use crate::expressions::expression_rule;
use crate::{Rule, Symbol};

/// The rule of the symbol. Takes constant time.
#[tactic(auto, unfolding(crate::specs::Grammar::rule_of))]
pub fn rule_at(symbol: Symbol) -> Rule
    ensures rule { seen result ≡ rule_of symbol }
    ensures ranked { IsTrue (form_below (rank_of symbol) (seen result)) }
    ensures low { rank_of symbol < 64 }
{
    expression_rule(symbol)
}
