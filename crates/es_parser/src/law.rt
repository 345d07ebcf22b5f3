//! Laws of the definitions: functions that do nothing, whose contracts are the laws.
ghost use Rattle.es_parser.specs.Parsing.{ParsesOnce};

use es_early::one_first;
use es_grammar::one_answer;

/// A text is parsed in one way at most.
pub fn one_parse()
    ensures { ParsesOnce }
{
    one_answer();
    one_first();
}
