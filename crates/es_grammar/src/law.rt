//! Laws of the definitions: functions that do nothing, whose contracts are the laws.
ghost use Rattle.es_grammar.specs.Reading.{ReadsOnce};
ghost use Rattle.es_grammar.specs.TerminalSets.{OneCode};
ghost use Rattle.es_grammar.specs.Trees.{AnswersOnce};
ghost use Rattle.es_grammar.specs.Within.{AnswersLie, EndsLie, NodesLie};

/// A symbol reads one thing at most from a place on.
pub fn one_reading()
    ensures { ReadsOnce }
{}

/// A text is one program at most.
pub fn one_answer()
    ensures { AnswersOnce }
{}

/// No two terminals have the same code, so that a set of codes is a set of terminals.
pub fn one_code()
    ensures { OneCode }
{}

/// What a symbol reads lies in its text: its tokens one behind the other, and the spans of its nodes. So
/// do the tree and the tokens of a program, and the place of what is no program.
pub fn nodes_lie()
    ensures nodes { NodesLie }
    ensures answers { AnswersLie }
    ensures ends { EndsLie }
{
    es_text::parts_lie();
    es_text::tokens_lie();
    es_tree::parts_pass();
}
