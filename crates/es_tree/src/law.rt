//! Laws of the definitions: functions that do nothing, whose contracts are the laws.
ghost use Rattle.es_tree.specs.Heights.{IsAsHigh, IsNeverLower, IsOneHigh, StandsAboveChild, StaysWithin, TakesNothingElse};
ghost use Rattle.es_tree.specs.Spans.{BarePasses, RowsPass, WithAttributePasses, WithChildPasses};

/// The spans of a node pass a test where those of its parts do, and then those of its rows pass it.
pub fn parts_pass()
    ensures bare { BarePasses }
    ensures child { WithChildPasses }
    ensures attribute { WithAttributePasses }
    ensures rows { RowsPass }
{}

/// The height of a node that gets a further child, or an attribute.
pub fn heights()
    ensures bare { IsOneHigh }
    ensures never_lower { IsNeverLower }
    ensures above { StandsAboveChild }
    ensures nothing_else { TakesNothingElse }
    ensures within { StaysWithin }
    ensures attribute { IsAsHigh }
{}
