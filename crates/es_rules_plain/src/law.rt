//! Laws of the definitions: functions that do nothing, whose contracts are the laws.
ghost use Rattle.es_rules_plain.specs.SpelledSelectors.{FindsSpelled};

/// The selector that is found in a text is the one that the text spells; none is found exactly where it spells
/// none.
pub fn finds_spelled()
    ensures { FindsSpelled }
{}
