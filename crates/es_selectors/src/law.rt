//! Laws of the definitions: functions that do nothing, whose contracts are the laws.
ghost use Rattle.es_selectors.specs.Spelling.{SpellsOne};

/// A text spells one selector at most.
pub fn one_spelling()
    ensures { SpellsOne }
{}
