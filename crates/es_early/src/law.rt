//! Laws of the definitions: functions that do nothing, whose contracts are the laws.
ghost use Rattle.es_early.specs.Errors.{FirstOnce};

/// A tree has one first early error at most.
pub fn one_first()
    ensures { FirstOnce }
{}
