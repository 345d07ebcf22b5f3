//! Laws of the definitions: functions that do nothing, whose contracts are the laws.
ghost use Rattle.es_skeleton.specs.Copies.{CountsOnce};

/// The labels of a skeleton have their copies, in one way only.
pub fn one_count()
    ensures { CountsOnce }
{}
