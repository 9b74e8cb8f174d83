//! What rests on the definitions alone.

ghost use Rattle.plainness.specs.Laws.{ObstaclesAreExact};

/// A body is plain exactly if nothing is in the way.
pub fn obstacles_are_exact()
    ensures { ObstaclesAreExact }
{}
