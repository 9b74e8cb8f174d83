//! What rests on the definitions alone: laws that callers rely on, as contracts of functions that do nothing.

ghost use Rattle.type_table.specs.Types.{StandsByParts};

/// An instance stands in a type exactly if it is the type, or stands in one of its parts.
pub fn instances_stand_by_parts()
    ensures { StandsByParts }
{}
