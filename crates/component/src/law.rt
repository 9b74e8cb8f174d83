//! What rests on the definitions alone: laws that callers rely on, as contracts of functions that do nothing.

ghost use Rattle.component.specs.References.{ReferencesAreLeaves};

/// The references of a place are the declarations at the leaves of its schema, in their order.
pub fn references_are_leaves()
    ensures { ReferencesAreLeaves }
{}
