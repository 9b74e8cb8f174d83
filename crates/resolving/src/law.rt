//! What rests on the definitions alone: laws that callers rely on, as contracts of functions that do nothing.

ghost use Rattle.resolving.specs.Resolved.{ResolutionIsExact, ResolvedAreOver};

/// A type stands for something and has at most `MAX_NAMES` names exactly where it has no fault.
pub fn resolution_is_exact()
    ensures { ResolutionIsExact }
{}

/// Where each name's place is below a bound, and each type parameter's place below another, a resolved type is over the
/// declarations and the parameters below these bounds.
pub fn resolved_are_over()
    ensures { ResolvedAreOver }
{}
