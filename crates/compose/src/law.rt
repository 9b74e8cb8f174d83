//! What rests on the definitions alone: laws that callers rely on, as contracts of functions that do nothing.

ghost use Rattle.compose.specs.Bounds.{BoundedAreNotRefused};
ghost use Rattle.compose.specs.Faults.{ComponentsAreOne};

/// Where nothing is beyond its bound, no error refuses the instances.
pub fn bounded_are_not_refused()
    ensures { BoundedAreNotRefused }
{
    instances::none_are_more();
    closing::no_more_in_all();
}

/// A configuration and a source have one list of components.
pub fn components_are_one()
    ensures { ComponentsAreOne }
{
    syntax::one_reading();
}
