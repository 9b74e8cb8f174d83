//! What rests on the definitions alone: laws that callers rely on, as contracts of functions that do nothing.

ghost use Rattle.inlining.specs.Inlining.{OrdersStand};

/// Each instance of an order stands behind its targets, by its place.
pub fn orders_stand()
    ensures { OrdersStand }
{}
