ghost use Rattle.std.specs.Prelude.{◌≡◌};
ghost use Rattle.schema_trees.specs.Bounds.{no_bounds};

use crate::bound::Bound;

/// What binds the values of one type (JSON Schema 2020-12, Validation, 6.2). A value of another type is not bound.
#[derive(Clone, Copy, Debug)]
pub struct Bounds {
    /// The least number, inclusive.
    pub minimum: Option<Bound>,
}

impl Bounds {
    /// No bounds.
    pub fn none() -> Bounds
        ensures { result ≡ no_bounds }
    {
        Bounds { minimum: None }
    }
}
