//! What attributes ask for from which nothing is derived.

ghost use Rattle.std.specs.Prelude.{◌≡◌};
ghost use Rattle.derive_decl.specs.Attributed.{feature_name};

use texts::Span;

/// What an attribute asks for from which nothing is derived.
#[derive(Clone, Copy, Debug, PartialEq, Eq)]
pub enum Feature {
    /// An attribute `schema`, of utoipa.
    Schema,
    /// An attribute `repr`.
    Repr,
}

impl Feature {
    /// How it is written.
    pub fn name(self) -> &'static str
        ensures { result.now ≡ feature_name self }
    {
        match self {
            Feature::Schema => "schema",
            Feature::Repr => "repr",
        }
    }
}

/// An attribute from which nothing is derived.
#[derive(Clone, Copy)]
pub struct Other {
    pub span: Span,
    pub feature: Feature,
}
