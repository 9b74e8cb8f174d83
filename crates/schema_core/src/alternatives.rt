//! The keyword of alternatives.

ghost use Rattle.std.specs.Prelude.{◌≡◌};
ghost use Rattle.schema_core.specs.Form.{alternatives_word};

/// The keyword under which a document lists schemas of which at least one accepts.
#[derive(Clone, Copy, Debug, PartialEq, Eq)]
pub enum Alternatives {
    /// `oneOf`. By the letter of JSON Schema it asks for exactly one.
    OneOf,
    /// `anyOf`. By the letter of JSON Schema, too, it asks for at least one.
    AnyOf,
}

impl Alternatives {
    /// The keyword as it is written.
    pub(crate) fn word(self) -> &'static str
        ensures { result.now ≡ alternatives_word self }
    {
        match self {
            Alternatives::OneOf => "oneOf",
            Alternatives::AnyOf => "anyOf",
        }
    }
}
