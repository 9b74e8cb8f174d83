use texts::{Span, Text};
use written_types::Ident;

/// The value of a string literal, and where the literal stands.
#[derive(Debug, Drop)]
#[derive_where(PartialEq, Eq)]
pub struct SerdeText {
    pub text: Text,
    #[derive_where(skip(EqHashOrd))]
    pub span: Span,
}

/// An item of a serde list: `name`, `name = "text"`, or `name(..)`, of which the group is left out.
#[derive(Debug, Drop)]
#[derive_where(PartialEq, Eq)]
pub struct SerdeItem {
    pub name: Ident,
    pub value: Option<SerdeText>,
}
