use attributes::Attribute;
use texts::{List, Span};
use tokens::TokenTree;
use written_types::{Ident, WrittenType};

/// A field of a struct or of a variant, without a name where its form has none. The span goes from the visibility, or
/// else from the name or the type, to the end of the type.
#[derive(Debug, Drop)]
#[derive_where(PartialEq, Eq)]
pub struct Field {
    pub attrs: List<Attribute>,
    pub ident: Option<Ident>,
    pub ty: WrittenType,
    #[derive_where(skip(EqHashOrd))]
    pub span: Span,
}

/// The three forms of fields: `{ a: T }`, `(T)` and none.
#[derive(Debug, Drop)]
#[derive_where(PartialEq, Eq)]
pub enum Fields {
    Named(List<Field>),
    Unnamed(List<Field>),
    Unit,
}

/// A variant of an enum, and the tokens behind `=` where it has a discriminant. The span goes from the name to the last
/// token of the variant.
#[derive(Debug, Drop)]
#[derive_where(PartialEq, Eq)]
pub struct Variant {
    pub attrs: List<Attribute>,
    pub ident: Ident,
    pub fields: Fields,
    pub discriminant: Option<List<TokenTree>>,
    #[derive_where(skip(EqHashOrd))]
    pub span: Span,
}

/// What a declaration is generic over: a lifetime, whose text is with the `'`, a type or a constant.
#[derive(Debug, Drop)]
#[derive_where(PartialEq, Eq)]
pub enum GenericParam {
    Lifetime(Ident),
    Ty(Ident),
    Constant(Ident),
}

/// The generic parameters of a declaration, in order. Of their bounds and attributes nothing is kept.
#[derive(Debug, Drop)]
#[derive_where(PartialEq, Eq)]
pub struct Generics {
    pub params: List<GenericParam>,
}

/// What a declaration declares: the fields of a struct, or the variants of an enum.
#[derive(Debug, Drop)]
#[derive_where(PartialEq, Eq)]
pub enum Body {
    Struct(Fields),
    Enum(List<Variant>),
}

/// A declaration without its attributes and its visibility.
#[derive(Drop)]
pub(crate) struct Head {
    pub(crate) ident: Ident,
    pub(crate) generics: Generics,
    pub(crate) body: Body,
}

/// A declaration. The span goes from its visibility, or else from `struct` or `enum`, to its last token.
#[derive(Debug, Drop)]
#[derive_where(PartialEq, Eq)]
pub struct Declaration {
    pub attrs: List<Attribute>,
    pub ident: Ident,
    pub generics: Generics,
    pub body: Body,
    #[derive_where(skip(EqHashOrd))]
    pub span: Span,
}

/// The declarations of a source, in order.
#[derive(Debug, Drop)]
#[derive_where(PartialEq, Eq)]
pub struct Declarations {
    pub items: List<Declaration>,
}
