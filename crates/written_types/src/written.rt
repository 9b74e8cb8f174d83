use texts::{List, Span, Text};
use tokens::TokenTree;

/// A name, a path's word or a lifetime. The text is without `r#`, which the span has. Two are equal where their texts are.
#[derive(Debug, Drop)]
#[derive_where(PartialEq, Eq)]
pub struct Ident {
    pub text: Text,
    #[derive_where(skip(EqHashOrd))]
    pub raw: bool,
    #[derive_where(skip(EqHashOrd))]
    pub span: Span,
}

/// A path as it is written, which is never empty: `leading` says whether it begins with `::`. Two are equal where the
/// leading marks, the identifiers and the arguments are, by text.
#[cycle(written)]
#[derive(Debug, Drop)]
#[derive_where(PartialEq, Eq)]
pub struct Path {
    pub leading: bool,
    pub segments: List<PathSegment>,
    #[derive_where(skip(EqHashOrd))]
    pub span: Span,
}

/// A word of a path, and its arguments where an argument list stands.
#[cycle(written)]
#[derive(Debug, Drop)]
#[derive_where(PartialEq, Eq)]
pub struct PathSegment {
    pub ident: Ident,
    pub arguments: Option<List<GenericArgument>>,
}

/// An argument of a path: a lifetime, the trees of a constant, or a type.
#[cycle(written)]
#[derive(Debug, Drop)]
#[derive_where(PartialEq, Eq)]
pub enum GenericArgument {
    Lifetime(Ident),
    Constant(List<TokenTree>),
    Ty(WrittenType),
}

/// A type as it is written. Two are equal by text.
#[cycle(written)]
#[derive(Debug, Drop)]
#[derive_where(PartialEq, Eq)]
pub enum WrittenType {
    Path(Path),
    /// What stands behind `&`, without lifetime and `mut`.
    Reference(Box<WrittenType>),
    /// The items, and the span with the round brackets; without items it is the unit type.
    Tuple(List<WrittenType>, #[derive_where(skip(EqHashOrd))] Span),
    /// The item of `[T]`, and the span with the square brackets.
    Slice(Box<WrittenType>, #[derive_where(skip(EqHashOrd))] Span),
    /// The item of `[T; N]`, and the span with the square brackets.
    Array(Box<WrittenType>, #[derive_where(skip(EqHashOrd))] Span),
    /// The first trait path of `dyn A + B`, and the span from `dyn` to the end of the last bound.
    TraitObject(Path, #[derive_where(skip(EqHashOrd))] Span),
}
