use texts::{List, Span, Text};

/// What a token is.
#[derive(Clone, Copy, Debug, PartialEq, Eq)]
pub enum TokenKind {
    /// An identifier or a keyword, perhaps raw, as `r#type`.
    Ident,
    /// A lifetime, as `'a`.
    Lifetime,
    /// A string, character, byte or number.
    Literal,
    /// A punctuation sign.
    Punct,
    /// A doc comment.
    Doc,
}

/// A token. Its text is the slice of its span; two tokens are equal where kind and text are.
#[derive(Debug, Drop)]
#[derive_where(PartialEq, Eq)]
pub struct Token {
    pub kind: TokenKind,
    pub text: Text,
    #[derive_where(skip(EqHashOrd))]
    pub span: Span,
}

/// The three kinds of brackets: `( )`, `[ ]` and `{ }`.
#[derive(Clone, Copy, Debug, PartialEq, Eq)]
pub enum Bracket {
    Round,
    Square,
    Curly,
}

/// What stands between two brackets. The span has both brackets.
#[cycle(trees)]
#[derive(Debug, Drop)]
#[derive_where(PartialEq, Eq)]
pub struct Group {
    pub bracket: Bracket,
    pub trees: List<TokenTree>,
    #[derive_where(skip(EqHashOrd))]
    pub span: Span,
}

/// A token outside of brackets, or a group.
#[cycle(trees)]
#[derive(Debug, Drop)]
#[derive_where(PartialEq, Eq)]
pub enum TokenTree {
    Token(Token),
    Group(Group),
}
