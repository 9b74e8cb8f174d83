/// The signs: `::`, and each other sign by itself.
#[derive(Clone, Copy, Debug, PartialEq, Eq)]
pub enum Sign {
    /// `::`
    Colons,
    /// `!`
    Exclamation,
    /// `#`
    Hash,
    /// `$`
    Dollar,
    /// `%`
    Percent,
    /// `&`
    Ampersand,
    /// `*`
    Star,
    /// `+`
    Plus,
    /// `,`
    Comma,
    /// `-`
    Minus,
    /// `.`
    Dot,
    /// `/`
    Slash,
    /// `:`
    Colon,
    /// `;`
    Semicolon,
    /// `<`
    Less,
    /// `=`
    Equals,
    /// `>`
    Greater,
    /// `?`
    Question,
    /// `@`
    At,
    /// `^`
    Caret,
    /// `|`
    Bar,
    /// `~`
    Tilde,
    /// A text that is no sign.
    Other,
}

/// The keywords that the grammar asks for by themselves, and the others.
#[derive(Clone, Copy, Debug, PartialEq, Eq)]
pub enum Keyword {
    Pub,
    Struct,
    Enum,
    Use,
    Mut,
    Dyn,
    In,
    Crate,
    /// `self`
    SelfValue,
    Super,
    /// `Self`
    SelfType,
    True,
    False,
    Const,
    Where,
    /// A keyword that begins nothing that is read.
    Other,
}
