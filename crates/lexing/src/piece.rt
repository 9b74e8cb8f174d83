use std::alloc::AllocError;
use texts::Span;
use tokens::{Bracket, TokenKind};

/// What a piece of a source is.
#[derive(Clone, Copy, Debug, PartialEq, Eq)]
pub enum PieceKind {
    /// White space.
    Space,
    /// A comment that is no doc comment.
    Comment,
    Token(TokenKind),
    Open(Bracket),
    Close(Bracket),
}

/// A part of a source that is white space, a comment, a token or a bracket.
#[derive(Clone, Copy, Debug, PartialEq, Eq)]
pub struct Piece {
    pub kind: PieceKind,
    pub span: Span,
}

/// Why a source has no token trees.
#[derive(Drop)]
pub enum LexError {
    Memory,
    /// The bracket of the span is the first that stands too deep.
    TooDeep(Span),
    /// Reading stopped at the span.
    Stopped(Span),
}

impl From<AllocError> for LexError {
    ghost use Rattle.std.specs.Prelude.{◌≡◌};
    ghost use Rattle.lexing.specs.declared.piece.LexError.TheVariants.{Memory};

    ghost from_gives = { λ _ error. error ≡ Memory };

    fn from(_error: AllocError) -> LexError {
        LexError::Memory
    }
}
