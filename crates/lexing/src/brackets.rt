//! Brackets that stand open.

ghost use Rattle.std.specs.Prelude.{[], IfOk};
ghost use Rattle.lexing.specs.Open.{open_behind, IsInnermost, IsOpenBracket};

use crate::nest::split_first_piece;
use crate::piece::{LexError, Piece, PieceKind};
use crate::scan;
use std::alloc::{AllocError, Global};
use texts::Span;
use tokens::Bracket;

/// An opening bracket that is not closed.
#[derive(Clone, Copy, Debug, PartialEq, Eq)]
pub struct OpenBracket {
    pub bracket: Bracket,
    pub span: Span,
}

/// The innermost bracket that stands open behind the pieces.
fn innermost_open(alloc: Global, pieces: &[Piece]) -> Result<Option<OpenBracket>, AllocError>
    ensures { IfOk result (IsInnermost (open_behind [] pieces.now)) }
{
    let mut unclosed = Vec::new(alloc);
    let mut rest = pieces;
    'pieces: while let Some((piece, after)) = split_first_piece(rest) {
        match piece.kind {
            PieceKind::Open(bracket) => {
                let span = piece.span;
                unclosed.push(OpenBracket { bracket, span })?;
            }
            PieceKind::Close(bracket) => match unclosed.pop() {
                Some(innermost) if innermost.bracket == bracket => {}
                innermost => return Ok(innermost),
            },
            PieceKind::Space | PieceKind::Comment | PieceKind::Token(_) => {}
        }
        rest = after;
    }
    Ok(unclosed.pop())
}

/// The innermost bracket of the source that stands open where its first closing bracket closes nothing or the wrong
/// bracket, or else at its end. `None` where no bracket is open there, and where the source cannot be cut into tokens.
/// It can only want memory.
pub fn open_bracket(alloc: Global, source: &str) -> Result<Option<OpenBracket>, AllocError>
    ensures { IfOk result (IsOpenBracket source.now) }
{
    match scan::cut(alloc, source) {
        Ok(pieces) => innermost_open(alloc, pieces.as_slice()),
        Err(LexError::Memory) => Err(AllocError),
        Err(LexError::TooDeep(_) | LexError::Stopped(_)) => Ok(None),
    }
}
