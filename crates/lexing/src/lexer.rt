//! From a source to its token trees.

ghost use Rattle.std.specs.Prelude.{◌≡◌, ◌≤◌, ◌⊎◌, IfOk, IfErr};
ghost use Rattle.diag.specs.Refusal.{Refuses};
ghost use Rattle.tokens.specs.Trees.{trees_view, depth};
ghost use Rattle.lexing.specs.Cut.{most_open, IsCut, IsDepthError, IsSyntaxError, IsUnread, IsToldOf};

use crate::nest::{self, MAX_DEPTH};
use crate::piece::LexError;
use crate::scan;
use diag::DeriveError;
use std::alloc::Global;
use texts::List;
use tokens::TokenTree;

/// The refusal of a source for the error.
pub fn refusal(alloc: Global, e: LexError) -> DeriveError
    ensures { IsToldOf e result }
{
    match e {
        LexError::Memory => DeriveError::Memory,
        LexError::TooDeep(span) => DeriveError::too_deep(alloc, span),
        LexError::Stopped(span) => DeriveError::syntax(alloc, span),
    }
}

/// The token trees of the source, whose pieces are cut and nested with white space and comments dropped. Brackets
/// nest at most 64 deep.
///
/// A refusal of kind `Syntax` has a span of the source: that of the first character at which it cannot be cut, or else
/// of a closing bracket that matches nothing or the wrong bracket, or of the end of the source where a bracket is never
/// closed. One of kind `TooDeep` has the span of the first bracket that opens inside 64 others.
pub fn lex(alloc: Global, source: &str) -> Result<List<TokenTree>, DeriveError>
    ensures found { IfOk result (λ trees. IsCut source.now (trees_view trees)) }
    ensures shallow { IfOk result (λ trees. depth (trees_view trees) ≤ most_open) }
    ensures refused { Refuses result (λ e. IsDepthError source.now e ⊎ IsSyntaxError source.now e) }
{
    match token_trees(alloc, source) {
        Ok(trees) => Ok(trees),
        Err(e) => Err(refusal(alloc, e)),
    }
}

pub fn token_trees(alloc: Global, source: &str) -> Result<List<TokenTree>, LexError>
    ensures found { IfOk result (λ trees. IsCut source.now (trees_view trees)) }
    ensures shallow { IfOk result (λ trees. depth (trees_view trees) ≤ most_open) }
    ensures refused { IfErr result (λ e. IsUnread source.now e) }
{
    let pieces = scan::cut(alloc, source)?;
    let (trees, rest) = nest::trees_at(alloc, source, pieces.as_slice(), MAX_DEPTH)?;
    match nest::split_first_piece(rest) {
        None => Ok(trees),
        Some((closing, _)) => Err(LexError::Stopped(closing.span)),
    }
}
