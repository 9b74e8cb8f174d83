//! Nesting pieces by their brackets.

ghost use Rattle.std.specs.Prelude.{◌≡◌, ◌≤◌, ◌∷◌, [], length, IfOk, MatchOption};
ghost use Rattle.std.specs.Str.{IsCharBoundary};
ghost use Rattle.tokens.specs.Trees.{token, tree_view};
ghost use Rattle.lexing.specs.Nesting.{token_of};
ghost use Rattle.lexing.specs.Reading.{LieIn, EndFrom, Nests, NestsGroup};

use crate::piece::{LexError, Piece, PieceKind};
use std::alloc::{AllocError, Global};
use texts::{List, Span, Text};
use tokens::{Bracket, Group, Token, TokenKind, TokenTree};

/// How deep brackets may nest: 64 of them may be open.
pub const MAX_DEPTH: usize = 64;

/// The piece at the front, and those after it.
pub fn split_first_piece(pieces: &[Piece]) -> Option<(Piece, &[Piece])>
    ensures { MatchOption result (pieces.now ≡ []) (λ p. pieces.now ≡ p.0 ∷ p.1.now) }
{
    match pieces.split_first() {
        None => None,
        Some((piece, rest)) => Some((*piece, rest)),
    }
}

/// The empty span at the end of the source.
fn end_of(source: &str) -> Span
    ensures start { result.start ≡ length source.now }
    ensures end { result.end ≡ length source.now }
{
    Span {
        start: source.len(),
        end: source.len(),
    }
}

/// The token of the span.
fn token_at(
    alloc: Global,
    source: &str,
    kind: TokenKind,
    span: Span,
) -> Result<TokenTree, AllocError>
    requires start { IsCharBoundary source.now span.start }
    requires end { IsCharBoundary source.now span.end }
    ensures { IfOk result (λ t. tree_view t ≡ token (token_of source.now kind span)) }
{
    let text = Text::new(alloc, &source[span.start..span.end])?;
    Ok(TokenTree::Token(Token { kind, text, span }))
}

/// The trees up to a closing bracket or the end, with at most `left` levels of brackets, and the pieces that follow.
#[cycle(nest)]
pub fn trees_at<'p>(
    alloc: Global,
    source: &str,
    pieces: &'p [Piece],
    left: usize,
) -> Result<(List<TokenTree>, &'p [Piece]), LexError>
    requires { LieIn source.now pieces.now }
    ensures value { Nests source.now left pieces.now result }
    ensures shorter { IfOk result (λ p. length p.1.now ≤ length pieces.now) }
{
    let mut found = List::new(alloc);
    let mut rest = pieces;
    'pieces: loop {
        match split_first_piece(rest) {
            None => return Ok((found, rest)),
            Some((piece, after)) => match piece.kind {
                PieceKind::Space => rest = after,
                PieceKind::Comment => rest = after,
                PieceKind::Token(kind) => {
                    found.push(token_at(alloc, source, kind, piece.span)?)?;
                    rest = after;
                }
                PieceKind::Close(_) => return Ok((found, rest)),
                PieceKind::Open(bracket) => {
                    let (group, mid) = group_at(alloc, source, bracket, piece, after, left)?;
                    found.push(group)?;
                    rest = mid;
                }
            },
        }
    }
}

/// The group that the bracket opens, and the pieces that follow its closing bracket.
#[cycle(nest)]
fn group_at<'p>(
    alloc: Global,
    source: &str,
    bracket: Bracket,
    opening: Piece,
    pieces: &'p [Piece],
    left: usize,
) -> Result<(TokenTree, &'p [Piece]), LexError>
    requires { LieIn source.now (opening ∷ pieces.now) }
    ensures value { NestsGroup source.now left bracket opening pieces.now result }
    ensures shorter { IfOk result (λ p. length p.1.now ≤ length pieces.now) }
{
    if left == 0 {
        return Err(LexError::TooDeep(opening.span));
    }
    let (trees, rest) = trees_at(alloc, source, pieces, left - 1)?;
    match split_first_piece(rest) {
        None => Err(LexError::Stopped(end_of(source))),
        Some((closing, mid)) => {
            if closing.kind != PieceKind::Close(bracket) {
                return Err(LexError::Stopped(closing.span));
            }
            let span = Span {
                start: opening.span.start,
                end: closing.span.end,
            };
            Ok((
                TokenTree::Group(Group {
                    bracket,
                    trees: trees.shrunk(),
                    span,
                }),
                mid,
            ))
        }
    }
}
