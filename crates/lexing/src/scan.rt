//! Cutting a source into pieces.

ghost use Rattle.std.specs.Prelude.{◌≡◌, ◌<◌, ◌≤◌, ◌-◌, ◌^◌, ◌∷◌, [], length, chars, Some, true, false, IfOk, IfErr};
ghost use Rattle.std.specs.Str.{IsUtf8};
ghost use Rattle.lexing.specs.Pieces.{is_sign, may_end, Cuts};
ghost use Rattle.lexing.specs.RawStrings.{NoneCloses};
ghost use Rattle.lexing.specs.Scanning.{bracket_class, class_of, after_colon, or_sign, comment_at, plain_piece_at, longest_at, piece_at, FindsPiece, IsUncut, IsUncutFrom};
ghost use Rattle.lexing.specs.Fronts.{open_after_piece, IsFront};

use crate::comment::comment;
use crate::piece::{LexError, Piece, PieceKind};
use crate::raw::{MORE_HASHES, is_never_closed, unclosed_after};
use crate::text::{PieceRun, begins_with, is_white};
use crate::word::after_identifier;
use literals::{after_literal, after_run, split_first_char, starts_name};
use std::alloc::Global;
use texts::{List, Span};
use tokens::{Bracket, TokenKind};

/// What a character may begin, other than a literal.
#[derive(Clone, Copy)]
pub enum Class {
    White,
    Slash,
    Colon,
    Sign,
    Quote,
    NameStart,
    Opens(Bracket),
    Closes(Bracket),
    Other,
}

fn is_sign(c: char) -> bool
    ensures { result ≡ is_sign c }
{
    matches!(
        c,
        '!' | '#'
            | '$'
            | '%'
            | '&'
            | '*'
            | '+'
            | ','
            | '-'
            | '.'
            | '/'
            | ':'
            | ';'
            | '<'
            | '='
            | '>'
            | '?'
            | '@'
            | '^'
            | '|'
            | '~'
    )
}

fn bracket_class(c: char) -> Class
    ensures { result ≡ bracket_class c }
{
    match c {
        '(' => Class::Opens(Bracket::Round),
        '[' => Class::Opens(Bracket::Square),
        '{' => Class::Opens(Bracket::Curly),
        ')' => Class::Closes(Bracket::Round),
        ']' => Class::Closes(Bracket::Square),
        '}' => Class::Closes(Bracket::Curly),
        _ => Class::Other,
    }
}

#[tactic(auto, unfolding(crate::specs::Scanning::class_of))]
fn class_of(c: char) -> Class
    ensures { result ≡ class_of c }
{
    if is_white(c) {
        Class::White
    } else if starts_name(c) {
        Class::NameStart
    } else if c == '/' {
        Class::Slash
    } else if c == ':' {
        Class::Colon
    } else if c == '\'' {
        Class::Quote
    } else if is_sign(c) {
        Class::Sign
    } else {
        bracket_class(c)
    }
}

/// What follows a sign that begins with a colon, which stands before the text.
fn after_colon(text: &str) -> &str
    ensures value { chars result.now ≡ after_colon (chars text.now) }
    ensures shorter { length result.now ≤ length text.now }
    ensures utf8 { IsUtf8 result.now }
{
    match split_first_char(text) {
        Some((c, rest)) if c == ':' => rest,
        _ => text,
    }
}

/// The comment or the sign whose first slash stands before the text, and what follows it.
fn after_slash(text: &str) -> (PieceKind, &str)
    ensures value { or_sign (chars text.now) (comment_at (chars text.now))
        ≡ Some (result.0, chars result.1.now) }
    ensures shorter { length result.1.now ≤ length text.now }
    ensures utf8 { IsUtf8 result.1.now }
{
    match comment(text) {
        Some(found) => found,
        None => (PieceKind::Token(TokenKind::Punct), text),
    }
}

/// The longest piece at the front that is no literal, and what follows it.
fn plain_piece(text: &str) -> Option<(PieceKind, &str)>
    ensures { FindsPiece (plain_piece_at (chars text.now)) text.now result }
{
    match split_first_char(text) {
        None => None,
        Some((c, rest)) => match class_of(c) {
            Class::White => Some((PieceKind::Space, after_run(&PieceRun::White, rest))),
            Class::Slash => Some(after_slash(rest)),
            Class::Colon => Some((PieceKind::Token(TokenKind::Punct), after_colon(rest))),
            Class::Sign => Some((PieceKind::Token(TokenKind::Punct), rest)),
            Class::Quote => match after_identifier(rest) {
                Some(after) => Some((PieceKind::Token(TokenKind::Lifetime), after)),
                None => None,
            },
            Class::NameStart => match after_identifier(text) {
                Some(after) => Some((PieceKind::Token(TokenKind::Ident), after)),
                None => None,
            },
            Class::Opens(bracket) => Some((PieceKind::Open(bracket), rest)),
            Class::Closes(bracket) => Some((PieceKind::Close(bracket), rest)),
            Class::Other => None,
        },
    }
}

/// The longest piece at the front, whatever follows it. No raw string in the text with `unclosed` signs `#` or more is
/// closed.
fn longest_piece(text: &str, unclosed: usize) -> Option<(PieceKind, &str)>
    requires { NoneCloses unclosed (chars text.now) }
    ensures { FindsPiece (longest_at (chars text.now)) text.now result }
{
    if is_never_closed(unclosed, text) {
        return plain_piece(text);
    }
    match after_literal(text) {
        Some(rest) => Some((PieceKind::Token(TokenKind::Literal), rest)),
        None => plain_piece(text),
    }
}

/// Whether what follows the piece at the front of the text may follow it.
fn may_end(kind: PieceKind, text: &str, rest: &str) -> bool
    ensures { result ≡ may_end kind (chars text.now) (chars rest.now) }
{
    match kind {
        PieceKind::Token(TokenKind::Lifetime) => !begins_with('\'', rest),
        PieceKind::Token(TokenKind::Punct) => !(begins_with('/', text) && begins_with('*', rest)),
        _ => true,
    }
}

/// The piece at the front, and what follows it.
fn first_piece(text: &str, unclosed: usize) -> Option<(PieceKind, &str)>
    requires { NoneCloses unclosed (chars text.now) }
    ensures { FindsPiece (piece_at (chars text.now)) text.now result }
{
    match longest_piece(text, unclosed) {
        Some((kind, rest)) if may_end(kind, text, rest) => Some((kind, rest)),
        _ => None,
    }
}

/// The span of the first character of what is left of the source.
fn first_char_span(source: &str, rest: &str) -> Span
    requires { length rest.now ≤ length source.now }
    ensures { result.end ≤ length source.now }
{
    let start = source.len() - rest.len();
    match split_first_char(rest) {
        Some((_, after)) => Span {
            start,
            end: source.len() - after.len(),
        },
        None => Span { start, end: start },
    }
}

/// Pieces at the front of a text, and what is left of it.
#[derive(Drop)]
pub struct Front<'s> {
    pub pieces: List<Piece>,
    pub rest: &'s str,
    /// With how many signs `#` no raw string in the rest is closed.
    pub unclosed: usize,
}

/// How many brackets are open after the piece.
fn open_after_piece(kind: PieceKind, depth: usize) -> usize
    requires { depth < 2 ^ 64 - 1 }
    ensures { result ≡ open_after_piece kind depth }
{
    match kind {
        PieceKind::Open(_) => depth + 1,
        PieceKind::Close(_) => depth.saturating_sub(1),
        PieceKind::Space | PieceKind::Comment | PieceKind::Token(_) => depth,
    }
}

/// Whether the pieces are to stop behind the one that begins the text: no bracket is open there, and it is a semicolon or a
/// closing brace, which end items.
fn is_last(stops: bool, depth: usize, kind: PieceKind, text: &str) -> bool
    ensures asked { result ≡ true → stops ≡ true }
    ensures closed { result ≡ true → depth ≡ 0 }
{
    let ends = match kind {
        PieceKind::Token(TokenKind::Punct) => begins_with(';', text),
        _ => kind == PieceKind::Close(Bracket::Curly),
    };
    stops && depth == 0 && ends
}

/// The pieces at the front of the text, which is what is left of the source: all of them or, where it stops, up to the first
/// that ends an item with no bracket open. No raw string in the text with `unclosed` signs `#` or more is closed.
pub fn cut_front<'s>(
    alloc: Global,
    source: &str,
    text: &'s str,
    mut unclosed: usize,
    stops: bool,
) -> Result<Front<'s>, LexError>
    requires within { length text.now ≤ length source.now }
    requires known { NoneCloses unclosed (chars text.now) }
    ensures found { IfOk result (IsFront source.now text.now) }
    ensures whole { stops ≡ false → IfOk result (λ front. front.rest.now ≡ []) }
    ensures refused { IfErr result (IsUncutFrom source.now text.now) }
{
    let mut pieces = List::new(alloc);
    let mut rest = text;
    let mut depth: usize = 0;
    let mut ended = false;
    'pieces: while !rest.is_empty() && !ended {
        match first_piece(rest, unclosed) {
            None => return Err(LexError::Stopped(first_char_span(source, rest))),
            Some((kind, after)) => {
                let span = Span {
                    start: source.len() - rest.len(),
                    end: source.len() - after.len(),
                };
                pieces.push(Piece { kind, span })?;
                unclosed = unclosed_after(kind, rest, unclosed);
                depth = open_after_piece(kind, depth);
                ended = is_last(stops, depth, kind, rest);
                rest = after;
            }
        }
    }
    Ok(Front {
        pieces,
        rest,
        unclosed,
    })
}

/// The pieces of the source.
pub fn cut(alloc: Global, source: &str) -> Result<List<Piece>, LexError>
    ensures found { IfOk result (λ pieces. Cuts pieces 0 (chars source.now)) }
    ensures refused { IfErr result (λ e. IsUncut source.now e) }
{
    match cut_front(alloc, source, source, MORE_HASHES, false) {
        Ok(front) => Ok(front.pieces),
        Err(e) => Err(e),
    }
}
