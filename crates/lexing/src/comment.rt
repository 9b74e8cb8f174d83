//! Comments at the front of a text.

ghost use Rattle.std.specs.Prelude.{◌≡◌, ◌<◌, ◌-◌, ◌^◌, [], length, chars, MatchOption};
ghost use Rattle.std.specs.Str.{IsUtf8};
ghost use Rattle.lexing.specs.Pieces.{is_doc};
ghost use Rattle.lexing.specs.declared.comment.Mark.TheVariants.{Opens, Closes};
ghost use Rattle.lexing.specs.Scanning.{IsMark, open_after, closing_at, comment_kind, comment_at, Finds, FindsPiece};

use crate::piece::PieceKind;
use crate::text::{PieceRun, after_two, begins_with};
use literals::{after_run, split_first_char};
use tokens::TokenKind;

/// What stands at the front of a text in a block comment.
#[derive(Clone, Copy)]
pub enum Mark {
    /// `/*`
    Opens,
    /// `*/`
    Closes,
    /// One character that begins neither.
    Plain,
}

/// The mark at the front, and what follows it.
fn first_mark(text: &str) -> Option<(Mark, &str)>
    ensures { MatchOption result (chars text.now ≡ [])
        (λ p. IsMark p.0 (chars text.now) (chars p.1.now) × (length p.1.now < length text.now)
        × IsUtf8 p.1.now) }
{
    match after_two('/', '*', text) {
        Some(rest) => Some((Mark::Opens, rest)),
        None => match after_two('*', '/', text) {
            Some(rest) => Some((Mark::Closes, rest)),
            None => match split_first_char(text) {
                Some((_, rest)) => Some((Mark::Plain, rest)),
                None => None,
            },
        },
    }
}

/// How many block comments are open after the mark.
fn open_after(mark: Mark, depth: usize) -> usize
    requires some { 0 < depth }
    requires few { depth < 2 ^ 64 - 1 }
    ensures { result ≡ open_after mark depth }
{
    match mark {
        Mark::Opens => depth + 1,
        Mark::Closes => depth - 1,
        Mark::Plain => depth,
    }
}

/// What follows the end of an open block comment.
fn after_block(text: &str) -> Option<&str>
    ensures { Finds (closing_at 1 (chars text.now)) text.now result }
{
    let mut depth: usize = 1;
    let mut rest = text;
    'marks: while depth > 0 {
        match first_mark(rest) {
            None => return None,
            Some((mark, after)) => {
                depth = open_after(mark, depth);
                rest = after;
            }
        }
    }
    Some(rest)
}

/// Whether a comment is a doc comment, by the second character of what opens it and what follows that.
fn is_doc(second: char, text: &str) -> bool
    ensures { result ≡ is_doc second (chars text.now) }
{
    match split_first_char(text) {
        Some((c, rest)) => {
            c == '!' || (c == second && !(begins_with(second, rest) || begins_with('/', rest)))
        }
        None => false,
    }
}

fn comment_kind(is_doc: bool) -> PieceKind
    ensures { result ≡ comment_kind is_doc }
{
    if is_doc {
        PieceKind::Token(TokenKind::Doc)
    } else {
        PieceKind::Comment
    }
}

/// The comment at the front, by what follows its first slash, and what follows the comment.
pub fn comment(text: &str) -> Option<(PieceKind, &str)>
    ensures { FindsPiece (comment_at (chars text.now)) text.now result }
{
    match split_first_char(text) {
        Some((c, body)) if c == '/' => {
            let kind = comment_kind(is_doc('/', body));
            Some((kind, after_run(&PieceRun::Line, body)))
        }
        Some((c, body)) if c == '*' => match after_block(body) {
            Some(rest) => Some((comment_kind(is_doc('*', body)), rest)),
            None => None,
        },
        _ => None,
    }
}
