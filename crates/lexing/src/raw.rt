//! Raw strings that are never closed: the scanner remembers them, so that it looks for each end but once.

ghost use Rattle.std.specs.Prelude.{◌≡◌, ◌≤◌, ℕ, List, chars, Some, None, true, MatchOption};
ghost use Rattle.literals.specs.Scanning.{literal_at};
ghost use Rattle.lexing.specs.declared.piece.PieceKind.TheVariants as kinds;
ghost use Rattle.tokens.specs.declared.token.TokenKind.TheVariants.{Ident};
ghost use Rattle.lexing.specs.RawStrings.{hashes_at, after_letter, opening_at, NoneCloses};

use crate::piece::PieceKind;
use literals::split_first_char;
use tokens::TokenKind;

/// More signs `#` than a raw string may have.
pub const MORE_HASHES: usize = 256;

/// How many signs `#` stand before a quote at the front.
fn hashes(text: &str) -> Option<usize>
    ensures { MatchOption result (hashes_at 0 (chars text.now) ≡ None) (λ count. (body : List ℕ)
        × (hashes_at 0 (chars text.now) ≡ Some (count, body))) }
{
    let mut rest = text;
    let mut count: usize = 0;
    'hashes: loop {
        match split_first_char(rest) {
            Some(('"', _)) => return Some(count),
            Some(('#', after)) if count < 255 => rest = after,
            _ => return None,
        }
        count += 1;
    }
}

/// How many signs `#` stand before a quote, after an `r` at the front.
fn hashes_after_letter(text: &str) -> Option<usize>
    ensures { MatchOption result (after_letter (chars text.now) ≡ None) (λ count. (body : List ℕ)
        × (after_letter (chars text.now) ≡ Some (count, body))) }
{
    match split_first_char(text) {
        Some((c, rest)) if c == 'r' => hashes(rest),
        _ => None,
    }
}

/// How many signs `#` the raw string has that opens at the front.
fn opening_hashes(text: &str) -> Option<usize>
    ensures { MatchOption result (opening_at (chars text.now) ≡ None) (λ count. (body : List ℕ)
        × (opening_at (chars text.now) ≡ Some (count, body))) }
{
    match split_first_char(text) {
        Some((c, rest)) if c == 'r' => hashes(rest),
        Some((c, rest)) if c == 'b' || c == 'c' => hashes_after_letter(rest),
        _ => None,
    }
}

/// Whether a raw string opens at the front with so many signs `#` that it is never closed.
pub fn is_never_closed(unclosed: usize, text: &str) -> bool
    requires { NoneCloses unclosed (chars text.now) }
    ensures { result ≡ true → literal_at (chars text.now) ≡ None }
{
    match opening_hashes(text) {
        Some(count) => unclosed <= count,
        None => false,
    }
}

/// With how many signs `#` no raw string in the text is closed, once it is known which piece is at its front.
pub fn unclosed_after(kind: PieceKind, text: &str, unclosed: usize) -> usize
    requires known { NoneCloses unclosed (chars text.now) }
    requires found { kind ≡ kinds.Token Ident → literal_at (chars text.now) ≡ None }
    ensures { NoneCloses result (chars text.now) }
{
    if kind != PieceKind::Token(TokenKind::Ident) {
        return unclosed;
    }
    match opening_hashes(text) {
        Some(count) if count < unclosed => count,
        _ => unclosed,
    }
}
