//! Reading characters from the front of a text.

ghost use Rattle.std.specs.Prelude.{◌≡◌, ◌<◌, ◌∷◌, length, chars, false, MatchOption};
ghost use Rattle.std.specs.Str.{IsUtf8};
ghost use Rattle.lexing.specs.Pieces.{is_white, begins_with, begins_with_two};

use literals::{Run, split_first_char};

/// What a run of characters is part of.
#[derive(Clone, Copy)]
pub enum PieceRun {
    White,
    Name,
    Line,
}

impl Run for PieceRun {
    ghost use Rattle.lexing.specs.Scanning.{continues as continues_run};

    ghost passes = { continues_run };

    fn continues(&self, c: char) -> bool {
        match self {
            PieceRun::White => is_white(c),
            PieceRun::Name => unicode_ident::is_xid_continue(c),
            PieceRun::Line => c != '\n',
        }
    }
}

pub fn begins_with(first: char, text: &str) -> bool
    ensures { result ≡ begins_with first (chars text.now) }
{
    match split_first_char(text) {
        Some((c, _)) => c == first,
        None => false,
    }
}

/// What follows the two characters, where the text begins with them.
pub fn after_two(first: char, second: char, text: &str) -> Option<&str>
    ensures { MatchOption result (begins_with_two first second (chars text.now) ≡ false)
        (λ rest. (chars text.now ≡ first ∷ second ∷ chars rest.now)
        × (length rest.now < length text.now) × IsUtf8 rest.now) }
{
    match split_first_char(text) {
        Some((c, rest)) if c == first => match split_first_char(rest) {
            Some((d, after)) if d == second => Some(after),
            _ => None,
        },
        _ => None,
    }
}

pub fn is_white(c: char) -> bool
    ensures { result ≡ is_white c }
{
    matches!(
        c,
        '\u{9}'..='\u{d}' | ' ' | '\u{85}' | '\u{200e}' | '\u{200f}' | '\u{2028}' | '\u{2029}'
    )
}
