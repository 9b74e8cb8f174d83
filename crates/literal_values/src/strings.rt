//! Strings, read piece by piece.

ghost use Rattle.std.specs.Prelude.{◌≡◌, [], IfOk, chars, MatchOption};
ghost use Rattle.std.specs.Str.{IsUtf8};
ghost use Rattle.literal_values.specs.Values.{ended, string_value};
ghost use Rattle.literal_values.specs.Pieces.{quoted, BeginsWith};

use crate::escapes::escaped_piece;
use crate::raw_strings::{opened_raw, raw_piece};
use literals::split_first_char;
use std::alloc::{AllocError, Global};
use texts::Text;

/// How the text between the quotes is written.
#[derive(Clone, Copy)]
pub enum Quoting {
    /// With escapes.
    Escaped,
    /// As it stands, up to a quote and so many signs `#`.
    Raw(usize),
}

/// What the text begins with, and what follows.
pub enum Piece<'t> {
    /// The last quote, which ends the text.
    End,
    /// What stands for the character.
    Character(char, &'t str),
    /// What counts for nothing.
    Nothing(&'t str),
}

/// What the text begins with; `None` where no string goes on like that.
fn piece_at(quoting: Quoting, text: &str) -> Option<Piece<'_>>
    ensures { BeginsWith quoting result text.now (quoted quoting (chars text.now)) }
{
    match quoting {
        Quoting::Escaped => escaped_piece(text),
        Quoting::Raw(hashes) => raw_piece(hashes, text),
    }
}

/// The last piece, where nothing follows it.
pub fn last_piece(rest: &str) -> Option<Piece<'_>>
    ensures { MatchOption result (ended (chars rest.now) ≡ None)
        (λ piece. (piece ≡ Piece.End) × (ended (chars rest.now) ≡ Some [])) }
{
    match split_first_char(rest) {
        Some(_) => None,
        None => Some(Piece::End),
    }
}

/// How the string is written, and what follows its first quote; `None` where no string begins.
fn opened(text: &str) -> Option<(Quoting, &str)>
    ensures { MatchOption result (string_value (chars text.now) ≡ None)
        (λ o. (string_value (chars text.now) ≡ quoted o.0 (chars o.1.now))
        × IsUtf8 o.1.now) }
{
    match split_first_char(text)? {
        ('"', rest) => Some((Quoting::Escaped, rest)),
        ('r', rest) => {
            let (hashes, rest) = opened_raw(rest)?;
            Some((Quoting::Raw(hashes), rest))
        }
        _ => None,
    }
}

/// The value of a string, with its escapes decoded.
pub fn string_value(alloc: Global, text: &str) -> Result<Option<Text>, AllocError>
    ensures { IfOk result (λ value. value ≡ string_value (chars text.now)) }
{
    match opened(text) {
        Some((quoting, rest)) => quoted(alloc, quoting, rest),
        None => Ok(None),
    }
}

/// The value of what follows the first quote.
fn quoted(alloc: Global, quoting: Quoting, text: &str) -> Result<Option<Text>, AllocError>
    ensures { IfOk result (λ value. value ≡ quoted quoting (chars text.now)) }
{
    let mut value = String::new(alloc);
    let mut rest = text;
    'pieces: loop {
        match piece_at(quoting, rest) {
            None => return Ok(None),
            Some(Piece::End) => return Ok(Some(Text::from(value))),
            Some(Piece::Nothing(after)) => rest = after,
            Some(Piece::Character(c, after)) => {
                value.push(c)?;
                rest = after;
            }
        }
    }
}
