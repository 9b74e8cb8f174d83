//! Texts with escapes.

ghost use Rattle.std.specs.Prelude.{◌≡◌, ◌≤◌, chars, length, true, false};
ghost use Rattle.std.specs.Str.{IsUtf8};
ghost use Rattle.literal_values.specs.Values.{unescaped, after_backslash, after_x, after_u, in_code, is_blank, escaped_among, short_escapes};
ghost use Rattle.literal_values.specs.Pieces.{BeginsWith};
ghost use Rattle.literal_values.specs.declared.strings.Quoting.TheVariants.{Escaped};

use crate::strings::{Piece, last_piece};
use literals::split_first_char;

const MAX_DIGITS: usize = 6;

/// What a text with escapes begins with.
pub fn escaped_piece(text: &str) -> Option<Piece<'_>>
    ensures { BeginsWith Escaped result text.now (unescaped false (chars text.now)) }
{
    match split_first_char(text)? {
        ('"', rest) => last_piece(rest),
        ('\\', rest) => escape(rest),
        (c, rest) => Some(Piece::Character(c, rest)),
    }
}

/// What an escape without its backslash stands for.
fn escape(text: &str) -> Option<Piece<'_>>
    ensures { BeginsWith Escaped result text.now (after_backslash (chars text.now)) }
{
    match split_first_char(text)? {
        ('\n', rest) => Some(Piece::Nothing(after_blanks(rest))),
        ('x', rest) => seven_bits(rest),
        ('u', rest) => code_point(rest),
        (c, rest) => Some(Piece::Character(short_escape(c)?, rest)),
    }
}

/// The character that stands after a backslash for another.
fn short_escape(c: char) -> Option<char>
    ensures { result ≡ escaped_among c short_escapes }
{
    match c {
        'n' => Some('\n'),
        'r' => Some('\r'),
        't' => Some('\t'),
        '0' => Some('\0'),
        '\\' | '"' | '\'' => Some(c),
        _ => None,
    }
}

fn is_blank(c: char) -> bool
    ensures { result ≡ is_blank c }
{
    matches!(c, '\t' | '\n' | '\r' | ' ')
}

/// What follows the blanks at the front.
fn after_blanks(text: &str) -> &str
    ensures value { unescaped false (chars result.now) ≡ unescaped true (chars text.now) }
    ensures shorter { length result.now ≤ length text.now }
    ensures utf8 { IsUtf8 result.now }
{
    let mut rest = text;
    'blanks: loop {
        match split_first_char(rest) {
            Some((c, after)) if is_blank(c) => rest = after,
            _ => return rest,
        }
    }
}

/// The character of two hexadecimal digits up to 7F.
#[tactic(auto, using(crate::proofs::Characters::ascii_is_scalar))]
fn seven_bits(text: &str) -> Option<Piece<'_>>
    ensures { BeginsWith Escaped result text.now (after_x (chars text.now)) }
{
    let (high, rest) = split_first_char(text)?;
    let (low, rest) = split_first_char(rest)?;
    let code = high.to_digit(8)? * 16 + low.to_digit(16)?;
    Some(Piece::Character(char::from_u32(code)?, rest))
}

/// The character whose number stands in braces.
fn code_point(text: &str) -> Option<Piece<'_>>
    ensures { BeginsWith Escaped result text.now (after_u (chars text.now)) }
{
    match split_first_char(text)? {
        ('{', rest) => code(rest),
        _ => None,
    }
}

/// The character of up to six hexadecimal digits, each perhaps followed by signs `_`, and `}`.
fn code(text: &str) -> Option<Piece<'_>>
    ensures { BeginsWith Escaped result text.now (in_code 0 0 (chars text.now)) }
{
    let mut rest = text;
    let mut digits: usize = 0;
    let mut number = 0;
    'code: loop {
        let (c, after) = split_first_char(rest)?;
        if let Some(digit) = c.to_digit(16) {
            if digits >= MAX_DIGITS {
                return None;
            }
            digits += 1;
            number = number * 16 + digit;
        } else if digits == 0 {
            return None;
        } else if c == '}' {
            return Some(Piece::Character(char::from_u32(number)?, after));
        } else if c != '_' {
            return None;
        }
        rest = after;
    }
}
