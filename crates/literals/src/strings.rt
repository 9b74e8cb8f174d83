//! Strings whose backslashes begin escapes.

ghost use Rattle.std.specs.Prelude.{◌≡◌, chars, false};
ghost use Rattle.literals.specs.Literals.{is_short_escape};
ghost use Rattle.literals.specs.Scanning.{Leaves, allows, begins_seven_bits, begins_code_point, begins_escape, code_goes_on, after_string};

use crate::scan::{begins_with_hex_digit, split_first_char};

const MAX_DIGITS: usize = 6;

/// What a backslash may stand before.
#[derive(Clone, Copy)]
pub enum Escapes {
    Listed,
    Any,
}

fn is_short_escape(c: char) -> bool
    ensures { result ≡ is_short_escape c }
{
    matches!(c, 'n' | 'r' | 't' | '\\' | '0' | '"' | '\'' | '\n')
}

/// Whether the text begins with two hexadecimal digits up to 7F.
fn begins_seven_bits(text: &str) -> bool
    ensures { result ≡ begins_seven_bits (chars text.now) }
{
    match split_first_char(text) {
        Some((high, rest)) => matches!(high, '0'..='7') && begins_with_hex_digit(rest),
        None => false,
    }
}

/// Whether the text begins with up to six hexadecimal digits, each perhaps followed by signs `_`,
/// that are the number of a character, and `}`.
fn ends_code(text: &str) -> bool
    ensures { result ≡ code_goes_on 0 0 (chars text.now) }
{
    let mut rest = text;
    let mut digits: usize = 0;
    let mut value = 0;
    'code: loop {
        let Some((c, after)) = split_first_char(rest) else {
            return false;
        };
        if let Some(digit) = c.to_digit(16) {
            if digits >= MAX_DIGITS {
                return false;
            }
            digits += 1;
            value = value * 16 + digit;
        } else if digits == 0 {
            return false;
        } else if c != '_' {
            return c == '}' && char::from_u32(value).is_some();
        }
        rest = after;
    }
}

/// Whether the text begins with a character's number in braces.
fn begins_code_point(text: &str) -> bool
    ensures { result ≡ begins_code_point (chars text.now) }
{
    match split_first_char(text) {
        Some((c, rest)) => c == '{' && ends_code(rest),
        None => false,
    }
}

/// Whether the text begins with what a backslash in a string may stand before.
fn begins_escape(text: &str) -> bool
    ensures { result ≡ begins_escape (chars text.now) }
{
    match split_first_char(text) {
        Some((c, rest)) => {
            is_short_escape(c)
                || (c == 'x' && begins_seven_bits(rest))
                || (c == 'u' && begins_code_point(rest))
        }
        None => false,
    }
}

fn allows(escapes: Escapes, text: &str) -> bool
    ensures { result ≡ allows escapes (chars text.now) }
{
    match escapes {
        Escapes::Listed => begins_escape(text),
        Escapes::Any => true,
    }
}

/// What follows the string whose first quote stands before the text.
pub fn after_string(escapes: Escapes, text: &str) -> Option<&str>
    ensures { Leaves result text.now (after_string escapes false (chars text.now)) }
{
    let mut rest = text;
    let mut backslash = false;
    'string: loop {
        let (c, after) = split_first_char(rest)?;
        if backslash {
            if !allows(escapes, rest) {
                return None;
            }
            backslash = false;
        } else if c == '"' {
            return Some(after);
        } else {
            backslash = c == '\\';
        }
        rest = after;
    }
}
