//! Numbers.

ghost use Rattle.std.specs.Prelude.{◌≡◌, ◌≤◌, ◌∷◌, length, chars};
ghost use Rattle.std.specs.Str.{IsUtf8};
ghost use Rattle.unicode_ident.specs.Ident.{is_xid_continue};
ghost use Rattle.literals.specs.Literals.{is_decimal, is_e, is_sign};
ghost use Rattle.literals.specs.Scanning.{skip, last_of_word, after_exponent, after_fraction, after_number};

use crate::scan::{LiteralRun, after_run, begins_with_digit, split_first_char};

fn is_e(c: char) -> bool
    ensures { result ≡ is_e c }
{
    matches!(c, 'e' | 'E')
}

fn is_sign(c: char) -> bool
    ensures { result ≡ is_sign c }
{
    matches!(c, '+' | '-')
}

/// Whether a number does not begin with `0x`, `0o` or `0b`.
fn is_decimal(first: char, text: &str) -> bool
    ensures { result ≡ is_decimal (first ∷ chars text.now) }
{
    match split_first_char(text) {
        Some((c, _)) => !(first == '0' && matches!(c, 'x' | 'o' | 'b')),
        None => true,
    }
}

/// The last of the first character and the continue characters after it, and what follows them.
fn word(first: char, text: &str) -> (char, &str)
    ensures last { result.0 ≡ last_of_word first (chars text.now) }
    ensures rest { chars result.1.now ≡ skip is_xid_continue (chars text.now) }
    ensures shorter { length result.1.now ≤ length text.now }
    ensures utf8 { IsUtf8 result.1.now }
{
    let mut before = first;
    let mut rest = text;
    'word: loop {
        match split_first_char(rest) {
            Some((c, after)) if unicode_ident::is_xid_continue(c) => {
                before = c;
                rest = after;
            }
            _ => return (before, rest),
        }
    }
}

/// What follows the exponent's sign and digits, if the number so far takes them.
fn after_exponent(decimal: bool, before: char, text: &str) -> &str
    ensures value { chars result.now ≡ after_exponent decimal before (chars text.now) }
    ensures shorter { length result.now ≤ length text.now }
    ensures utf8 { IsUtf8 result.now }
{
    match split_first_char(text) {
        Some((c, rest)) if decimal && is_e(before) && is_sign(c) && begins_with_digit(rest) => {
            after_run(&LiteralRun::Digits, rest)
        }
        _ => text,
    }
}

/// What follows the number whose digits before the point stand before the text.
fn after_fraction(decimal: bool, before: char, text: &str) -> &str
    ensures value { chars result.now ≡ after_fraction decimal before (chars text.now) }
    ensures shorter { length result.now ≤ length text.now }
    ensures utf8 { IsUtf8 result.now }
{
    match split_first_char(text) {
        Some((c, rest)) if c == '.' && begins_with_digit(rest) => {
            let (before, rest) = word(c, rest);
            after_exponent(decimal, before, rest)
        }
        _ => after_exponent(decimal, before, text),
    }
}

/// What follows the number whose first digit stands before the text.
pub fn after_number(first: char, text: &str) -> &str
    ensures value { chars result.now ≡ after_number first (chars text.now) }
    ensures shorter { length result.now ≤ length text.now }
    ensures utf8 { IsUtf8 result.now }
{
    let (before, rest) = word(first, text);
    after_fraction(is_decimal(first, text), before, rest)
}
