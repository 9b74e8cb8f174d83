//! Each form of a literal, and the suffix after it.

ghost use Rattle.std.specs.Prelude.{◌≡◌, ◌<◌, ◌≤◌, length, chars, MatchOption, Some, None};
ghost use Rattle.std.specs.Str.{IsUtf8};
ghost use Rattle.literals.specs.Scanning.{Leaves, after_b, after_c, after_first, form_at, after_suffix, literal_at};

use crate::characters::after_character;
use crate::numbers::after_number;
use crate::raw_strings::after_raw_string;
use crate::scan::{LiteralRun, after_run, is_digit, split_first_char, starts_name};
use crate::strings::{Escapes, after_string};

/// What follows the byte, byte string or raw byte string whose `b` stands before the text.
fn after_b(text: &str) -> Option<&str>
    ensures { Leaves result text.now (after_b (chars text.now)) }
{
    match split_first_char(text) {
        Some(('"', rest)) => after_string(Escapes::Any, rest),
        Some(('\'', rest)) => after_character(rest),
        Some(('r', rest)) => after_raw_string(rest),
        _ => None,
    }
}

/// What follows the C string or raw C string whose `c` stands before the text.
fn after_c(text: &str) -> Option<&str>
    ensures { Leaves result text.now (after_c (chars text.now)) }
{
    match split_first_char(text) {
        Some(('"', rest)) => after_string(Escapes::Any, rest),
        Some(('r', rest)) => after_raw_string(rest),
        _ => None,
    }
}

/// What follows the literal other than a number whose first character stands before the text.
fn after_first(first: char, text: &str) -> Option<&str>
    ensures { Leaves result text.now (after_first first (chars text.now)) }
{
    match first {
        '"' => after_string(Escapes::Listed, text),
        '\'' => after_character(text),
        'b' => after_b(text),
        'c' => after_c(text),
        'r' => after_raw_string(text),
        _ => None,
    }
}

/// What follows the literal at the front, where its suffix would begin.
fn after_form(text: &str) -> Option<&str>
    ensures { MatchOption result (form_at (chars text.now) ≡ None)
        (λ rest. (form_at (chars text.now) ≡ Some (chars rest.now))
        × (length rest.now < length text.now) × IsUtf8 rest.now) }
{
    let (first, rest) = split_first_char(text)?;
    if is_digit(first) {
        Some(after_number(first, rest))
    } else {
        after_first(first, rest)
    }
}

/// What follows an identifier at the front, or else the text.
fn after_suffix(text: &str) -> &str
    ensures value { chars result.now ≡ after_suffix (chars text.now) }
    ensures shorter { length result.now ≤ length text.now }
    ensures utf8 { IsUtf8 result.now }
{
    match split_first_char(text) {
        Some((c, rest)) if starts_name(c) => after_run(&LiteralRun::Word, rest),
        _ => text,
    }
}

/// What follows the longest literal at the front of the text, with its suffix; `None` where no
/// literal begins there.
pub fn after_literal(text: &str) -> Option<&str>
    ensures { MatchOption result (literal_at (chars text.now) ≡ None)
        (λ rest. (literal_at (chars text.now) ≡ Some (chars rest.now))
        × (length rest.now < length text.now) × IsUtf8 rest.now) }
{
    let rest = after_form(text)?;
    Some(after_suffix(rest))
}
