//! Characters in single quotes.

ghost use Rattle.std.specs.Prelude.{◌≡◌, chars};
ghost use Rattle.literals.specs.Scanning.{Leaves, after_apostrophe, after_escaped, closed, after_character};

use crate::scan::split_first_char;

/// What follows the next `'`.
fn after_apostrophe(text: &str) -> Option<&str>
    ensures { Leaves result text.now (after_apostrophe (chars text.now)) }
{
    let mut rest = text;
    'text: loop {
        let (c, after) = split_first_char(rest)?;
        if c == '\'' {
            return Some(after);
        }
        rest = after;
    }
}

/// What follows the character whose backslash stands before the text.
fn after_escaped(text: &str) -> Option<&str>
    ensures { Leaves result text.now (after_escaped (chars text.now)) }
{
    let (_, rest) = split_first_char(text)?;
    after_apostrophe(rest)
}

/// What follows a `'` at the front.
fn closed(text: &str) -> Option<&str>
    ensures { Leaves result text.now (closed (chars text.now)) }
{
    match split_first_char(text) {
        Some(('\'', rest)) => Some(rest),
        _ => None,
    }
}

/// What follows the character whose first `'` stands before the text.
pub fn after_character(text: &str) -> Option<&str>
    ensures { Leaves result text.now (after_character (chars text.now)) }
{
    match split_first_char(text) {
        None | Some(('\'', _)) => None,
        Some(('\\', rest)) => after_escaped(rest),
        Some((_, rest)) => closed(rest),
    }
}
