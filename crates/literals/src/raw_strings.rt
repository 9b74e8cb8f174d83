//! Raw strings, which end at a quote and as many signs `#` as they began with.

ghost use Rattle.std.specs.Prelude.{◌≡◌, chars};
ghost use Rattle.literals.specs.Scanning.{Leaves, after_hashes, after_raw_text, after_raw_string};

use crate::scan::split_first_char;

const MAX_HASHES: usize = 255;

/// What follows so many signs `#` at the front; `None` where fewer stand there.
pub fn after_hashes(hashes: usize, text: &str) -> Option<&str>
    ensures { Leaves result text.now (after_hashes hashes (chars text.now)) }
{
    let mut rest = text;
    let mut left = hashes;
    'hashes: while left > 0 {
        match split_first_char(rest) {
            Some(('#', after)) => rest = after,
            _ => return None,
        }
        left -= 1;
    }
    Some(rest)
}

/// What follows the first quote with so many signs `#` after it.
fn after_raw_text(hashes: usize, text: &str) -> Option<&str>
    ensures { Leaves result text.now (after_raw_text hashes (chars text.now)) }
{
    let mut rest = text;
    'text: loop {
        let (c, after) = split_first_char(rest)?;
        if c == '"' {
            if let Some(end) = after_hashes(hashes, after) {
                return Some(end);
            }
        }
        rest = after;
    }
}

/// What follows the raw string whose letters stand before the text.
pub fn after_raw_string(text: &str) -> Option<&str>
    ensures { Leaves result text.now (after_raw_string 0 (chars text.now)) }
{
    let mut rest = text;
    let mut hashes = 0;
    'hashes: loop {
        match split_first_char(rest) {
            Some(('"', body)) => return after_raw_text(hashes, body),
            Some(('#', after)) if hashes < MAX_HASHES => rest = after,
            _ => return None,
        }
        hashes += 1;
    }
}
