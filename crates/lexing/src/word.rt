//! Identifiers at the front of a text.

ghost use Rattle.std.specs.Prelude.{chars};
ghost use Rattle.lexing.specs.Scanning.{name_at, raw_name_at, identifier_at, Finds};

use crate::text::{PieceRun, after_two};
use literals::{after_run, split_first_char, starts_name};

/// What follows the name at the front.
fn after_name(text: &str) -> Option<&str>
    ensures { Finds (name_at (chars text.now)) text.now result }
{
    match split_first_char(text) {
        Some((c, rest)) if starts_name(c) => Some(after_run(&PieceRun::Name, rest)),
        _ => None,
    }
}

/// What follows the raw name at the front.
fn after_raw_name(text: &str) -> Option<&str>
    ensures { Finds (raw_name_at (chars text.now)) text.now result }
{
    match after_two('r', '#', text) {
        Some(name) => after_name(name),
        None => None,
    }
}

/// What follows the identifier at the front, which may be raw.
pub fn after_identifier(text: &str) -> Option<&str>
    ensures { Finds (identifier_at (chars text.now)) text.now result }
{
    match after_raw_name(text) {
        Some(rest) => Some(rest),
        None => after_name(text),
    }
}
