//! Raw strings, which end at a quote and as many signs `#` as they began with.

ghost use Rattle.std.specs.Prelude.{◌≡◌, chars, length, MatchOption};
ghost use Rattle.std.specs.Str.{IsUtf8};
ghost use Rattle.literal_values.specs.Values.{raw_text, raw_string};
ghost use Rattle.literal_values.specs.Pieces.{BeginsWith};
ghost use Rattle.literal_values.specs.declared.strings.Quoting.TheVariants.{Raw};

use crate::strings::{Piece, last_piece};
use literals::{after_hashes, split_first_char};

const MAX_HASHES: usize = 255;

/// How many signs `#` follow the `r`, and what follows the quote after them.
pub fn opened_raw(text: &str) -> Option<(usize, &str)>
    ensures { MatchOption result (raw_string 0 (chars text.now) ≡ None)
        (λ o. (raw_string 0 (chars text.now) ≡ raw_text o.0 (chars o.1.now))
        × IsUtf8 o.1.now) }
{
    let mut rest = text;
    let mut hashes = 0;
    'hashes: loop {
        match split_first_char(rest)? {
            ('"', body) => return Some((hashes, body)),
            ('#', after) if hashes < MAX_HASHES => rest = after,
            _ => return None,
        }
        hashes += 1;
    }
}

/// What a raw text begins with.
pub fn raw_piece(hashes: usize, text: &str) -> Option<Piece<'_>>
    ensures { BeginsWith (Raw hashes) result text.now (raw_text hashes (chars text.now)) }
{
    let (c, rest) = split_first_char(text)?;
    if c == '"' {
        if let Some(rest) = after_hashes(hashes, rest) {
            return last_piece(rest);
        }
    }
    Some(Piece::Character(c, rest))
}
