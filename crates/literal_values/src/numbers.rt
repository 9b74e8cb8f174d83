//! Whole numbers.

ghost use Rattle.std.specs.Prelude.{◌≡◌, ◌+◌, ◌*◌, ◌^◌, ◌<◌, ◌≤◌, ◌==◌, ◌||◌, ◌∷◌, [], length, position, slice_index, MatchOption, SomeIff};
ghost use Rattle.std.specs.Char.{digit_value};
ghost use Rattle.literal_values.specs.Values.{begins_with_digit, is_integer_suffix, suffix_place, plain, number_in, unsuffixed, whole_value};

/// The number, where it is whole and at most 2^64 - 1. Signs `_` before its suffix count for nothing.
pub fn whole_value(text: &str) -> Option<u64>
    ensures { result ≡ whole_value text.now }
{
    let (number, suffix) = text.split_at(suffix_place(text));
    if !begins_with_digit(text) || !is_integer_suffix(suffix) {
        return None;
    }
    unsuffixed(number.as_bytes())
}

fn begins_with_digit(text: &str) -> bool
    ensures { result ≡ begins_with_digit text.now }
{
    matches!(text.as_bytes(), [b'0'..=b'9', ..])
}

/// Where the name of a type begins.
fn first_of_suffix(text: &str) -> Option<usize>
    ensures { result ≡ position (λ b. (b == 105) || (b == 117)) text.now }
{
    text.as_bytes()
        .iter()
        .position(|b| *b == b'i' || *b == b'u')
}

/// Where the name of a type begins, or else the end.
#[tactic(auto, using(crate::proofs::Reading::suffix_is_ascii))]
fn suffix_place(text: &str) -> usize
    ensures place { result ≡ suffix_place text.now }
    ensures within { result ≤ length text.now }
    ensures boundary { result < length text.now → slice_index text.now result < 128 }
{
    first_of_suffix(text).unwrap_or(text.len())
}

/// Whether it is nothing, or the name of an integer type.
fn is_integer_suffix(text: &str) -> bool
    ensures { result ≡ is_integer_suffix text.now }
{
    matches!(
        text,
        "" | "i8"
            | "i16"
            | "i32"
            | "i64"
            | "i128"
            | "isize"
            | "u8"
            | "u16"
            | "u32"
            | "u64"
            | "u128"
            | "usize"
    )
}

/// The first byte that is no `_`, and what follows it.
#[tactic(auto, using(crate::proofs::Reading::plain_skip, crate::proofs::Reading::plain_more))]
fn split_first_digit(text: &[u8]) -> Option<(u8, &[u8])>
    ensures { MatchOption result (plain text.now ≡ [])
        (λ p. plain text.now ≡ p.0 ∷ plain p.1.now) }
{
    let mut rest = text;
    'signs: while let [first, after @ ..] = rest {
        if *first != b'_' {
            return Some((*first, after));
        }
        rest = after;
    }
    None
}

/// The number without its suffix.
fn unsuffixed(text: &[u8]) -> Option<u64>
    ensures { result ≡ unsuffixed (plain text.now) }
{
    match split_first_digit(text) {
        Some((b'0', rest)) => match split_first_digit(rest) {
            Some((b'x', digits)) => number_in(16, digits),
            Some((b'o', digits)) => number_in(8, digits),
            Some((b'b', digits)) => number_in(2, digits),
            _ => number_in(10, text),
        },
        _ => number_in(10, text),
    }
}

/// The number that the digits write in the base; `None` where there are no digits, or others.
#[tactic(auto, using(crate::proofs::Reading::number_is, crate::proofs::Reading::read_step, crate::proofs::Reading::read_end))]
fn number_in(base: u32, text: &[u8]) -> Option<u64>
    requires least { 2 ≤ base }
    requires most { base ≤ 36 }
    ensures { result ≡ number_in base (plain text.now) }
{
    let mut number: u64 = 0;
    let mut has_digits = false;
    for byte in text {
        if *byte == b'_' {
            continue;
        }
        number = with_digit(base, number, *byte)?;
        has_digits = true;
    }
    if has_digits { Some(number) } else { None }
}

/// The number with one more digit.
fn with_digit(base: u32, number: u64, byte: u8) -> Option<u64>
    requires least { 2 ≤ base }
    requires most { base ≤ 36 }
    ensures { SomeIff result
        ((digit_value byte < base) × (number * base + digit_value byte < 2 ^ 64))
        (number * base + digit_value byte) }
{
    let digit = char::from(byte).to_digit(base)?;
    number
        .checked_mul(u64::from(base))?
        .checked_add(u64::from(digit))
}
