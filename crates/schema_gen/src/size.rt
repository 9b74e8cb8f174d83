//! Sizes of samples.

ghost use Rattle.std.specs.Prelude.{◌≡◌, ◌<◌, ◌≤◌, ℕ, MatchOption};
ghost use Rattle.std.specs.Fmt.{decimal};
ghost use Rattle.samples.specs.Samples.{most_declarations};

use samples::MOST_DECLARATIONS;

/// How many declarations a sample has: from 1 to 1000.
#[derive(Clone, Copy)]
pub(crate) struct SampleSize {
    pub(crate) many: usize,
    pub(crate) ghost some: { 0 < many },
    pub(crate) ghost few: { many ≤ most_declarations },
}

/// The size of a sample that the text says, in decimal and without a leading zero, if it says one.
pub(crate) fn size_of(text: &str) -> Option<SampleSize>
    ensures { MatchOption result
        ((n : ℕ) → 0 < n → n ≤ most_declarations → ¬ (text.now ≡ decimal n))
        (λ size. text.now ≡ decimal size.many) }
{
    let bytes = text.as_bytes();
    if bytes.is_empty() || bytes[0] == b'+' || bytes[0] == b'0' {
        return None;
    }
    match text.parse::<usize>() {
        Ok(many) if 0 < many && many <= MOST_DECLARATIONS => Some(SampleSize { many }),
        _ => None,
    }
}
