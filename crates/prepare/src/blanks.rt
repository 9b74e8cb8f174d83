//! The text of a declaration as it is read.

ghost use Rattle.std.specs.Prelude.{◌≡◌, ◌++◌, ◌≤◌, replicate, string_bytes, chars, encode_utf8_all, encode_utf8, length, IfOk, OnOk};
ghost use Rattle.prepare.specs.Blanks.{covers, blank_or_not, blanked, with_blanks};

use literals::split_first_char;
use std::alloc::{AllocError, Global};
use texts::{Span, Text};

/// Whether the byte is one of a span.
fn covers(spans: &[Span], at: usize) -> bool
    ensures { result ≡ covers spans.now at }
{
    let mut rest = spans;
    'spans: while let [first, after @ ..] = rest {
        if first.start <= at && at < first.end {
            return true;
        }
        rest = after;
    }
    false
}

/// Writes so many blanks.
fn push_blanks(text: &mut String, times: usize) -> Result<(), AllocError>
    ensures { OnOk result (string_bytes text.new ≡ string_bytes text.old ++ replicate times 32) }
{
    let mut left = times;
    'blanks: while left > 0 {
        text.push(' ')?;
        left -= 1;
    }
    Ok(())
}

/// The source, of which so many bytes of a file stand up to its end, with blanks where these spans of the file have bytes.
#[tactic(auto, unfolding(crate::specs::Blanks::with_blanks))]
pub fn with_blanks(
    alloc: Global,
    spans: &[Span],
    end: usize,
    source: &str,
) -> Result<Text, AllocError>
    ensures { IfOk result (λ text. text ≡ with_blanks spans.now end source.now) }
{
    let mut text = String::new(alloc);
    let mut rest = source;
    'chars: while let Some((c, after)) = split_first_char(rest) {
        if covers(spans, end.saturating_sub(rest.len())) {
            push_blanks(&mut text, rest.len() - after.len())?;
        } else {
            text.push(c)?;
        }
        rest = after;
    }
    Ok(Text::from(text))
}
