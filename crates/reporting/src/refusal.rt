//! Refusals of a file and of bytes that are no text of a source, and the report of any refusal.

ghost use Rattle.std.specs.Prelude.{◌≡◌, ◌≤◌, ◌⊎◌, length, codes, IfOk};
ghost use Rattle.std.specs.Str.{IsUtf8, IsValidUpTo, IsErrorLen, valid_up_to, error_len};
ghost use Rattle.diag.specs.Refusal.{IsRefusal, Refuses};
ghost use Rattle.texts.specs.Span.{no_span};
ghost use Rattle.reporting.specs.Bytes.{most_bytes, IsBroken, IsNoText};
ghost use Rattle.reporting.specs.Report.{refusal_line};

use diag::{DeriveError, Diagnostics, Kind};
use std::alloc::{AllocError, Global};
use std::str::Utf8Error;
use texts::{Span, Text};

/// The most bytes of a source, and of a configuration's file.
pub(crate) const MAX_BYTES: usize = 1_048_576;

/// The refusal of a source of too many bytes, or want of memory.
pub fn too_long(alloc: Global) -> DeriveError
    ensures { (result ≡ DeriveError.Memory)
        ⊎ IsRefusal Kind.TooLong no_span (codes "the source is longer than 1048576 bytes") result }
{
    DeriveError::refusal(
        alloc,
        Kind::TooLong,
        Span::nowhere(),
        "the source is longer than 1048576 bytes",
    )
}

/// Where the first bytes stand that are no UTF-8.
fn broken_span(bytes: &[u8], fault: &Utf8Error) -> Span
    requires no_text { ¬ (IsUtf8 bytes.now) }
    requires front { IsValidUpTo bytes.now (valid_up_to fault.now) }
    requires len { IsErrorLen bytes.now (valid_up_to fault.now) (error_len fault.now) }
    ensures { IsBroken bytes.now result }
{
    let start = fault.valid_up_to();
    match fault.error_len() {
        Some(len) => Span::new(start, start + len),
        None => Span::new(start, bytes.len()),
    }
}

/// The bytes of a source as a text.
pub fn source_text(alloc: Global, bytes: &[u8]) -> Result<&str, DeriveError>
    requires { length bytes.now ≤ most_bytes }
    ensures text { IfOk result (λ text. (text.now ≡ bytes.now) × IsUtf8 bytes.now) }
    ensures refused { Refuses result (IsNoText bytes.now) }
{
    let fault = match str::from_utf8(bytes) {
        Ok(text) => return Ok(text),
        Err(fault) => fault,
    };
    Err(DeriveError::syntax(alloc, broken_span(bytes, &fault)))
}

/// The line that reports the refusal.
pub(crate) fn refusal_line(alloc: Global, refusal: &Diagnostics) -> Result<Text, AllocError>
    ensures { IfOk result (λ line. line ≡ refusal_line refusal.now) }
{
    let kind = refusal.kind();
    let span = refusal.span();
    let text = refusal.text(alloc)?;
    let line = format!(in alloc;
        "refused: {kind} {}..{}: {}\n",
        span.start,
        span.end,
        text.as_str()
    )?;
    Ok(Text::from(line))
}
