ghost use Rattle.std.specs.Prelude.{◌≡◌, IfOk};
ghost use Rattle.std.specs.String.{string_bytes};
ghost use Rattle.rows.specs.Refusals.{refusal_text, IsTextOf};

use diag::{DeriveError, Diagnostics};
use std::alloc::{AllocError, Global};

/// The kind, the span and the message of what is reported, as `Syntax 3..4: unexpected text in a declaration`.
pub fn report_text(alloc: Global, diagnostics: &Diagnostics) -> Result<String, AllocError>
    ensures { IfOk result (λ text. string_bytes text ≡ refusal_text diagnostics.now) }
{
    let (kind, span) = (diagnostics.kind(), diagnostics.span());
    format!(in alloc;
        "{kind} {}..{}: {}",
        span.start,
        span.end,
        diagnostics.message()
    )
}

/// The report of a refusal. Want of memory has none, and is handed on.
pub fn refusal_text(alloc: Global, error: &DeriveError) -> Result<String, AllocError>
    ensures { IfOk result (λ text. IsTextOf error.now (string_bytes text)) }
{
    match error {
        DeriveError::Refused(diagnostics) => report_text(alloc, diagnostics),
        DeriveError::Memory => Err(AllocError),
    }
}
