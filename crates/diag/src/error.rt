ghost use Rattle.diag.specs.Refusal.{IsErrorFor, IsRefusal, IsHelpRefusal, IsSyntaxRefusal, IsDepthRefusal};

use crate::diagnostics::Diagnostics;
use crate::kind::Kind;
use std::alloc::{AllocError, Global};
use texts::Span;
use thiserror::Error;

/// Why a derivation has no answer: a refusal with its diagnostic, or want of memory.
#[derive(Debug, Drop, Error)]
pub enum DeriveError {
    #[error(transparent)]
    Refused(Diagnostics),
    #[error("out of memory")]
    Memory,
}

impl DeriveError {
    /// The refusal by one diagnostic, without suggestions and instances, or want of memory.
    pub fn refusal(alloc: Global, kind: Kind, span: Span, message: &str) -> DeriveError
        ensures { IsErrorFor (IsRefusal kind span message.now) result }
    {
        match Diagnostics::with_span(alloc, kind, span, message) {
            Ok(diagnostics) => DeriveError::Refused(diagnostics),
            Err(_) => DeriveError::Memory,
        }
    }

    /// The refusal by one diagnostic with a help, which tells what the reader may do, or want of memory.
    pub fn refusal_with_help(
        alloc: Global,
        kind: Kind,
        span: Span,
        message: &str,
        help: &str,
    ) -> DeriveError
        ensures { IsErrorFor (IsHelpRefusal kind span message.now help.now) result }
    {
        let refused = Diagnostics::with_span(alloc, kind, span, message);
        match refused.and_then(|diagnostics| diagnostics.help(help)) {
            Ok(diagnostics) => DeriveError::Refused(diagnostics),
            Err(_) => DeriveError::Memory,
        }
    }

    /// The refusal of kind `Syntax` of text that its grammar cannot go on with, or want of memory.
    pub fn syntax(alloc: Global, span: Span) -> DeriveError
        ensures { IsErrorFor (IsSyntaxRefusal span) result }
    {
        DeriveError::refusal(
            alloc,
            Kind::Syntax,
            span,
            "unexpected text in a declaration",
        )
    }

    /// The refusal of kind `TooDeep` of text that nests deeper than 64 levels, or want of memory.
    pub fn too_deep(alloc: Global, span: Span) -> DeriveError
        ensures { IsErrorFor (IsDepthRefusal span) result }
    {
        DeriveError::refusal(alloc, Kind::TooDeep, span, "nesting is deeper than 64")
    }
}

impl From<AllocError> for DeriveError {
    ghost use Rattle.std.specs.Prelude.{◌≡◌};
    ghost use Rattle.diag.specs.declared.error.DeriveError.TheVariants.{Memory};

    ghost from_gives = { λ _ error. error ≡ Memory };

    fn from(_error: AllocError) -> DeriveError {
        DeriveError::Memory
    }
}
