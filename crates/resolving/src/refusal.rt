//! Refusals of written types.

ghost use Rattle.std.specs.Prelude.{◌≡◌, ◌⊎◌};
ghost use Rattle.resolving.specs.Resolved.{IsRefusedFor, unknown_type, wrong_arity, bad_argument, too_large};

use diag::{DeriveError, Kind};
use std::alloc::Global;
use texts::Span;
use written_types::Ident;

/// The refusal of a name that is not known, or want of memory.
pub(crate) fn unknown_type(alloc: Global, ident: &Ident) -> DeriveError
    ensures { (result ≡ DeriveError.Memory) ⊎ IsRefusedFor (unknown_type ident.now) result }
{
    match format!(in alloc; "unknown type {}", ident.text.as_str()) {
        Ok(message) => {
            DeriveError::refusal(alloc, Kind::UnknownType, ident.span, message.as_str())
        }
        Err(error) => DeriveError::from(error),
    }
}

/// The refusal of a name with other type arguments than it takes, or want of memory.
pub(crate) fn arity(alloc: Global, ident: &Ident) -> DeriveError
    ensures { (result ≡ DeriveError.Memory) ⊎ IsRefusedFor (wrong_arity ident.now) result }
{
    let name = ident.text.as_str();
    match format!(in alloc; "wrong number of type arguments for {name}") {
        Ok(message) => DeriveError::refusal(alloc, Kind::Arity, ident.span, message.as_str()),
        Err(error) => DeriveError::from(error),
    }
}

/// The refusal of a declared name with an argument that cannot be one, or want of memory.
pub(crate) fn bad_argument(alloc: Global, ident: &Ident) -> DeriveError
    ensures { (result ≡ DeriveError.Memory) ⊎ IsRefusedFor (bad_argument ident.now) result }
{
    DeriveError::refusal(
        alloc,
        Kind::BadArgument,
        ident.span,
        "tuples, arrays and slices cannot be generic arguments",
    )
}

/// The refusal of a type with too many names, or want of memory.
pub(crate) fn type_size(alloc: Global, span: Span) -> DeriveError
    ensures { (result ≡ DeriveError.Memory) ⊎ IsRefusedFor (too_large span) result }
{
    DeriveError::refusal(
        alloc,
        Kind::TypeSize,
        span,
        "a type has more than 256 names",
    )
}
