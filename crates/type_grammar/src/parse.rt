//! From a text to a type.

ghost use Rattle.std.specs.Prelude.{◌≤◌, ◌⊎◌, IfOk};
ghost use Rattle.diag.specs.Refusal.{Refuses};
ghost use Rattle.texts.specs.declared.span.Span.{Span};
ghost use Rattle.written_types.specs.Written.{written_view};
ghost use Rattle.type_grammar.specs.Source.{ReadsType, TypeNestsTooDeep, IsNoType, IsDeepType, IsRefusalOf};

use crate::read::read_type;
use diag::DeriveError;
use lexing::{deep_brackets_nest_deep, lex, one_cut};
use std::alloc::Global;
use texts::Span;
use words::Stop;
use written_types::WrittenType;

/// The span, as far as it lies in a text of that many bytes.
fn within(span: Span, bytes: usize) -> Span
    ensures { result.end ≤ bytes }
{
    Span {
        start: span.start.min(bytes),
        end: span.end.min(bytes),
    }
}

/// The error for reading that stopped in a text of that many bytes.
pub fn refusal_of(alloc: Global, stop: Stop, bytes: usize) -> DeriveError
    ensures { IsRefusalOf stop bytes result }
{
    match stop {
        Stop::Memory => DeriveError::Memory,
        Stop::Deep(span) => DeriveError::too_deep(alloc, span),
        Stop::Unexpected(span) => DeriveError::syntax(alloc, within(span, bytes)),
        Stop::Ended => DeriveError::syntax(
            alloc,
            Span {
                start: bytes,
                end: bytes,
            },
        ),
    }
}

/// The type that the whole text is, by the grammar of types.
///
/// A refusal of kind `Syntax` has a span of the text: where it cannot be cut, as `lex` says; or that of the token or
/// opening bracket that reading could not go on with, of the closing bracket of a group that ended too soon, or of the
/// end of the text. One of kind `TooDeep` has the span of the first bracket that opens inside 64 others or, where there
/// is none, of the first token of the first part of the type that begins 64 levels further in.
pub fn parse_type(alloc: Global, text: &str) -> Result<WrittenType, DeriveError>
    ensures found { IfOk result (λ t. ReadsType text.now (written_view t)) }
    ensures shallow { IfOk result (λ _. (span : Span) → ¬ (TypeNestsTooDeep text.now span)) }
    ensures refused { Refuses result (λ e. IsDeepType text.now e ⊎ IsNoType text.now e) }
{
    let trees = lex(alloc, text)?;
    // The text has no other trees.
    one_cut();
    deep_brackets_nest_deep();
    match read_type(alloc, trees.as_slice()) {
        Ok(ty) => Ok(ty),
        Err(stop) => Err(refusal_of(alloc, stop, text.len())),
    }
}
