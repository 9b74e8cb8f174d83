//! Laws of comparisons.

ghost use Rattle.std.specs.Prelude.{◌≡◌};
ghost use Rattle.std.specs.Bool.{Decides};
ghost use Rattle.texts.specs.declared.span.Span.{Span as AnySpan};

use crate::span::Span;

/// Two spans are equal exactly where they start at one byte and end at one.
pub fn spans_are_equal_by_ends()
    ensures { (one other : AnySpan) → Decides (⟦<Span as PartialEq>⟧.eq one other)
        ((one.start ≡ other.start) × (one.end ≡ other.end)) }
{}
