//! A law of the definitions that contracts cite.

ghost use Rattle.std.specs.Prelude.{ℕ, List};
ghost use Rattle.diag.specs.declared.error.DeriveError.{DeriveError as AnyError};
ghost use Rattle.reporting.specs.Bytes.{IsText, IsTooLong, IsNoText};

/// Bytes that are a text are neither too many nor no UTF-8.
pub fn texts_are_read()
    ensures short { (bytes : List ℕ) (e : AnyError) → IsText bytes → ¬ (IsTooLong bytes e) }
    ensures utf8 { (bytes : List ℕ) (e : AnyError) → IsText bytes → ¬ (IsNoText bytes e) }
{}
