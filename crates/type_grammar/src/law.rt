//! Laws of the texts of types.

ghost use Rattle.std.specs.Prelude.{◌≡◌, ℕ, List};
ghost use Rattle.texts.specs.declared.span.Span.{Span};
ghost use Rattle.type_grammar.specs.Source.{ReadsType, TypeNestsTooDeep};
ghost use Rattle.written_types.specs.Written.{Written};

use lexing::{deep_brackets_nest_deep, one_cut, one_deep_bracket};

/// A text reads as at most one type.
pub fn one_type_reading()
    ensures { (text : List ℕ) (t u : Written) → ReadsType text t → ReadsType text u → t ≡ u }
{
    one_cut();
}

/// The text of a type nests too deep at one place at most: the first that does.
pub fn one_deep_type()
    ensures { (text : List ℕ) (here there : Span) → TypeNestsTooDeep text here
        → TypeNestsTooDeep text there → here ≡ there }
{
    one_cut();
    one_deep_bracket();
    deep_brackets_nest_deep();
}
