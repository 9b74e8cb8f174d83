//! Laws of the definitions that contracts cite, and of comparisons.

ghost use Rattle.std.specs.Prelude.{◌≡◌, ℕ, List, Some, IsSome, chars};
ghost use Rattle.std.specs.Bool.{Decides};
ghost use Rattle.tokens.specs.declared.token.Token.{Token};
ghost use Rattle.tokens.specs.declared.token.TokenKind.TheVariants.{Literal};
ghost use Rattle.literal_values.specs.Values.{text_value};
ghost use Rattle.literal_values.specs.Strings.{IsPlainString, IsTextOf};
ghost use Rattle.literal_values.specs.declared.value.LiteralValue.{LiteralValue as AnyValue};

use crate::value::LiteralValue;

/// The text of a token is what it says as a string, and tokens that are no string, or have a prefix or a suffix, have none.
#[tactic(auto, using(crate::proofs::Sayings::text_is_said, crate::proofs::Sayings::said_is_text, crate::proofs::Sayings::strings_have_texts))]
pub fn texts_are_said()
    ensures said { (t : Token) (text : List ℕ) → text_value t ≡ Some text → IsTextOf t text }
    ensures read { (t : Token) (text : List ℕ) → IsTextOf t text → text_value t ≡ Some text }
    ensures all { (t : Token) → t.kind ≡ Literal → IsPlainString (chars t.text)
        → IsSome (text_value t) }
{}

/// Two values of literals are told equal exactly where they are.
pub fn values_are_equal()
    ensures { (one other : AnyValue) →
        Decides (⟦<LiteralValue as PartialEq>⟧.eq one other) (one ≡ other) }
{}
