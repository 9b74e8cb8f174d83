//! Laws of the definitions that contracts cite.

ghost use Rattle.std.specs.Prelude.{◌≡◌, ◌⊎◌, ℕ, ◌≤◌, List, [], ◌∷◌, ◌++◌, length, Some, true};
ghost use Rattle.std.specs.List.{list_any};
ghost use Rattle.literals.specs.Literals.{IsLiteral, is_digit, is_quote, begins_literal};
ghost use Rattle.literals.specs.Scanning.{literal_at};

/// What is found at the front of a text is a literal, and no literal that begins there is longer.
pub fn literals_are_longest()
    ensures sound { (text rest : List ℕ) → literal_at text ≡ Some rest
        → (front : List ℕ) × (text ≡ front ++ rest) × IsLiteral front }
    ensures longest { (front rest : List ℕ) → IsLiteral front
        → (r : List ℕ) × (literal_at (front ++ rest) ≡ Some r) × (length r ≤ length rest) }
{}

/// A literal begins with a digit, a quote or one of `b`, `c` and `r`, and has a quote unless it is a
/// number.
pub fn literals_have_quotes()
    ensures quotes { (c : ℕ) (cs : List ℕ) → IsLiteral (c ∷ cs)
        → (is_digit c ≡ true) ⊎ (list_any is_quote cs ≡ true) }
    ensures first { (c : ℕ) (cs : List ℕ) → IsLiteral (c ∷ cs) → begins_literal c ≡ true }
    ensures some { ¬ (IsLiteral []) }
{}
