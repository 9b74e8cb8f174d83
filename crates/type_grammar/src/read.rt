//! A whole type, and the laws of the grammar.

ghost use Rattle.std.specs.Prelude.{◌≡◌, ◌⊎◌, ◌<◌, ℕ, List, [], ◌∷◌, length, true, IfOk, Ok, Err};
ghost use Rattle.texts.specs.declared.span.Span.{Span as Bytes};
ghost use Rattle.written_types.specs.Written.{Written, written_view};
ghost use Rattle.words.specs.Words.{Word, words_view};
ghost use Rattle.words.specs.Reading.{Gives, IsWrong, deep};
ghost use Rattle.words.specs.declared.stopping.Stop.{Stop as Reason};
ghost use Rattle.words.specs.declared.stopping.Stop.TheVariants.{Deep};
ghost use Rattle.type_grammar.specs.Starts.{Stops, StopsPath, begins_type};
ghost use Rattle.type_grammar.specs.Grammar.{IsType, IsBound};
ghost use Rattle.type_grammar.specs.Opening.{OpensType, OpensTypeOf, OpensBound};
ghost use Rattle.type_grammar.specs.Reading.{all, type_at, type_in, bound_at};

use crate::parts::is_end;
use crate::types::type_at;
use std::alloc::Global;
use tokens::TokenTree;
use words::{Stop, stop_at};
use written_types::WrittenType;

/// How many levels a type may nest. A path without arguments is one level; a reference, a parenthesis, a tuple, an array, a
/// slice and an argument list are one more than the deepest of their parts.
pub const MAX_LEVELS: usize = 64;

fn whole_type(alloc: Global, trees: &[TokenTree]) -> Result<WrittenType, Stop>
    ensures { Gives written_view result (all (type_at 64 (words_view trees.now))) }
{
    let (found, rest) = type_at(alloc, trees, MAX_LEVELS)?;
    if !is_end(rest) {
        return Err(stop_at(rest));
    }
    Ok(found)
}

/// The type that the trees are, all of them. It refuses trees that are no type of the grammar, and those in which a type
/// begins more than `MAX_LEVELS` levels deep, at the first such place.
pub fn read_type(alloc: Global, trees: &[TokenTree]) -> Result<WrittenType, Stop>
    // What is read is in the grammar, and no part of it begins at level 65.
    ensures found { IfOk result (λ t. IsType (words_view trees.now) (written_view t) []) }
    ensures shallow { IfOk result (λ _. (at : Bytes) → ¬ (OpensType 64 (words_view trees.now) at)) }
    // When each error comes.
    ensures deep { (at : Bytes) → result ≡ Err (Deep at) → OpensType 64 (words_view trees.now) at }
    ensures wrong { (stop : Reason) → result ≡ Err stop → IsWrong stop → (t : Written)
        → ¬ (IsType (words_view trees.now) t []) }
{
    whole_type(alloc, trees)
}

/// What `type_at` reads is a type of the grammar; a type that nothing goes on is read, unless a part of it begins too deep;
/// and reading stops for depth exactly where the first such part begins.
pub fn types_are_read()
    ensures found { (n : ℕ) (ws rest : List Word) (t : Written) → type_at n ws ≡ Ok (t, rest)
        → IsType ws t rest }
    ensures shorter { (n : ℕ) (ws rest : List Word) (t : Written) → type_at n ws ≡ Ok (t, rest)
        → length rest < length ws }
    ensures complete { (n : ℕ) (ws rest : List Word) (t : Written) → IsType ws t rest → Stops rest
        → (type_at n ws ≡ Ok (t, rest)) ⊎ ((at : Bytes) × (type_at n ws ≡ Err (deep at))) }
    ensures deep { (n : ℕ) (ws : List Word) (at : Bytes) → type_at n ws ≡ Err (deep at)
        → OpensType n ws at }
    ensures opens { (n : ℕ) (ws : List Word) (at : Bytes) → OpensType n ws at
        → type_at n ws ≡ Err (deep at) }
{}

/// A type begins with a word that may begin one, and so does one of which a part begins too deep.
pub fn types_begin()
    ensures found { (ws rest : List Word) (t : Written) → IsType ws t rest → (w : Word)
        × (us : List Word) × (ws ≡ w ∷ us) × (begins_type w ≡ true) }
    ensures opens { (n : ℕ) (ws : List Word) (at : Bytes) → OpensType n ws at → (w : Word)
        × (us : List Word) × (ws ≡ w ∷ us) × (begins_type w ≡ true) }
{}

/// Words begin with at most one type that nothing goes on.
pub fn one_type()
    ensures { (ws rest other : List Word) (t u : Written) → IsType ws t rest → Stops rest
        → IsType ws u other → Stops other → (t ≡ u) × (rest ≡ other) }
{}

/// What `bound_at` reads is a bound of the grammar; a bound whose path nothing goes on is read, unless a part of its
/// arguments begins too deep; and reading stops for depth exactly where the first such part begins.
pub fn bounds_are_read()
    ensures found { (n : ℕ) (ws rest : List Word) (at : Bytes)
        → bound_at (type_in n) ws ≡ Ok (at, rest) → IsBound ws at rest }
    ensures shorter { (n : ℕ) (ws rest : List Word) (at : Bytes)
        → bound_at (type_in n) ws ≡ Ok (at, rest) → length rest < length ws }
    ensures complete { (n : ℕ) (ws rest : List Word) (at : Bytes) → IsBound ws at rest
        → StopsPath rest → (bound_at (type_in n) ws ≡ Ok (at, rest))
        ⊎ ((start : Bytes) × (bound_at (type_in n) ws ≡ Err (deep start))) }
    ensures deep { (n : ℕ) (ws : List Word) (at : Bytes) → bound_at (type_in n) ws ≡ Err (deep at)
        → OpensBound (OpensTypeOf n) ws at }
    ensures opens { (n : ℕ) (ws : List Word) (at : Bytes) → OpensBound (OpensTypeOf n) ws at
        → bound_at (type_in n) ws ≡ Err (deep at) }
{}

/// Words begin with at most one bound whose path nothing goes on.
pub fn one_bound()
    ensures { (ws rest other : List Word) (at to : Bytes) → IsBound ws at rest → StopsPath rest
        → IsBound ws to other → StopsPath other → (at ≡ to) × (rest ≡ other) }
{}
