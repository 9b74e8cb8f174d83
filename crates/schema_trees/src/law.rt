//! Laws of comparisons.

ghost use Rattle.std.specs.Prelude.{◌≡◌};
ghost use Rattle.std.specs.Bool.{Decides};
ghost use Rattle.schema_trees.specs.declared.tree.TypeWord.{TypeWord as AnyWord};

use crate::tree::TypeWord;

/// What two schemas say of `type` is told equal exactly where it is.
pub fn type_words_are_equal()
    ensures { (one other : AnyWord) →
        Decides (⟦<TypeWord as PartialEq>⟧.eq one other) (one ≡ other) }
{}
