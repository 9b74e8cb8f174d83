//! Laws of the definitions that contracts cite.

ghost use Rattle.std.specs.Prelude.{◌≡◌, ◌≤◌, ℕ, List, Ok};
ghost use Rattle.texts.specs.declared.span.Span.{Span};
ghost use Rattle.tokens.specs.Trees.{Trees, depth};
ghost use Rattle.words.specs.Words.{words_of};
ghost use Rattle.lexing.specs.Cut.{IsCut, most_open};
ghost use Rattle.syntax.specs.ItemDepth.{within_levels};
ghost use Rattle.syntax.specs.ItemReading.{source_at};
ghost use Rattle.syntax.specs.Items.{DeclaredItem};
ghost use Rattle.syntax.specs.Named.{ReadFieldsAreNamed};
ghost use Rattle.syntax.specs.Source.{Reads, NestsTooDeep};

use lexing::{deep_brackets_nest_deep, one_cut, one_deep_bracket};

/// A source reads as at most one list of declarations.
pub fn one_reading()
    ensures { (source : List ℕ) (ds es : List DeclaredItem) → Reads source ds → Reads source es
        → ds ≡ es }
{
    one_cut();
}

/// What is read has names for its fields in braces.
pub fn read_fields_are_named()
    ensures { ReadFieldsAreNamed }
{}

/// A source nests too deep at one place at most: the first that does.
pub fn one_deep_place()
    ensures { (source : List ℕ) (here there : Span) → NestsTooDeep source here
        → NestsTooDeep source there → here ≡ there }
{
    one_cut();
    one_deep_bracket();
    deep_brackets_nest_deep();
}

/// What is read of the token trees of a source, from left to right and within the levels, is what the source reads as, and then
/// it nests too deep nowhere.
pub fn trees_are_read()
    ensures { (source : List ℕ) (trees : Trees) (ds : List DeclaredItem) → IsCut source trees
        → depth trees ≤ most_open → source_at within_levels (words_of trees) ≡ Ok ds
        → Reads source ds × ((span : Span) → ¬ (NestsTooDeep source span)) }
{
    one_cut();
    deep_brackets_nest_deep();
}
