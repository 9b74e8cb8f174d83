//! Laws of the definitions that contracts cite.

ghost use Rattle.std.specs.Prelude.{◌≡◌, ◌<◌, ℕ, List, Some};
ghost use Rattle.texts.specs.declared.span.Span.{Span};
ghost use Rattle.tokens.specs.Trees.{Trees, depth};
ghost use Rattle.lexing.specs.Cut.{IsCut, OpensTooDeep, most_open};
ghost use Rattle.lexing.specs.Lying.{TreesLie};
ghost use Rattle.lexing.specs.Open.{IsOpenBracket};
ghost use Rattle.lexing.specs.declared.brackets.OpenBracket.{OpenBracket};

/// A source has at most one list of token trees.
pub fn one_cut()
    ensures { (source : List ℕ) (ts us : Trees) → IsCut source ts → IsCut source us → ts ≡ us }
{}

/// At most one bracket of a source is told to open too deep: the first that does.
pub fn one_deep_bracket()
    ensures { (source : List ℕ) (here there : Span) → OpensTooDeep source here
        → OpensTooDeep source there → here ≡ there }
{}

/// Where a bracket of a source opens too deep, the token trees nest deeper than brackets may.
pub fn deep_brackets_nest_deep()
    ensures { (source : List ℕ) (trees : Trees) (span : Span) → IsCut source trees
        → OpensTooDeep source span → most_open < depth trees }
{}

/// The token trees of a source, those in groups too, begin and end between two of its characters.
pub fn trees_lie()
    ensures { TreesLie }
{}

/// No bracket stands open in a source that has token trees.
pub fn cut_sources_are_closed()
    ensures { (source : List ℕ) (trees : Trees) (innermost : OpenBracket) → IsCut source trees
        → ¬ (IsOpenBracket source (Some innermost)) }
{}
