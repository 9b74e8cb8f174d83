//! How types begin.

ghost use Rattle.std.specs.Prelude.{◌≡◌};
ghost use Rattle.tokens.specs.Trees.{tree_view};
ghost use Rattle.words.specs.Words.{word_of};
ghost use Rattle.type_grammar.specs.Reading.{start_view};
ghost use Rattle.type_grammar.specs.Starts.{type_start, begins_bound};

use texts::Span;
use tokens::{Bracket, Group, TokenTree};
use words::{Keyword, Sign, Word, word_of};

/// How many bounds a trait object may have.
#[derive(Clone, Copy, Debug, PartialEq, Eq)]
pub enum Bounds {
    /// One, which is a path, as behind `&`.
    One,
    /// One or more, with `+` between them.
    Any,
}

/// Where a list ends whose brackets are no group, or that stands in none.
#[derive(Clone, Copy, Debug, PartialEq, Eq)]
pub enum ListEnd {
    /// At `>`.
    Angle,
    /// At `;` or a group in curly brackets, as that of a where clause.
    Clause,
}

/// What a type is, by its first tree.
#[derive(Clone, Copy)]
pub(crate) enum TypeStart<'t> {
    Path,
    Reference,
    /// The word `dyn` stands there.
    Object(Span),
    Round(&'t Group),
    Square(&'t Group),
    NoType,
}

/// What a type that begins with the tree is.
pub(crate) fn type_start(tree: &TokenTree) -> TypeStart<'_>
    ensures { start_view result ≡ type_start (word_of (tree_view tree.now)) }
{
    match word_of(tree) {
        Word::Name(_) | Word::Underscore(_) => TypeStart::Path,
        Word::Keyword(keyword, token) => match keyword {
            Keyword::Crate | Keyword::SelfValue | Keyword::Super | Keyword::SelfType => {
                TypeStart::Path
            }
            Keyword::Dyn => TypeStart::Object(token.span),
            _ => TypeStart::NoType,
        },
        Word::Sign(Sign::Colons, _) => TypeStart::Path,
        Word::Sign(Sign::Ampersand, _) => TypeStart::Reference,
        Word::Sign(_, _) | Word::Lifetime(_) | Word::Literal(_) | Word::Doc(_) => TypeStart::NoType,
        Word::Group(group) => match group.bracket {
            Bracket::Round => TypeStart::Round(group),
            Bracket::Square => TypeStart::Square(group),
            Bracket::Curly => TypeStart::NoType,
        },
    }
}

/// Whether a bound may begin with the tree: a lifetime, `?` or a path.
pub(crate) fn begins_bound(tree: &TokenTree) -> bool
    ensures { result ≡ begins_bound (word_of (tree_view tree.now)) }
{
    match word_of(tree) {
        Word::Name(_) | Word::Underscore(_) | Word::Lifetime(_) => true,
        Word::Keyword(keyword, _) => matches!(
            keyword,
            Keyword::Crate | Keyword::SelfValue | Keyword::Super | Keyword::SelfType
        ),
        Word::Sign(sign, _) => matches!(sign, Sign::Colons | Sign::Question),
        Word::Literal(_) | Word::Doc(_) | Word::Group(_) => false,
    }
}
