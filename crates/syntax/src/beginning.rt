//! Inner doc comments and attributes at the beginning of a source, which are read over.

ghost use Rattle.std.specs.Prelude.{◌≡◌, ◌<◌, length, IfSome, MatchOption, is_some, Ok, Err};
ghost use Rattle.tokens.specs.Trees.{tree_view};
ghost use Rattle.tokens.specs.declared.token.Bracket.TheVariants.{Square};
ghost use Rattle.words.specs.Words.{words_view, word_of};
ghost use Rattle.words.specs.Reading.{as_group, wrong};
ghost use Rattle.syntax.specs.ItemReading.{after_inner_attribute, inner_at, after_inner};

use attributes::is_inner_doc;
use tokens::{Bracket, TokenTree};
use words::{Sign, Word, optional_sign, word_of};

fn is_square(tree: &TokenTree) -> bool
    ensures { result ≡ is_some (as_group Square (word_of (tree_view tree.now))) }
{
    match word_of(tree) {
        Word::Group(group) => Bracket::Square == group.bracket,
        _ => false,
    }
}

/// What follows `#!` and its group in square brackets.
fn after_inner_attribute(trees: &[TokenTree]) -> Option<&[TokenTree]>
    ensures value { MatchOption result (after_inner_attribute (words_view trees.now) ≡ Err wrong)
        (λ rest. after_inner_attribute (words_view trees.now) ≡ Ok (words_view rest.now)) }
    ensures shorter { IfSome result (λ rest. length rest.now < length trees.now) }
{
    let (_, rest) = optional_sign(trees, Sign::Hash)?;
    let (_, rest) = optional_sign(rest, Sign::Exclamation)?;
    match rest {
        [first, after @ ..] if is_square(first) => Some(after),
        _ => None,
    }
}

/// What follows an inner doc comment or attribute, if the trees begin with one.
fn inner_at(trees: &[TokenTree]) -> Option<&[TokenTree]>
    ensures value { MatchOption result (inner_at (words_view trees.now) ≡ Err wrong)
        (λ rest. inner_at (words_view trees.now) ≡ Ok (words_view rest.now)) }
    ensures shorter { IfSome result (λ rest. length rest.now < length trees.now) }
{
    match trees {
        [first, rest @ ..] if is_inner_doc(first) => Some(rest),
        [_, ..] => after_inner_attribute(trees),
        [] => None,
    }
}

/// What follows the inner doc comments and attributes that the trees begin with.
pub(crate) fn after_inner(trees: &[TokenTree]) -> &[TokenTree]
    ensures { words_view result.now ≡ after_inner (words_view trees.now) }
{
    let mut rest = trees;
    'inner: while let Some(after) = inner_at(rest) {
        rest = after;
    }
    rest
}
