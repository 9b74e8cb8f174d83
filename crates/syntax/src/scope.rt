//! Visibilities, commas and spans.

ghost use Rattle.std.specs.Prelude.{◌≡◌, ◌<◌, ◌≤◌, length};
ghost use Rattle.tokens.specs.Trees.{tree_view};
ghost use Rattle.words.specs.Words.{span_of, words_view, word_of};
ghost use Rattle.syntax.specs.ItemWords.{is_comma, spanning};
ghost use Rattle.syntax.specs.ItemReading.{is_scope, ends_item, after_scope, after_visibility};

use texts::Span;
use tokens::{Bracket, TokenTree};
use words::{Keyword, Sign, Word, covering, is_restriction, optional_keyword, word_of};

pub(crate) fn is_comma(tree: &TokenTree) -> bool
    ensures { result ≡ is_comma (word_of (tree_view tree.now)) }
{
    matches!(word_of(tree), Word::Sign(Sign::Comma, _))
}

fn is_scope(tree: &TokenTree) -> bool
    ensures { result ≡ is_scope (word_of (tree_view tree.now)) }
{
    match word_of(tree) {
        Word::Group(group) => match group.bracket {
            Bracket::Round => is_restriction(group.trees.as_slice()),
            Bracket::Square | Bracket::Curly => false,
        },
        _ => false,
    }
}

/// Whether an item of a list ends before these trees.
fn ends_item(trees: &[TokenTree]) -> bool
    ensures { result ≡ ends_item (words_view trees.now) }
{
    match trees {
        [] => true,
        [first, _rest @ ..] => is_comma(first),
    }
}

/// What follows the group that restricts `pub`. Where an unnamed field ends behind a group, it is the field's type.
fn after_scope(trees: &[TokenTree], in_tuple: bool) -> &[TokenTree]
    ensures value { words_view result.now ≡ after_scope in_tuple (words_view trees.now) }
    ensures shorter { length result.now ≤ length trees.now }
{
    match trees {
        [first, rest @ ..] => {
            if is_scope(first) && !(in_tuple && ends_item(rest)) {
                rest
            } else {
                trees
            }
        }
        [] => trees,
    }
}

/// What follows the visibility, if one stands there.
#[tactic(auto, unfolding(crate::specs::ItemReading::after_visibility))]
pub(crate) fn after_visibility(trees: &[TokenTree], in_tuple: bool) -> &[TokenTree]
    ensures value { words_view result.now ≡ after_visibility in_tuple (words_view trees.now) }
    ensures shorter { length result.now ≤ length trees.now }
{
    match optional_keyword(trees, Keyword::Pub) {
        Some((_, rest)) => after_scope(rest, in_tuple),
        None => trees,
    }
}

/// The bytes of the tree.
fn span_of(tree: &TokenTree) -> Span
    ensures { result ≡ span_of (word_of (tree_view tree.now)) }
{
    match tree {
        TokenTree::Token(token) => token.span,
        TokenTree::Group(group) => group.span,
    }
}

/// From the first of the trees to the last that stands before the rest.
pub(crate) fn spanning(trees: &[TokenTree], rest: &[TokenTree]) -> Span
    requires { length rest.now < length trees.now }
    ensures { result ≡ spanning (words_view trees.now) (words_view rest.now) }
{
    let last = trees.len() - rest.len() - 1;
    covering(span_of(&trees[0]), span_of(&trees[last]))
}
