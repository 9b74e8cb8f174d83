//! What may restrict a visibility, and what goes to a semicolon.

ghost use Rattle.std.specs.Prelude.{◌≡◌, ◌<◌, length, IfSome};
ghost use Rattle.std.specs.Option.{option_map};
ghost use Rattle.tokens.specs.Trees.{tree_view};
ghost use Rattle.words.specs.Words.{words_view, word_of};
ghost use Rattle.words.specs.Visibility.{is_semicolon, after_semicolon, is_end, is_restriction};

use crate::tree_word::{Word, word_of};
use crate::vocabulary::{Keyword, Sign};
use tokens::TokenTree;

fn is_semicolon(tree: &TokenTree) -> bool
    ensures { result ≡ is_semicolon (word_of (tree_view tree.now)) }
{
    matches!(word_of(tree), Word::Sign(Sign::Semicolon, _))
}

/// What follows the first `;`.
pub fn after_semicolon(trees: &[TokenTree]) -> Option<&[TokenTree]>
    ensures value { option_map (λ rest. words_view rest.now) result
        ≡ after_semicolon (words_view trees.now) }
    ensures shorter { IfSome result (λ rest. length rest.now < length trees.now) }
{
    let mut rest = trees;
    'trees: while let [first, after @ ..] = rest {
        if is_semicolon(first) {
            return Some(after);
        }
        rest = after;
    }
    None
}

/// Whether there are no trees.
pub fn is_end(trees: &[TokenTree]) -> bool
    ensures { result ≡ is_end (words_view trees.now) }
{
    match trees {
        [] => true,
        [_first, _rest @ ..] => false,
    }
}

/// Whether `pub` may be restricted by a group of the trees: `crate`, `self` or `super` alone, or `in` and what follows it.
pub fn is_restriction(trees: &[TokenTree]) -> bool
    ensures { result ≡ is_restriction (words_view trees.now) }
{
    match trees {
        [first, rest @ ..] => match word_of(first) {
            Word::Keyword(Keyword::Crate | Keyword::SelfValue | Keyword::Super, _) => is_end(rest),
            Word::Keyword(Keyword::In, _) => after_semicolon(rest).is_none(),
            _ => false,
        },
        [] => false,
    }
}
