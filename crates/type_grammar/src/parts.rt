//! Signs and words between and before the parts of a type.

ghost use Rattle.std.specs.Prelude.{◌≡◌, ◌<◌, ◌≤◌, length, IfSome, MatchOption, Some, None};
ghost use Rattle.written_types.specs.Written.{written_view};
ghost use Rattle.words.specs.Words.{words_view};
ghost use Rattle.words.specs.Reading.{as_sign, as_keyword, as_lifetime};
ghost use Rattle.words.specs.declared.vocabulary.Sign.TheVariants.{Question};
ghost use Rattle.words.specs.declared.vocabulary.Keyword.TheVariants.{Mut};
ghost use Rattle.type_grammar.specs.Reading.{after_sign, without, is_end, ends_list, after_binding, after_lifetimes, first_bound, arguments_after};

use crate::starts::Bounds;
use tokens::TokenTree;
use words::{Keyword, Sign, Word, optional_keyword, optional_lifetime, optional_sign, word_of};

/// What follows the sign, where the trees begin with it.
#[tactic(auto, using(crate::proofs::Firsts::sign_found, crate::proofs::Firsts::sign_missed))]
pub(crate) fn after_sign(trees: &[TokenTree], sign: Sign) -> Option<&[TokenTree]>
    ensures value { MatchOption result (after_sign sign (words_view trees.now) ≡ None)
        (λ rest. after_sign sign (words_view trees.now) ≡ Some (words_view rest.now)) }
    ensures shorter { IfSome result (λ rest. length rest.now < length trees.now) }
{
    match optional_sign(trees, sign) {
        Some((_, rest)) => Some(rest),
        None => None,
    }
}

/// Whether no tree is left.
#[tactic(auto, using(crate::proofs::Steps::end_view))]
pub(crate) fn is_end(trees: &[TokenTree]) -> bool
    ensures { result ≡ is_end (words_view trees.now) }
{
    match trees {
        [] => true,
        [_, ..] => false,
    }
}

/// Whether a list ends before the trees.
pub(crate) fn ends_list(trees: &[TokenTree]) -> bool
    ensures { result ≡ ends_list (words_view trees.now) }
{
    match trees {
        [] => true,
        [first, ..] => matches!(word_of(first), Word::Sign(Sign::Greater, _)),
    }
}

/// What follows a lifetime, where it stands.
#[tactic(auto, using(crate::proofs::Firsts::kind_found, crate::proofs::Firsts::kind_missed))]
pub(crate) fn after_lifetime(trees: &[TokenTree]) -> &[TokenTree]
    ensures value { words_view result.now ≡ without as_lifetime (words_view trees.now) }
    ensures shorter { length result.now ≤ length trees.now }
{
    match optional_lifetime(trees) {
        Some((_, rest)) => rest,
        None => trees,
    }
}

/// What follows the word `mut`, where it stands.
#[tactic(auto, using(crate::proofs::Firsts::kind_found, crate::proofs::Firsts::kind_missed))]
pub(crate) fn after_mut(trees: &[TokenTree]) -> &[TokenTree]
    ensures value { words_view result.now ≡ without (as_keyword Mut) (words_view trees.now) }
    ensures shorter { length result.now ≤ length trees.now }
{
    match optional_keyword(trees, Keyword::Mut) {
        Some((_, rest)) => rest,
        None => trees,
    }
}

/// What follows a `?`, where it stands.
#[tactic(auto, using(crate::proofs::Firsts::kind_found, crate::proofs::Firsts::kind_missed))]
pub(crate) fn after_question(trees: &[TokenTree]) -> &[TokenTree]
    ensures value { words_view result.now ≡ without (as_sign Question) (words_view trees.now) }
    ensures shorter { length result.now ≤ length trees.now }
{
    match optional_sign(trees, Sign::Question) {
        Some((_, rest)) => rest,
        None => trees,
    }
}

/// What follows a lifetime and `+`.
#[tactic(auto, using(crate::proofs::Firsts::lifetime_skipped, crate::proofs::Firsts::no_lifetime_skipped, crate::proofs::Firsts::no_plus_skipped))]
fn after_lifetime_bound(trees: &[TokenTree]) -> Option<&[TokenTree]>
    ensures value { MatchOption result (after_lifetimes (words_view trees.now)
        ≡ words_view trees.now) (λ rest. after_lifetimes (words_view trees.now)
        ≡ after_lifetimes (words_view rest.now)) }
    ensures shorter { IfSome result (λ rest. length rest.now < length trees.now) }
{
    match optional_lifetime(trees) {
        None => None,
        Some((_, after)) => match optional_sign(after, Sign::Plus) {
            None => None,
            Some((_, rest)) => Some(rest),
        },
    }
}

fn after_lifetimes(trees: &[TokenTree]) -> &[TokenTree]
    ensures value { words_view result.now ≡ after_lifetimes (words_view trees.now) }
    ensures shorter { length result.now ≤ length trees.now }
{
    let mut rest = trees;
    'skipping: loop {
        match after_lifetime_bound(rest) {
            None => return rest,
            Some(after) => rest = after,
        }
    }
}

/// Where the first path among the bounds of a trait object begins.
pub(crate) fn first_bound(trees: &[TokenTree], bounds: Bounds) -> &[TokenTree]
    ensures value { words_view result.now ≡ first_bound bounds (words_view trees.now) }
    ensures shorter { length result.now ≤ length trees.now }
{
    match bounds {
        Bounds::One => after_question(trees),
        Bounds::Any => after_question(after_lifetimes(trees)),
    }
}

/// What follows the name and `=` of a binding, where bindings may stand.
pub(crate) fn after_binding(trees: &[TokenTree], bindings: bool) -> &[TokenTree]
    ensures value { words_view result.now ≡ after_binding bindings (words_view trees.now) }
    ensures shorter { length result.now ≤ length trees.now }
{
    if !bindings {
        return trees;
    }
    match trees {
        [] => trees,
        [first, rest @ ..] => match word_of(first) {
            Word::Name(_) => match optional_sign(rest, Sign::Equals) {
                Some((_, after)) => after,
                None => trees,
            },
            _ => trees,
        },
    }
}

/// What follows the sign that opens a list of arguments.
pub(crate) fn arguments_after(trees: &[TokenTree]) -> Option<&[TokenTree]>
    ensures value { MatchOption result (arguments_after (words_view trees.now) ≡ None)
        (λ rest. arguments_after (words_view trees.now) ≡ Some (words_view rest.now)) }
    ensures shorter { IfSome result (λ rest. length rest.now < length trees.now) }
{
    match after_sign(trees, Sign::Less) {
        Some(rest) => Some(rest),
        None => match after_sign(trees, Sign::Colons) {
            Some(rest) => after_sign(rest, Sign::Less),
            None => None,
        },
    }
}
