//! Readers of single words.

ghost use Rattle.std.specs.Prelude.{◌≡◌, ◌<◌, length, IfOk, IfSome, MatchOption, Ok, Err};
ghost use Rattle.tokens.specs.Trees.{tree_view, trees_view};
ghost use Rattle.words.specs.Words.{word_of, words_view, ident_of, lifetime_of};
ghost use Rattle.words.specs.Reading.{Gives, wrong, as_sign, name_at, path_word_at, keyword_at, sign_at, lifetime_at, literal_at, group_at};

use crate::keywords::sign_of;
use crate::stopping::{Stop, stop_at};
use crate::tree_word::{Word, word_of};
use crate::vocabulary::{Keyword, Sign};
use texts::Span;
use tokens::{Bracket, Group, Token, TokenKind, TokenTree};

/// A name, and what follows it. It refuses trees that do not begin with one.
pub fn name_at(trees: &[TokenTree]) -> Result<(&Token, &[TokenTree]), Stop>
    ensures value { Gives (λ p. (ident_of p.0.now, words_view p.1.now)) result
        (name_at (words_view trees.now)) }
    ensures shorter { IfOk result (λ p. length p.1.now < length trees.now) }
{
    match trees {
        [first, rest @ ..] => match word_of(first) {
            Word::Name(token) => Ok((token, rest)),
            _ => Err(stop_at(trees)),
        },
        [] => Err(Stop::Ended),
    }
}

/// A word of a path, and what follows it: a name, `_`, `crate`, `self`, `super` or `Self`. It refuses trees that do not
/// begin with one.
pub fn path_word_at(trees: &[TokenTree]) -> Result<(&Token, &[TokenTree]), Stop>
    ensures value { Gives (λ p. (ident_of p.0.now, words_view p.1.now)) result
        (path_word_at (words_view trees.now)) }
    ensures shorter { IfOk result (λ p. length p.1.now < length trees.now) }
{
    match trees {
        [first, rest @ ..] => match word_of(first) {
            Word::Name(token) | Word::Underscore(token) => Ok((token, rest)),
            Word::Keyword(
                Keyword::Crate | Keyword::SelfValue | Keyword::Super | Keyword::SelfType,
                token,
            ) => Ok((token, rest)),
            _ => Err(stop_at(trees)),
        },
        [] => Err(Stop::Ended),
    }
}

/// The keyword, where the trees begin with it, and what follows it.
pub fn optional_keyword(trees: &[TokenTree], keyword: Keyword) -> Option<(Span, &[TokenTree])>
    ensures value { MatchOption result (keyword_at keyword (words_view trees.now) ≡ Err wrong)
        (λ p. keyword_at keyword (words_view trees.now) ≡ Ok (p.0, words_view p.1.now)) }
    ensures shorter { IfSome result (λ p. length p.1.now < length trees.now) }
{
    match trees {
        [first, rest @ ..] => match word_of(first) {
            Word::Keyword(found, token) if keyword == found => Some((token.span, rest)),
            _ => None,
        },
        [] => None,
    }
}

/// The keyword, and what follows it. It refuses trees that do not begin with it.
pub fn keyword_at(trees: &[TokenTree], keyword: Keyword) -> Result<(Span, &[TokenTree]), Stop>
    ensures value { Gives (λ p. (p.0, words_view p.1.now)) result
        (keyword_at keyword (words_view trees.now)) }
    ensures shorter { IfOk result (λ p. length p.1.now < length trees.now) }
{
    match optional_keyword(trees, keyword) {
        Some((span, rest)) => Ok((span, rest)),
        None => Err(stop_at(trees)),
    }
}

/// Where the tree stands, if it is the sign.
#[tactic(auto, using(crate::proofs::Same::sign_is_itself, crate::proofs::Same::identifier_is_no_sign))]
fn as_sign(tree: &TokenTree, sign: Sign) -> Option<Span>
    ensures { result ≡ as_sign sign (word_of (tree_view tree.now)) }
{
    match tree {
        TokenTree::Token(token) => match token.kind {
            TokenKind::Punct if sign == sign_of(token.text.as_str()) => Some(token.span),
            _ => None,
        },
        TokenTree::Group(_) => None,
    }
}

/// The sign, where the trees begin with it, and what follows it.
pub fn optional_sign(trees: &[TokenTree], sign: Sign) -> Option<(Span, &[TokenTree])>
    ensures value { MatchOption result (sign_at sign (words_view trees.now) ≡ Err wrong)
        (λ p. sign_at sign (words_view trees.now) ≡ Ok (p.0, words_view p.1.now)) }
    ensures shorter { IfSome result (λ p. length p.1.now < length trees.now) }
{
    match trees {
        [first, rest @ ..] => match as_sign(first, sign) {
            Some(span) => Some((span, rest)),
            None => None,
        },
        [] => None,
    }
}

/// The sign, and what follows it. It refuses trees that do not begin with it.
pub fn sign_at(trees: &[TokenTree], sign: Sign) -> Result<(Span, &[TokenTree]), Stop>
    ensures value { Gives (λ p. (p.0, words_view p.1.now)) result
        (sign_at sign (words_view trees.now)) }
    ensures shorter { IfOk result (λ p. length p.1.now < length trees.now) }
{
    match optional_sign(trees, sign) {
        Some((span, rest)) => Ok((span, rest)),
        None => Err(stop_at(trees)),
    }
}

/// A lifetime, where the trees begin with one, and what follows it.
pub fn optional_lifetime(trees: &[TokenTree]) -> Option<(&Token, &[TokenTree])>
    ensures value { MatchOption result (lifetime_at (words_view trees.now) ≡ Err wrong)
        (λ p. lifetime_at (words_view trees.now) ≡ Ok (lifetime_of p.0.now, words_view p.1.now)) }
    ensures shorter { IfSome result (λ p. length p.1.now < length trees.now) }
{
    match trees {
        [TokenTree::Token(token), rest @ ..] => match token.kind {
            TokenKind::Lifetime => Some((token, rest)),
            _ => None,
        },
        [TokenTree::Group(_), ..] => None,
        [] => None,
    }
}

/// A lifetime, and what follows it. It refuses trees that do not begin with one.
pub fn lifetime_at(trees: &[TokenTree]) -> Result<(&Token, &[TokenTree]), Stop>
    ensures value { Gives (λ p. (lifetime_of p.0.now, words_view p.1.now)) result
        (lifetime_at (words_view trees.now)) }
    ensures shorter { IfOk result (λ p. length p.1.now < length trees.now) }
{
    match optional_lifetime(trees) {
        Some((token, rest)) => Ok((token, rest)),
        None => Err(stop_at(trees)),
    }
}

/// A literal, and what follows it. It refuses trees that do not begin with one.
pub fn literal_at(trees: &[TokenTree]) -> Result<(&Token, &[TokenTree]), Stop>
    ensures value { Gives (λ p. (p.0.now, words_view p.1.now)) result
        (literal_at (words_view trees.now)) }
    ensures shorter { IfOk result (λ p. length p.1.now < length trees.now) }
{
    match trees {
        [first, rest @ ..] => match word_of(first) {
            Word::Literal(token) => Ok((token, rest)),
            _ => Err(stop_at(trees)),
        },
        [] => Err(Stop::Ended),
    }
}

/// A group in these brackets, and what follows it. It refuses trees that do not begin with one.
pub fn group_at(trees: &[TokenTree], bracket: Bracket) -> Result<(&Group, &[TokenTree]), Stop>
    ensures value { Gives (λ p. ((trees_view p.0.now.trees, p.0.now.span), words_view p.1.now))
        result (group_at bracket (words_view trees.now)) }
    ensures shorter { IfOk result (λ p. length p.1.now < length trees.now) }
{
    match trees {
        [first, rest @ ..] => match word_of(first) {
            Word::Group(group) if bracket == group.bracket => Ok((group, rest)),
            _ => Err(stop_at(trees)),
        },
        [] => Err(Stop::Ended),
    }
}
