//! Lifetimes and constants as arguments.

ghost use Rattle.std.specs.Prelude.{◌≡◌, ◌<◌, ◌≤◌, length, IfOk, IfSome, MatchOption, ◌∷◌, Some, None, codes};
ghost use Rattle.tokens.specs.Trees.{tree_view, group_view, end, ◌▸◌, token};
ghost use Rattle.written_types.specs.Written.{argument_view, constant_argument};
ghost use Rattle.words.specs.Words.{words_view, sign};
ghost use Rattle.words.specs.declared.vocabulary.Sign.TheVariants.{Minus};
ghost use Rattle.type_grammar.specs.Grammar.{minus_token, keyword_token};
ghost use Rattle.type_grammar.specs.Reading.{plain_argument};

use std::alloc::{AllocError, Global};
use texts::{List, Span, Text};
use tokens::{Bracket, Group, Token, TokenKind, TokenTree};
use words::{Keyword, Sign, Word, lifetime_of, word_of};
use written_types::GenericArgument;

/// The constant of one tree.
fn constant(alloc: Global, tree: TokenTree) -> Result<GenericArgument, AllocError>
    ensures { IfOk result (λ a. argument_view a ≡ constant_argument (tree_view tree ▸ end)) }
{
    let mut trees = List::new(alloc);
    trees.push(tree)?;
    Ok(GenericArgument::Constant(trees))
}

/// The constant of the keyword with this text.
fn keyword(alloc: Global, text: &str, span: Span) -> Result<GenericArgument, AllocError>
    ensures { IfOk result
        (λ a. argument_view a ≡ constant_argument (token (keyword_token text.now span) ▸ end)) }
{
    let token = Token {
        kind: TokenKind::Ident,
        text: Text::new(alloc, text)?,
        span,
    };
    constant(alloc, TokenTree::Token(token))
}

/// The constant of the literal behind `-`.
fn negative(alloc: Global, at: Span, literal: &Token) -> Result<GenericArgument, AllocError>
    ensures { IfOk result
        (λ a. argument_view a
        ≡ constant_argument (token (minus_token at) ▸ token literal.now ▸ end)) }
{
    let minus = Token {
        kind: TokenKind::Punct,
        text: Text::new(alloc, "-")?,
        span: at,
    };
    let mut trees = List::new(alloc);
    trees.push(TokenTree::Token(minus))?;
    trees.push(TokenTree::Token(literal.copy(alloc)?))?;
    Ok(GenericArgument::Constant(trees))
}

/// The constant of what stands in curly brackets.
fn block(alloc: Global, group: &Group) -> Result<GenericArgument, AllocError>
    ensures { IfOk result (λ a. argument_view a ≡ constant_argument (group_view group.now ▸ end)) }
{
    constant(alloc, TokenTree::Group(group.copy(alloc)?))
}

/// `-` was read: the literal behind it, if one stands there.
fn after_minus(
    alloc: Global,
    at: Span,
    trees: &[TokenTree],
) -> Result<Option<(GenericArgument, &[TokenTree])>, AllocError>
    ensures value { IfOk result
        (λ found. MatchOption found (plain_argument (sign Minus at ∷ words_view trees.now) ≡ None)
        (λ p. plain_argument (sign Minus at ∷ words_view trees.now)
        ≡ Some (argument_view p.0, words_view p.1.now))) }
    ensures shorter { IfOk result (λ found. IfSome found (λ p. length p.1.now < length trees.now)) }
{
    match trees {
        [] => Ok(None),
        [first, rest @ ..] => match word_of(first) {
            Word::Literal(literal) => Ok(Some((negative(alloc, at, literal)?, rest))),
            _ => Ok(None),
        },
    }
}

/// A lifetime or a constant, where one stands, and what follows it.
pub(crate) fn plain_argument(
    alloc: Global,
    trees: &[TokenTree],
) -> Result<Option<(GenericArgument, &[TokenTree])>, AllocError>
    ensures value { IfOk result
        (λ found. MatchOption found (plain_argument (words_view trees.now) ≡ None)
        (λ p. plain_argument (words_view trees.now)
        ≡ Some (argument_view p.0, words_view p.1.now))) }
    ensures shorter { IfOk result (λ found. IfSome found (λ p. length p.1.now < length trees.now)) }
{
    match trees {
        [] => Ok(None),
        [first, rest @ ..] => match word_of(first) {
            Word::Lifetime(token) => Ok(Some((
                GenericArgument::Lifetime(lifetime_of(alloc, token)?),
                rest,
            ))),
            Word::Literal(token) => Ok(Some((
                constant(alloc, TokenTree::Token(token.copy(alloc)?))?,
                rest,
            ))),
            Word::Sign(Sign::Minus, at) => after_minus(alloc, at, rest),
            Word::Keyword(Keyword::True, token) => {
                Ok(Some((keyword(alloc, "true", token.span)?, rest)))
            }
            Word::Keyword(Keyword::False, token) => {
                Ok(Some((keyword(alloc, "false", token.span)?, rest)))
            }
            Word::Group(group) => match group.bracket {
                Bracket::Curly => Ok(Some((block(alloc, group)?, rest))),
                Bracket::Round | Bracket::Square => Ok(None),
            },
            _ => Ok(None),
        },
    }
}
