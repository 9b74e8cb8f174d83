//! What a token tree is to the grammar.

ghost use Rattle.std.specs.Prelude.{◌≡◌, IfOk};
ghost use Rattle.tokens.specs.Trees.{tree_view};
ghost use Rattle.words.specs.Words.{word_of, token_word, identifier_word, ident_of, lifetime_of, is_raw, unmarked, is_raw_lifetime, unmarked_lifetime};
ghost use Rattle.words.specs.Reading.{word_view};

use crate::keywords::{keyword_of, sign_of};
use crate::vocabulary::{Keyword, Sign};
use std::alloc::{AllocError, Global};
use texts::{Span, Text};
use tokens::{Group, Token, TokenKind, TokenTree};
use written_types::Ident;

/// What the grammar has a token tree for.
#[derive(Clone, Copy)]
pub enum Word<'t> {
    /// An identifier that is neither `_` nor a keyword. A raw one is never a keyword.
    Name(&'t Token),
    /// The identifier `_`, perhaps raw.
    Underscore(&'t Token),
    Keyword(Keyword, &'t Token),
    Sign(Sign, Span),
    Lifetime(&'t Token),
    Literal(&'t Token),
    /// A doc comment.
    Doc(&'t Token),
    /// What stands in brackets.
    Group(&'t Group),
}

/// Whether an identifier is raw, and its text without the `r#` of a raw one.
fn unmarked(text: &str) -> (bool, &str)
    ensures raw { result.0 ≡ is_raw text.now }
    ensures text { result.1.now ≡ unmarked text.now }
{
    match text.strip_prefix("r#") {
        Some(rest) => (true, rest),
        None => (false, text),
    }
}

fn identifier_word(token: &Token) -> Word<'_>
    ensures { word_view result ≡ identifier_word (ident_of token.now) }
{
    let (raw, text) = unmarked(token.text.as_str());
    if text == "_" {
        return Word::Underscore(token);
    }
    if raw {
        return Word::Name(token);
    }
    match keyword_of(text) {
        Some(keyword) => Word::Keyword(keyword, token),
        None => Word::Name(token),
    }
}

fn token_word(token: &Token) -> Word<'_>
    ensures { word_view result ≡ token_word token.now.kind token.now }
{
    match token.kind {
        TokenKind::Ident => identifier_word(token),
        TokenKind::Lifetime => Word::Lifetime(token),
        TokenKind::Literal => Word::Literal(token),
        TokenKind::Punct => Word::Sign(sign_of(token.text.as_str()), token.span),
        TokenKind::Doc => Word::Doc(token),
    }
}

/// What the tree is to the grammar.
pub fn word_of(tree: &TokenTree) -> Word<'_>
    ensures { word_view result ≡ word_of (tree_view tree.now) }
{
    match tree {
        TokenTree::Token(token) => token_word(token),
        TokenTree::Group(group) => Word::Group(group),
    }
}

/// The identifier that the token is, without the `r#` of a raw one.
pub fn ident_of(alloc: Global, token: &Token) -> Result<Ident, AllocError>
    ensures { IfOk result (λ x. x ≡ ident_of token.now) }
{
    let (raw, text) = unmarked(token.text.as_str());
    Ok(Ident {
        text: Text::new(alloc, text)?,
        raw,
        span: token.span,
    })
}

/// Whether a lifetime is raw, and its text without the `r#` of a raw one.
fn unmarked_lifetime(alloc: Global, text: &str) -> Result<(bool, Text), AllocError>
    ensures { IfOk result (λ p. (p.0 ≡ is_raw_lifetime text.now)
        × (p.1 ≡ unmarked_lifetime text.now)) }
{
    match text.strip_prefix("'r#") {
        Some(name) => {
            let mut unmarked = Text::new(alloc, "'")?;
            unmarked.push(name)?;
            Ok((true, unmarked))
        }
        None => Ok((false, Text::new(alloc, text)?)),
    }
}

/// The lifetime that the token is, without the `r#` of a raw one. Its text is with the `'`.
pub fn lifetime_of(alloc: Global, token: &Token) -> Result<Ident, AllocError>
    ensures { IfOk result (λ x. x ≡ lifetime_of token.now) }
{
    let (raw, text) = unmarked_lifetime(alloc, token.text.as_str())?;
    Ok(Ident {
        text,
        raw,
        span: token.span,
    })
}
