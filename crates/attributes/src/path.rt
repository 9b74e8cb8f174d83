//! Paths of attributes.

ghost use Rattle.std.specs.Prelude.{◌≡◌, ◌<◌, length, IfOk};
ghost use Rattle.written_types.specs.Written.{path_view};
ghost use Rattle.words.specs.Words.{words_view, ident_of};
ghost use Rattle.words.specs.Reading.{Gives};
ghost use Rattle.attributes.specs.AttributeWords.{extent, path_item};
ghost use Rattle.attributes.specs.AttributeReading.{ident_at, idents_at, path_at};

use std::alloc::{AllocError, Global};
use texts::{List, Span};
use tokens::{Token, TokenTree};
use words::{Sign, Stop, Word, covering, ident_of, optional_sign, stop_at, word_of};
use written_types::{Ident, Path, PathSegment};

/// An identifier, keywords and `_` too, and what follows it.
pub(crate) fn ident_at(trees: &[TokenTree]) -> Result<(&Token, &[TokenTree]), Stop>
    ensures value { Gives (λ p. (ident_of p.0.now, words_view p.1.now)) result
        (ident_at (words_view trees.now)) }
    ensures shorter { IfOk result (λ p. length p.1.now < length trees.now) }
{
    match trees {
        [first, rest @ ..] => match word_of(first) {
            Word::Name(token) | Word::Underscore(token) => Ok((token, rest)),
            Word::Keyword(_, token) => Ok((token, rest)),
            _ => Err(stop_at(trees)),
        },
        [] => Err(Stop::Ended),
    }
}

/// The identifiers of a path, with `::` between them, and what follows them.
#[tactic(auto, unfolding(crate::specs::AttributeReading::idents_at))]
fn idents_at(alloc: Global, trees: &[TokenTree]) -> Result<(List<Ident>, &[TokenTree]), Stop>
    ensures value { Gives (λ p. (p.0, words_view p.1.now)) result
        (idents_at (words_view trees.now)) }
    ensures shorter { IfOk result (λ p. length p.1.now < length trees.now) }
{
    let (first, mut rest) = ident_at(trees)?;
    let mut idents = List::new(alloc);
    idents.push(ident_of(alloc, first)?)?;
    'idents: while let Some((_, after)) = optional_sign(rest, Sign::Colons) {
        let (token, after) = ident_at(after)?;
        idents.push(ident_of(alloc, token)?)?;
        rest = after;
    }
    Ok((idents, rest))
}

/// From the first to the last.
#[tactic(auto, unfolding(crate::specs::AttributeWords::path_item))]
fn extent(idents: &[Ident]) -> Span
    ensures { result ≡ extent idents.now }
{
    match idents {
        [] => Span { start: 0, end: 0 },
        [first, ..] => covering(first.span, idents[idents.len() - 1].span),
    }
}

/// The path of these identifiers.
#[tactic(auto, unfolding(crate::specs::AttributeWords::path_item))]
fn path_of(alloc: Global, idents: &[Ident]) -> Result<Path, AllocError>
    ensures { IfOk result (λ path. path_view path ≡ path_item idents.now) }
{
    let mut segments = List::new(alloc);
    for ident in idents {
        segments.push(PathSegment {
            ident: ident.copy(alloc)?,
            arguments: None,
        })?;
    }
    Ok(Path {
        leading: false,
        segments,
        span: extent(idents),
    })
}

/// A path of identifiers, and what follows it.
pub(crate) fn path_at(alloc: Global, trees: &[TokenTree]) -> Result<(Path, &[TokenTree]), Stop>
    ensures value { Gives (λ p. (path_view p.0, words_view p.1.now)) result
        (path_at (words_view trees.now)) }
    ensures shorter { IfOk result (λ p. length p.1.now < length trees.now) }
{
    let (idents, rest) = idents_at(alloc, trees)?;
    Ok((path_of(alloc, idents.as_slice())?, rest))
}
