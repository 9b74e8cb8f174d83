//! Doc comments as attributes.

ghost use Rattle.std.specs.Prelude.{◌≡◌, IfOk};
ghost use Rattle.std.specs.Option.{option_map};
ghost use Rattle.tokens.specs.Trees.{tree_view};
ghost use Rattle.written_types.specs.Written.{path_view};
ghost use Rattle.words.specs.Words.{word_of};
ghost use Rattle.attributes.specs.Attributes.{attribute_view};
ghost use Rattle.attributes.specs.AttributeWords.{unclosed, outer_text, is_inner_text, as_outer_doc, doc_path, doc_attribute, is_inner_doc};

use crate::attribute::{Attribute, Meta};
use std::alloc::{AllocError, Global};
use texts::{List, Span, Text};
use tokens::TokenTree;
use words::{Word, word_of};
use written_types::{Ident, Path, PathSegment};

/// The text without a closing `*/`.
fn unclosed(text: &str) -> &str
    ensures { result.now ≡ unclosed text.now }
{
    match text.strip_suffix("*/") {
        Some(rest) => rest,
        None => text,
    }
}

/// What an outer doc comment says.
pub(crate) fn outer_text(text: &str) -> Option<&str>
    ensures { option_map (λ said. said.now) result ≡ outer_text text.now }
{
    match text.strip_prefix("///") {
        Some(line) => Some(line),
        None => match text.strip_prefix("/**") {
            Some(block) => Some(unclosed(block)),
            None => None,
        },
    }
}

fn is_inner_text(text: &str) -> bool
    ensures { result ≡ is_inner_text text.now }
{
    text.starts_with("//!") || text.starts_with("/*!")
}

/// Whether the tree is an inner doc comment.
pub fn is_inner_doc(tree: &TokenTree) -> bool
    ensures { result ≡ is_inner_doc (word_of (tree_view tree.now)) }
{
    match word_of(tree) {
        Word::Doc(token) => is_inner_text(token.text.as_str()),
        _ => false,
    }
}

/// The path `doc`, at the span.
fn doc_path(alloc: Global, span: Span) -> Result<Path, AllocError>
    ensures { IfOk result (λ path. path_view path ≡ doc_path span) }
{
    let ident = Ident {
        text: Text::new(alloc, "doc")?,
        raw: false,
        span,
    };
    let mut segments = List::new(alloc);
    segments.push(PathSegment {
        ident,
        arguments: None,
    })?;
    Ok(Path {
        leading: false,
        segments,
        span,
    })
}

/// The attribute that an outer doc comment with the text is.
pub(crate) fn doc_attribute(alloc: Global, text: &str, span: Span) -> Result<Attribute, AllocError>
    ensures { IfOk result (λ attribute. attribute_view attribute ≡ doc_attribute span text.now) }
{
    Ok(Attribute {
        path: doc_path(alloc, span)?,
        meta: Meta::Doc(Text::new(alloc, text)?),
        items: List::new(alloc),
        span,
    })
}
