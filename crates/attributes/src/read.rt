//! Attributes before an item or a field.

ghost use Rattle.std.specs.Prelude.{◌≡◌, ◌<◌, ◌≤◌, length, map, IfOk};
ghost use Rattle.tokens.specs.Trees.{trees_view};
ghost use Rattle.words.specs.Words.{words_of, words_view};
ghost use Rattle.words.specs.Reading.{Gives};
ghost use Rattle.attributes.specs.Attributes.{attribute_view, kept_view, is_read};
ghost use Rattle.written_types.specs.Written.{path_view};
ghost use Rattle.attributes.specs.AttributeReading.{attribute_in, begin_attributes, attribute_at, attributes_at};

use crate::attribute::{Attribute, is_word};
use crate::docs::{doc_attribute, outer_text};
use crate::items::items_of;
use crate::meta::form_of;
use crate::path::path_at;
use std::alloc::Global;
use texts::{List, Span};
use tokens::{Bracket, Group, TokenTree};
use words::{Sign, Stop, Word, covering, group_at, stop_at, word_of};
use written_types::Path;

/// Whether attributes of the path are read.
fn is_read(path: &Path) -> bool
    ensures { result ≡ is_read (path_view path.now) }
{
    is_word(path, "doc")
        || is_word(path, "serde")
        || is_word(path, "schema")
        || is_word(path, "repr")
        || is_word(path, "deprecated")
        || is_word(path, "cfg_attr")
        || is_word(path, "serde_as")
}

/// What is read of the attribute between square brackets.
#[tactic(auto, unfolding(crate::specs::AttributeReading::attribute_in))]
fn attribute_in(alloc: Global, trees: &[TokenTree], span: Span) -> Result<Option<Attribute>, Stop>
    ensures { Gives kept_view result (attribute_in span (words_view trees.now)) }
{
    let (path, rest) = path_at(alloc, trees)?;
    let form = form_of(rest)?;
    let items = items_of(alloc, &path, form)?;
    if !is_read(&path) {
        return Ok(None);
    }
    let meta = form.to_meta(alloc)?;
    Ok(Some(Attribute {
        path,
        meta,
        items,
        span,
    }))
}

/// What is read of the attribute inside of the group. Where its trees ended too soon, reading stopped at its closing
/// bracket.
fn attribute_inside(alloc: Global, group: &Group, span: Span) -> Result<Option<Attribute>, Stop>
    ensures { Gives kept_view result (attribute_in span (words_of (trees_view group.now.trees))) }
{
    match attribute_in(alloc, group.trees.as_slice(), span) {
        Ok(attribute) => Ok(attribute),
        Err(stop) => Err(stop.inside(group)),
    }
}

/// Whether the trees begin with an attribute: an outer doc comment or `#`.
fn begins_attribute(trees: &[TokenTree]) -> bool
    ensures { result ≡ begin_attributes (words_view trees.now) }
{
    match trees {
        [first, ..] => match word_of(first) {
            Word::Doc(token) => outer_text(token.text.as_str()).is_some(),
            Word::Sign(Sign::Hash, _) => true,
            _ => false,
        },
        [] => false,
    }
}

/// What is read of the attribute that the trees begin with, and what follows it.
#[tactic(auto, unfolding(crate::specs::AttributeReading::attribute_at))]
fn attribute_at(
    alloc: Global,
    trees: &[TokenTree],
) -> Result<(Option<Attribute>, &[TokenTree]), Stop>
    ensures value { Gives (λ p. (kept_view p.0, words_view p.1.now)) result
        (attribute_at (words_view trees.now)) }
    ensures shorter { IfOk result (λ p. length p.1.now < length trees.now) }
{
    match trees {
        [first, rest @ ..] => match word_of(first) {
            Word::Doc(token) => match outer_text(token.text.as_str()) {
                Some(text) => Ok((Some(doc_attribute(alloc, text, token.span)?), rest)),
                None => Err(stop_at(trees)),
            },
            Word::Sign(Sign::Hash, hash) => {
                let (group, rest) = group_at(rest, Bracket::Square)?;
                let attribute = attribute_inside(alloc, group, covering(hash, group.span))?;
                Ok((attribute, rest))
            }
            _ => Err(stop_at(trees)),
        },
        [] => Err(Stop::Ended),
    }
}

/// The attributes that the trees begin with, of which those that are read are kept, and what follows them. It stops where
/// an attribute is not of the grammar.
pub fn attributes_at(
    alloc: Global,
    trees: &[TokenTree],
) -> Result<(List<Attribute>, &[TokenTree]), Stop>
    ensures value { Gives (λ p. (map attribute_view p.0, words_view p.1.now)) result
        (attributes_at (words_view trees.now)) }
    ensures shorter { IfOk result (λ p. length p.1.now ≤ length trees.now) }
{
    let mut attributes = List::new(alloc);
    let mut rest = trees;
    'attributes: while begins_attribute(rest) {
        let (attribute, after) = attribute_at(alloc, rest)?;
        if let Some(attribute) = attribute {
            attributes.push(attribute)?;
        }
        rest = after;
    }
    Ok((attributes, rest))
}
