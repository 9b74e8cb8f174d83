//! Doc comments as one text.

ghost use Rattle.std.specs.Prelude.{◌≡◌, [], map, min, IfOk, IsTrue, ◌↔◌};
ghost use Rattle.std.specs.Str.{trim_end};
ghost use Rattle.std.specs.Option.{option_map_or};
ghost use Rattle.written_types.specs.Written.{path_view};
ghost use Rattle.attributes.specs.Attributes.{attribute_view, meta_view};
ghost use Rattle.attributes.specs.Comments.{listed, said_by, docs_of, indent, margin, unindented, lines_of, joined};

use crate::attribute::{Attribute, Meta};
use literal_values::text_value;
use std::alloc::{AllocError, Global};
use texts::{List, Text};
use words::{Word, word_of};

/// The texts of doc comments, each perhaps of several lines.
#[derive(Debug, Drop)]
pub struct CommentAttributes(pub List<Text>);

/// What the attribute says, if it is a doc comment or `doc = "text"`.
fn said(alloc: Global, attribute: &Attribute) -> Result<Option<Text>, AllocError>
    ensures { IfOk result
        (λ text. listed text
        ≡ said_by (path_view attribute.now.path) (meta_view attribute.now.meta)) }
{
    match &attribute.meta {
        Meta::Doc(text) => Ok(Some(text.copy(alloc)?)),
        Meta::NameValue(trees) => match trees.as_slice() {
            [tree] => match word_of(tree) {
                Word::Literal(token) if attribute.is("doc") => text_value(alloc, token),
                _ => Ok(None),
            },
            [] => Ok(None),
            [_, _, ..] => Ok(None),
        },
        Meta::Word | Meta::Items(_) => Ok(None),
    }
}

/// What the attributes say, in order.
fn docs_of(alloc: Global, attributes: &[Attribute]) -> Result<List<Text>, AllocError>
    ensures { IfOk result (λ docs. docs ≡ docs_of (map attribute_view attributes.now)) }
{
    let mut docs = List::new(alloc);
    for attribute in attributes {
        if let Some(text) = said(alloc, attribute)? {
            docs.push(text)?;
        }
    }
    Ok(docs)
}

/// How many ASCII white space characters the text begins with.
fn indent(line: &str) -> usize
    ensures { result ≡ indent line.now }
{
    line.len() - line.trim_ascii_start().len()
}

/// The text without white space at its end.
fn line_of(doc: &Text) -> &str
    ensures { result.now ≡ trim_end doc.now }
{
    doc.as_str().trim_end()
}

/// The least indent of the texts that are not empty, which are without white space at their ends.
fn margin(docs: &[Text]) -> Option<usize>
    ensures { result ≡ margin (map trim_end docs.now) }
{
    let mut least = None;
    for doc in docs {
        let line = line_of(doc);
        if !line.is_empty() {
            least = Some(lesser(least, indent(line)));
        }
    }
    least
}

fn lesser(least: Option<usize>, other: usize) -> usize
    ensures { result ≡ option_map_or (min other) least other }
{
    match least {
        Some(least) => other.min(least),
        None => other,
    }
}

/// The text without so much of the white space that it begins with.
fn unindented(line: &str, count: usize) -> &str
    ensures { result.now ≡ unindented count line.now }
{
    let count = count.min(indent(line));
    &line[count..]
}

/// The texts without white space at their ends and without their margin.
fn lines_of(alloc: Global, docs: &[Text]) -> Result<List<Text>, AllocError>
    ensures { IfOk result (λ lines. lines ≡ lines_of docs.now) }
{
    let margin = margin(docs).unwrap_or(0);
    let mut lines = List::new(alloc);
    for doc in docs {
        let line = unindented(line_of(doc), margin);
        lines.push(Text::new(alloc, line)?)?;
    }
    Ok(lines)
}

impl CommentAttributes {
    /// The texts of the doc comments and of `doc = "text"`, each without the white space at its end and without as much of that at its
    /// beginning as the least indented of those that are not empty has.
    pub fn from_attributes(
        alloc: Global,
        attributes: &[Attribute],
    ) -> Result<CommentAttributes, AllocError>
        ensures { IfOk result
            (λ comments. comments.0 ≡ lines_of (docs_of (map attribute_view attributes.now))) }
    {
        let docs = docs_of(alloc, attributes)?;
        Ok(CommentAttributes(lines_of(alloc, docs.as_slice())?))
    }

    /// Whether there are no texts.
    pub fn is_empty(&self) -> bool
        ensures { IsTrue result ↔ (self.now.0 ≡ []) }
    {
        self.0.is_empty()
    }

    /// The texts, joined by new lines.
    pub fn as_formatted_string(&self, alloc: Global) -> Result<Text, AllocError>
        ensures { IfOk result (λ text. text ≡ joined self.now.0) }
    {
        let Some((first, others)) = self.0.as_slice().split_first() else {
            return Text::new(alloc, "");
        };
        let mut text = first.copy(alloc)?;
        for line in others {
            text.push("\n")?;
            text.push(line.as_str())?;
        }
        Ok(text)
    }
}
