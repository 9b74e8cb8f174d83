//! The text of a document, component by component.

ghost use Rattle.std.specs.Prelude.{◌≡◌, ◌∷◌, ◌++◌, ℕ, [], List, IfOk, OnOk, string_bytes};
ghost use Rattle.schema_trees.specs.Schema.{bind, schema_view, tree_view};
ghost use Rattle.schema_trees.specs.Held.{IsHeld, IsInOrder};
ghost use Rattle.schema_core.specs.declared.alternatives.Alternatives.{Alternatives as Keyword};
ghost use Rattle.schema_core.specs.Document.{Entry, document_by, text_of};
ghost use Rattle.schema_core.specs.Entries.{entry_names};
ghost use Rattle.schema_core.specs.Form.{form_by};
ghost use Rattle.schema_core.specs.Writes.{WritesValue, HasEntries};

use crate::alternatives::Alternatives;
use crate::pushes::{push_comma, push_words};
use crate::schema_text::push_schema;
use crate::write_leaf::{References, WriteLeaf};
use schema_trees::{Schema, Tree};
use std::alloc::{AllocError, Global};
use texts::Text;

/// The text of the schema with others written at its leaves: compact, members in byte order of their names, and with
/// alternatives under the keyword `by`. It takes no tree of the whole.
pub fn text_of_schema<W: WriteLeaf>(
    alloc: Global,
    schema: &Tree<W::Leaf>,
    writer: &W,
    by: Alternatives,
) -> Result<Text, AllocError>
    requires { W.ready by writer.now }
    ensures { IfOk result (λ text. WritesValue
        (form_by by (bind (W.put writer.now) (tree_view W.meaning schema.now))) [] text) }
{
    let mut text = String::new(alloc);
    push_schema(alloc, &mut text, schema, writer, by)?;
    Ok(Text::from(text))
}

/// Adds the text of a schema of a document, with alternatives under the keyword `by`.
pub fn push_schema_text(
    alloc: Global,
    text: &mut String,
    schema: &Schema,
    by: Alternatives,
) -> Result<(), AllocError>
    ensures { OnOk result (WritesValue (form_by by (schema_view schema.now))
        (string_bytes text.old) (string_bytes text.new)) }
{
    push_schema(alloc, text, schema, &References, by)
}

/// The text of a document of components, as far as it is written: that of the entries so far, with nothing behind.
#[derive(Drop)]
pub struct DocumentText {
    text: String,
    /// Whether there is an entry.
    later: bool,
    by: Alternatives,
}

impl DocumentText {
    /// The text of no entries, with alternatives under the keyword `by`.
    pub fn new(alloc: Global, by: Alternatives) -> Result<DocumentText, AllocError>
        ensures { IfOk result (HasEntries by []) }
    {
        Ok(DocumentText {
            text: String::from_str(alloc, "{\"components\":{\"schemas\":{")?,
            later: false,
            by,
        })
    }

    /// Adds an entry: the schema with others written at its leaves, under the name.
    pub fn push<W: WriteLeaf>(
        &mut self,
        alloc: Global,
        name: &str,
        schema: &Tree<W::Leaf>,
        writer: &W,
    ) -> Result<(), AllocError>
        requires { W.ready self.old.by writer.now }
        ensures { OnOk result ((by : Keyword) (es : List Entry) → HasEntries by es self.old
            → HasEntries by
            (es ++ (name.now, bind (W.put writer.now) (tree_view W.meaning schema.now)) ∷ [])
            self.new) }
    {
        push_comma(&mut self.text, self.later)?;
        push_words(alloc, &mut self.text, name)?;
        self.text.push_str(":")?;
        push_schema(alloc, &mut self.text, schema, writer, self.by)?;
        self.later = true;
        Ok(())
    }

    /// The text of the document of the entries: compact, and one new line at the end. The document is a value that
    /// `serde_json` can hold, where their names are in byte order.
    pub fn finish(self) -> Result<Text, AllocError>
        ensures text { IfOk result (λ text. (by : Keyword) (es : List Entry)
            → HasEntries by es self → IsInOrder (entry_names es)
            → text ≡ text_of (document_by by es)) }
        ensures held { IfOk result (λ _. (by : Keyword) (es : List Entry)
            → HasEntries by es self → IsHeld (document_by by es)) }
    {
        let mut text = self.text;
        text.push_str("}}}\n")?;
        Ok(Text::from(text))
    }
}
