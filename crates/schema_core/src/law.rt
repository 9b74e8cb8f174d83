//! What rests on the definitions alone: laws that callers rely on, as contracts of functions that do nothing. They hold of
//! documents with alternatives under either keyword.

ghost use Rattle.schema_core.specs.Meaning.{DocumentsAreInOrder, DocumentsHold, FormsAccept, FormsRefer, OneOfHolds};
ghost use Rattle.schema_core.specs.OneText.{OneText, OneDocument, TextsAreCompact, TextsReadBack};

/// The JSON of a schema accepts a value exactly if the tree does.
pub fn forms_accept()
    ensures { FormsAccept }
{}

/// The references of the JSON of a schema are the leaves of the tree.
pub fn forms_refer()
    ensures { FormsRefer }
{}

/// The JSON of a schema that is one of several has the forms of these under its keyword of alternatives, and none under the other.
pub fn one_of_holds()
    ensures { OneOfHolds }
{}

/// A component is found in the document under its name, and no other is.
pub fn documents_hold()
    ensures { DocumentsHold }
{}

/// The schemas of a document stand in the order of its entries, where names are in byte order.
pub fn documents_are_in_order()
    ensures { DocumentsAreInOrder }
{}

/// Two JSON values of one text are equal, however deep they nest, where their numbers fit 64 bits.
pub fn texts_are_one()
    ensures { OneText }
{}

/// Two documents of one text, with alternatives under one keyword, have the same components, the names and the JSON of each,
/// where their numbers fit 64 bits.
pub fn documents_are_one()
    ensures { OneDocument }
{}

/// The text of a value that `serde_json` can hold reads as that value, where it nests no deeper than is read.
pub fn texts_read_back()
    ensures { TextsReadBack }
{}

/// The text of a value that `serde_json` can hold is JSON of that value with no space, however deep it nests.
pub fn texts_are_compact()
    ensures { TextsAreCompact }
{}
