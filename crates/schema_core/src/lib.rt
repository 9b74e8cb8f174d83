//! The JSON of schemas, components by name, and the document of components.
#![tactic(auto)]

mod alternatives;
mod annotation_text;
mod components;
mod components_iter;
mod document_text;
mod form;
mod law;
mod members;
mod pushes;
mod schema_text;
mod write_leaf;

pub use alternatives::Alternatives;
pub use components::Components;
pub use components_iter::ComponentsIter;
pub use document_text::{DocumentText, push_schema_text, text_of_schema};
pub use law::{
    documents_are_in_order, documents_are_one, documents_hold, forms_accept, forms_refer,
    one_of_holds, texts_are_compact, texts_are_one, texts_read_back,
};
pub use schema_trees::{
    Additional, AllOfSchema, AnnotationKeywords, Annotations, Array, ArrayItems, Bound, Bounds,
    Json, Object, OneOfSchema, RefLeaf, Schema, SchemaTypeInner, Tree, TypeWord, copy_json,
    copy_jsons, copy_text, copy_texts, type_words_are_equal,
};
pub use write_leaf::WriteLeaf;
