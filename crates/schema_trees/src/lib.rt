//! Schemas as trees: their keywords, annotations and bounds, and the JSON values that stand in them.
#![tactic(auto)]

mod annotations;
mod bound;
mod bounds;
mod copies;
mod json_value;
mod law;
mod objects;
mod tree;

pub use annotations::{AnnotationKeywords, Annotations};
pub use bound::Bound;
pub use bounds::Bounds;
pub use copies::{copy_json, copy_jsons, copy_text, copy_texts};
pub use json_value::Json;
pub use law::type_words_are_equal;
pub use tree::{
    Additional, AllOfSchema, Array, ArrayItems, Object, OneOfSchema, RefLeaf, Schema,
    SchemaTypeInner, Tree, TypeWord,
};
