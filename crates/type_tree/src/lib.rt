//! Type trees: what a written type is for a schema, before its names are looked up (The Rust Reference, "Types"); and, by
//! the names of the crates below, what it stands for once they are.
#![tactic(auto)]

mod aliases;
mod ask;
mod build;
mod copy;
mod format_value;
mod known_format;
mod law;
mod left;
mod path;
mod path_generics;
mod primitive;
mod rewrite_path;
mod schema_type;
mod tree;

pub use known_format::KnownFormat;
pub use law::{formats_are_equal, trees_are_equal_by_text};
pub use open_types::{
    ClosedType, Leaf, ListHead, MapHead, OpenType, SetHead, ThroughHead, substitute,
};
pub use path::SchemaPath;
pub use primitive::PrimitiveType;
pub use rewrite_path::SynPathExt;
pub use schema_type::SchemaType;
pub use tree::{GenericType, TypeTree, ValueType};
pub use type_table::{TypeId, Types};
