//! Written types: names, paths and types as they stand in a source (The Rust Reference, "Paths", "Types").
#![tactic(auto)]

mod copy;
mod law;
mod written;

pub use law::types_are_equal_by_text;
pub use written::{GenericArgument, Ident, Path, PathSegment, WrittenType};
