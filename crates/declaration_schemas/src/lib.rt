//! The schemas of declarations as they are written, for callers outside.
#![tactic(auto)]

mod body_schema;
mod enums;
pub mod kinds;
mod objects;
mod one_of;
mod schema;
mod schema_variant;
mod structs;
mod variants;

pub use body_schema::BodySchema;
pub use enums::{EnumSchema, MixedEnum, PlainEnum};
pub use objects::{ObjectSchema, Property};
pub use one_of::OneOf;
pub use schema::Schema;
pub use schema_variant::SchemaVariant;
pub use structs::{NamedStructSchema, UnitStructVariant, UnnamedStructSchema};
pub use variants::{InternallyTaggedUnnamedSchema, MixedEnumContent, PlainSchema};
