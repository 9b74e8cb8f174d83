//! The schema of a place by its written type: what it stands for, its term and the declarations that it names.
#![tactic(auto)]

mod component_schema;
mod to_term;

pub use component_schema::{ComponentSchema, ComponentSchemaProps};
pub use to_term::ToTerm;
