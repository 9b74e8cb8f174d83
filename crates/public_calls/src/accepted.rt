//! Acceptance, and a document as a JSON value.

use acceptance_checker::{accepts, component_accepts};
use diag::DeriveError;
use schema_core::Components;
use schema_trees::{AllOfSchema, Annotations, Json, Tree};
use serde_json::Value;
use std::alloc::{AllocError, Global};
use texts::{List, Text};

/// The document of a component `A` that accepts any value.
fn document(alloc: Global) -> Result<Value, AllocError> {
    let all = AllOfSchema {
        items: List::new(alloc),
        annotations: Annotations::new(),
    };
    let schema = Tree::AllOf(Box::new(alloc, all)?);
    let mut components = Components::new(alloc);
    components.insert(Text::new(alloc, "A")?, schema)?;
    components.to_value(alloc)
}

/// Whether null is accepted by the document as a schema, and by its component.
fn accepted(alloc: Global, document: &Json) -> Result<String, AllocError> {
    let by_schema = accepts(document, document, &Json::null(), 1);
    let by_component = component_accepts(document, "A", &Json::null(), 1);
    format!(in alloc; "accepts {by_schema}, component_accepts {by_component}")
}

pub(crate) fn told(alloc: Global) -> Result<String, DeriveError> {
    match Json::new(document(alloc)?) {
        Ok(document) => Ok(accepted(alloc, &document)?),
        Err(_back) => Ok(String::from_str(alloc, "a float")?),
    }
}
