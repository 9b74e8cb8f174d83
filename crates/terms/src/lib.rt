//! The schemas of declarations as terms: what makes them, and which values they accept.
#![tactic(auto)]

mod body;
mod field;
mod flattened;
mod form;
mod law;
mod named_fields;
mod numbers;
mod object;
mod tagged;
mod unnamed_fields;
mod variants;

pub use body::{body_term, declaration_term};
pub use field::field_term;
pub use form::form_term;
pub use law::{instance_terms_accept, places_accept, root_terms, schemas_tell, terms_accept};
pub use tagged::{requiring, texts_schema};
pub use variants::{tagged_fields, variant_term};
