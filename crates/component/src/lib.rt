//! The schema of a place: a term over the parameters and declarations that its type names.
#![tactic(auto)]

mod law;
mod place;
mod references;
mod schemas;
mod term;

pub use law::references_are_leaves;
pub use place::{Place, place_term};
pub use references::{SchemaReference, references_of};
pub use schemas::{annotated, annotated_null, bounds_of, null_default, one_of_null};
pub use term::{Term, TermLeaf, copy_term};
