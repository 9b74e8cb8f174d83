//! What written declarations are resolved to, by their attributes and the names around them, and why they may be refused.
#![tactic(auto)]

mod annotations;
mod attributed;
mod bodies;
mod enums;
mod feature;
mod fields;
mod flattened;
mod judged;
mod law;
mod mixed;
mod named_fields;
mod parameters;
mod push_some;
mod root;
mod tags;
mod units;
mod unnamed_fields;
mod variant_names;
mod whole;
mod written_member;
mod written_variant;

pub use annotations::annotations_of;
pub use attributed::{first_feature, only_derivable};
pub use bodies::resolve_body;
pub use enums::{enum_body, mixed_body, plain_body};
pub use feature::{Feature, Other};
pub use judged::judge_declaration;
pub use law::{resolution_is_exact, resolved_are_apart, resolved_is_meant, rows_are_looked_up};
pub use named_fields::named_form;
pub use parameters::distinct_parameters;
pub use root::Root;
pub use unnamed_fields::unnamed_form;
pub use whole::{resolve_declaration, resolved_declarations};
