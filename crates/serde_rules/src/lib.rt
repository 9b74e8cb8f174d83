//! What serde's attributes say of one place: of a field or a variant, and of a struct or an enum. All serde lists of a
//! place are read as one list, from left to right.
#![tactic(auto)]

mod container;
mod enum_repr;
mod equality;
mod items;
mod law;
pub mod names;
mod required;
mod rows;
mod value;

pub use container::{SerdeContainer, parse_container};
pub use enum_repr::SerdeEnumRepr;
pub use equality::{representations_are_equal, rules_are_equal};
pub use items::{has_item, stands_before};
pub use law::{container_rules_are_one, last_text_counts, lists_are_one, rules_are_found_by_name};
pub use required::is_required;
pub use rows::{FieldRename, NoRow, Rename, VariantRename};
pub use value::{SerdeValue, parse_value};
