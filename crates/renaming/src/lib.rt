//! The rows of a configuration that declarations need under serde's `rename_all`.
//!
//! `rows_of` answers a row for each name that a derivation of the declarations looks up: what serde makes of the name by the
//! rule that it stands under.
#![tactic(auto)]

mod ask;
mod by_rule;
mod cases;
mod law;
mod row_key;
mod rows;

pub use ask::asked_names;
pub use by_rule::renamed;
pub use law::{rows_are_wanted, rows_serve, rows_suffice, rows_suffice_behind};
pub use row_key::RowKey;
pub use rows::{rows_of, rows_of_names};
pub use serde_names::Asked;
