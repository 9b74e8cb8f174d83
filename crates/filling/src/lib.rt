//! Schemas put at the leaves of a schema, and copies.
#![tactic(auto)]

mod copy;
mod fill;

pub use copy::{CopyLeaf, copied, copy_schema};
pub use fill::{Fill, filled};
