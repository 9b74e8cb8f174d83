//! Closed types by number: each type stands once, behind its parts, which are named by their numbers.
#![tactic(auto)]

mod find;
mod law;
mod node;
mod open_type;
mod substitution;
mod types;

pub use law::instances_stand_by_parts;
pub use types::{TypeId, Types};
