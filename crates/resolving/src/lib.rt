//! What written types stand for: names looked up, type arguments counted.
#![tactic(auto)]

mod aliases;
mod arguments;
mod bad;
mod constant;
mod free;
mod known;
mod law;
mod meaning;
mod refusal;
mod resolve;
mod size;

pub use aliases::expand_type;
pub use known::KnownNames;
pub use law::{resolution_is_exact, resolved_are_over};
pub use meaning::Meaning;
pub use resolve::{MAX_NAMES, resolve_type};
