//! What is configured: bounds on what deriving may take, which instances get components, what names become, and what
//! aliases stand for.
#![tactic(auto)]

mod aliases;
mod bare;
mod collect;
mod config;
mod names;
mod range;
mod targets;

pub use aliases::{aliased_type, bad_row, name_places};
pub use collect::SchemaCollect;
pub use config::Config;
pub use names::last_names;
pub use range::OutOfRange;
