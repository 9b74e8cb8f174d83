//! A configuration as JSON: what a text says, and which part of one is at fault.
#![tactic(auto)]

mod aliases;
mod from_json;
mod law;
mod members;
mod part;
mod renames;
mod value;

pub use from_json::{FromJson, bad_config};
pub use law::{
    bad_configs_have_faulty_parts, configurations_are_one, configurations_are_said,
    refused_texts_have_faults,
};
pub use part::{ConfigPart, faulty_part, part_help};
