//! Samples: large valid sources from a number. The declarations make a ring through structs, generic structs and enums.
#![tactic(auto)]

mod law;
mod source;

pub use law::samples_are_sound;
pub use source::{MOST_DECLARATIONS, sample_source};
