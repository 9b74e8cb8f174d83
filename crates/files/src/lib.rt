//! Whole files, read by their paths, with a count of the faults on the way.
#![tactic(auto)]

mod cause;
mod faults;
mod file;
mod files;
mod memory;
mod standard;

pub use cause::Cause;
pub use file::{FileAnswer, FileBytes};
pub use files::Files;
pub use memory::{HonestFiles, MemoryFiles};
pub use standard::StdFiles;
