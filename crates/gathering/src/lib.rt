//! What many files of Rust declare: their declarations and aliases, and each declaration read from its own text.
#![tactic(auto)]

mod fault;
mod gathered;
mod help;
mod law;
mod reading;
mod source;
mod stop_help;

pub use fault::{told_by, told_plainly, told_unplaced};
pub use gathered::Gathered;
pub use help::unknown_type;
pub use law::{one_aliasing, one_gathering, one_reading_of_items};
pub use prepare::{FileAlias, FileImpl, SerdeTrait};
pub use reading::{Reading, file_name, read_items};
pub use source::Source;
