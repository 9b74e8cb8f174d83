//! Whole files of Rust, as `schema_gen_file` takes them: `derive_files` selects of their declarations, reads each from its own
//! text, and derives the components, or tells the faults of all files, each with its file, line and column.
//!
//! A `Source` is a file by its name and its bytes; a `Selection` says what is described, and how many of the files are the
//! user's own, where those behind them are stand-ins. The `Outcome` has the components and the first hundred `Warnings`, or what
//! is told of the faults: a `Told` displays as a compiler would tell it, and has its parts as fields.

pub use file_derivation::{Outcome, Warnings, derive_files, sound_are_not_told};
pub use gathering::Source;
pub use selecting::Selection;
pub use telling::{Shown, Told, all_told, told_text};
