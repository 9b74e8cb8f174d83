//! From the bytes of a source to the bytes of its document: Rust struct declarations in, one JSON document of OpenAPI
//! 3.1 component schemas out. A file may configure what deriving may take.
//!
//! `derive_components` takes a text of declarations, `whole_files::derive_files` whole files as they are, and `run` is a run of
//! the program over streams. `Config` says what deriving may take: read from JSON (`FromJson`), or set. `sample_source` makes a
//! large source from a number.
#![tactic(auto)]

mod command;
mod derivation;
mod law;
mod program;
mod size;
pub mod whole_files;

pub use compose::{Derived, derive_components};
pub use configuration::{Config, OutOfRange, SchemaCollect};
pub use configuration_json::FromJson;
pub use diag::{
    DeriveError, Diagnostics, DiangosticsInner, Kind, List, RenamePlace, RenameRow, RenameRule,
    Span, Suggestion, Text,
};
pub use files::{FileAnswer, FileBytes, Files, HonestFiles, MemoryFiles, StdFiles};
pub use law::{sound_is_not_refused, told_texts_are_one};
pub use open_types::ClosedType;
pub use program::run;
pub use reporting::{Status, Words};
pub use samples::{MOST_DECLARATIONS, sample_source};
pub use schema_core::{Components, ComponentsIter};
pub use streams::{
    Failed, HonestSink, HonestSource, MemorySink, MemorySource, ReadError, Sink, Source, StdSink,
    StdSource, read_all, write_all,
};
