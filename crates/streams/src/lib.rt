//! Where bytes come from and where they go, with a count of the faults on the way.
#![tactic(auto)]

mod memory;
mod read;
mod retry;
mod sink;
mod source;
mod standard;
mod write;

pub use memory::{HonestSink, HonestSource, MemorySink, MemorySource};
pub use read::{ReadError, read_all};
pub use sink::Sink;
pub use source::{Failed, Source};
pub use standard::{StdSink, StdSource};
pub use write::write_all;
