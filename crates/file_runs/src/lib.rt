//! What words that name files ask for, what is read of the files, and what answers the words.
#![tactic(auto)]

mod answering;
mod arguments;
mod configured;
mod contents;
mod document;
mod ending;
mod law;
mod named;
mod options;
mod program;
mod reading;
mod reports;
mod request;
mod showing;
mod status;

pub use answering::answer;
pub use arguments::{Stop, question_in, request_of};
pub use document::Written;
pub use ending::Ending;
pub use files::{Cause, FileAnswer, FileBytes, Files, HonestFiles, MemoryFiles, StdFiles};
pub use law::{runs_command_nothing, sound_runs_are_not_refused};
pub use named::NamedDocument;
pub use program::run;
pub use reporting::Words;
pub use reports::{HELP, VERSION, answer_text, misuse_text};
pub use request::{Flag, Misuse, Question, Request, Valued};
pub use selecting::Selection;
pub use showing::Unshown;
pub use status::Status;
pub use streams::{
    Failed, HonestSink, HonestSource, MemorySink, MemorySource, Sink, Source, StdSink, StdSource,
};
