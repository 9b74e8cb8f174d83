//! What a run of a program is: the words that it is given, what it reads, how it ends, and how an end is written.
#![tactic(auto)]

mod command;
mod delivery;
mod ending;
mod law;
mod reading;
mod refusal;
mod rest;
mod run;
mod status;
mod words;

pub use command::Command;
pub use delivery::deliver;
pub use law::texts_are_read;
pub use refusal::{source_text, too_long};
pub use rest::Rest;
pub use run::run_command;
pub use status::Status;
pub use words::Words;
