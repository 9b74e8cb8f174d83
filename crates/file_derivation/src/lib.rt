//! From the files of a crate to components, or to what is told of their faults.
#![tactic(auto)]

mod derive;
mod elsewhere;
mod faults;
mod helps;
mod judged;
mod law;
mod left_out;
mod rounds;
mod rows;
mod selected;
mod unplain;
mod warned;

pub use derive::{Outcome, Refusal, derive_files, derive_gathered};
pub use law::sound_are_not_told;
pub use warned::Warnings;
