//! Literals at the front of a text, by Rust's lexical rules in this project's profile.
#![tactic(auto)]

mod characters;
mod law;
mod literal;
mod numbers;
mod raw_strings;
mod scan;
mod strings;

pub use law::{literals_are_longest, literals_have_quotes};
pub use literal::after_literal;
pub use raw_strings::after_hashes;
pub use scan::{Run, after_run, split_first_char, starts_name};
