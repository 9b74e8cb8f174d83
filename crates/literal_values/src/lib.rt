//! The values of literals: texts, whole numbers and truth values (The Rust Reference, "Tokens").
#![tactic(auto)]

mod escapes;
mod law;
mod numbers;
mod raw_strings;
mod strings;
mod value;

pub use law::{texts_are_said, values_are_equal};
pub use value::{LiteralValue, literal_value, text_value};
