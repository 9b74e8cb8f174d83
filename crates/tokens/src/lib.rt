//! Tokens: what a source is cut into, before any grammar (The Rust Reference, "Tokens", "Delimiters").
#![tactic(auto)]

mod copy;
mod cursor;
mod law;
mod token;

pub use copy::copy_trees;
pub use cursor::Cursor;
pub use law::trees_are_equal_by_text;
pub use token::{Bracket, Group, Token, TokenKind, TokenTree};
