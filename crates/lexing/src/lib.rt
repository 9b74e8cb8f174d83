//! Cutting: from a source's text to its token trees (The Rust Reference, "Lexical structure").
#![tactic(auto)]

mod brackets;
mod chunks;
mod comment;
mod law;
mod lexer;
mod nest;
mod piece;
mod raw;
mod scan;
mod text;
mod word;

pub use brackets::{OpenBracket, open_bracket};
pub use chunks::Chunks;
pub use law::{
    cut_sources_are_closed, deep_brackets_nest_deep, one_cut, one_deep_bracket, trees_lie,
};
pub use lexer::lex;
pub use nest::MAX_DEPTH;
pub use tokens::{Bracket, Cursor, Group, Token, TokenKind, TokenTree, copy_trees};
