//! Words: what a token tree is to the grammar, the readers of single words, lists with commas between their items, and what
//! restricts a visibility.
#![tactic(auto)]

mod comma;
mod keywords;
mod lists;
mod readers;
mod stopping;
mod tree_word;
mod visibility;
mod vocabulary;

pub use comma::after_comma;
pub use lists::{ReadItem, list_inside};
pub use readers::{
    group_at, keyword_at, lifetime_at, literal_at, name_at, optional_keyword, optional_lifetime,
    optional_sign, path_word_at, sign_at,
};
pub use stopping::{Stop, covering, start_of, stop_at};
pub use tree_word::{Word, ident_of, lifetime_of, word_of};
pub use visibility::{after_semicolon, is_end, is_restriction};
pub use vocabulary::{Keyword, Sign};
