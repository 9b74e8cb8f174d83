//! Texts, lists and byte spans, which every other crate speaks with, and lists of names.
#![tactic(auto)]

mod law;
mod list;
mod span;
mod text;

pub use law::spans_are_equal_by_ends;
pub use list::List;
pub use span::Span;
pub use text::Text;
