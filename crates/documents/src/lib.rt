//! What is done with a document of components before it is written, over the texts of its schemas, which may nest to any
//! depth: they are merged into an OpenAPI document, or compared with another document, and a compact text is made pretty.
#![tactic(auto)]

mod comparing;
mod components;
mod law;
mod merging;
mod object_text;
mod pretty;
mod value;
mod written;

pub use comparing::{Difference, compare};
pub use law::{alike_are_equal, merges_hold, others_differ, texts_read_back};
pub use merging::{Merged, merge};
pub use pretty::pretty_text;
pub use value::value_of;
pub use written::Written;
