//! Attributes and doc comments, before items and fields.
//!
//! ```text
//! attr  = outer-doc | "#" "[" ident ("::" ident)* ("=" expr | group)? "]"
//! serde = list of (ident | ident "=" string-literal | ident group)
//! ```
//!
//! An identifier may be a keyword or `_`, and expr is all that stands up to the closing bracket. The group behind the
//! path `serde` is a list of serde's items, which the attribute carries. Attributes of the paths `doc`, `serde`, `schema`,
//! `repr`, `deprecated`, `cfg_attr` and `serde_as` are read; others are checked by the grammar and leave nothing.
#![tactic(auto)]

mod attribute;
mod comments;
mod docs;
mod items;
mod law;
mod meta;
mod path;
mod read;
mod serde_item;

pub use attribute::{Attribute, Meta};
pub use comments::CommentAttributes;
pub use docs::is_inner_doc;
pub use law::{attributes_are_read, items_are_of_their_lists};
pub use read::attributes_at;
pub use serde_item::{SerdeItem, SerdeText};
