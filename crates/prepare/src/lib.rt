//! Whole files of Rust: their text, the declarations of structs and enums in them, the impls of serde's traits that are written
//! by hand, and the names that are given to types.
//!
//! ```text
//! file   = inner* item*
//! inner  = inner-doc | "#" "!" square-group
//! item   = attr* vis? ( decl | impl | use | module | alias | line | block | call )
//! attr   = outer-doc | "#" square-group
//! vis    = "pub" scope?
//! scope  = "(" ( "crate" | "self" | "super" | "in" any* ) ")"
//! decl   = ("struct" | "enum") name to-block
//! impl   = "impl" to-block
//! use    = "use" to-semicolon
//! module = "mod" word ( ";" | "{" file "}" )
//! alias  = "type" name "=" any* ";"
//! line   = ("type" | "static" | "const") "mut"? word (":" | "=" | "<" | ";" | "where") to-semicolon
//! block  = ("fn" | "trait" | "unsafe" | "async" | "extern" | "macro") to-block
//!        | "const" ("fn" | "unsafe" | "async" | "extern" | "trait" | "impl") to-block
//!        | ("union" | "auto" | "safe" | "default" | "gen") word to-block
//! call   = (word | "::")+ "!" word? ( curly-group | (round-group | square-group) ";" )
//! ```
//!
//! A word is an identifier or a keyword, and a name an identifier that is no keyword of edition 2015. What goes to a semicolon
//! ends with the first `;` outside of brackets. What goes to a block ends with the first `;`, or with the first group in curly
//! brackets outside of `<` and `>`, where the `>` of `->` closes nothing and a group behind a name and `!` ends nothing. Neither
//! has the word `struct`, `enum` or `mod` outside of brackets behind its own beginning.
//!
//! Declarations stand, also in modules, and so do impls by hand of serde's traits. Such an impl has, outside of `<` and `>`, the
//! word `Serialize` or `Deserialize` right before `for`, and behind that a path up to `where` or the block: words but for `dyn`,
//! and `::`. Its type is named by the last name of the path.
//!
//! Of a declaration some trees are not read, since its JSON does not depend on them: from a `=` among its parameters, outside of
//! other `<` and `>`, up to the next comma or the end of the parameters; the arguments of `PhantomData`; fields with names that
//! have `#[serde(skip)]`; and `#[repr ..]`, of a struct, and of an enum of which an attribute derives `Serialize` or
//! `Deserialize` and none `Serialize_repr` or `Deserialize_repr`.
//!
//! Names for types stand too, as aliases: that of a `type` item with `=` right behind it, for what stands between that and the
//! `;`; and each C of `B as C` in a `use`, at any depth, where both are names, for B. A `type` item with anything else in front
//! of its `=`, as parameters, passes as a line.
//!
//! Any other item passes. An item with the attribute `cfg(test)`, or
//! `cfg(all(..))` in which `test` is, does not stand, and is not looked into; nor does anything stand in a file or a module whose
//! inner attributes have such a one.
//!
//! The trees of a file are read some at a time, and dropped once their items are gone through: memory goes by its longest item,
//! and by what stands of it.
#![tactic(auto)]

mod attributes;
mod blanks;
mod contents;
mod ends;
mod fields;
mod file;
mod file_items;
mod form;
mod heads;
mod imports;
mod item;
mod kind;
mod law;
mod line_ends;
mod names;
mod parameters;
mod previous;
mod reading;
mod serde_trait;
mod single;
mod skipped;
mod standing;
mod traits;
mod trees;
mod unread;

pub use blanks::with_blanks;
pub use contents::{FileParts, file_parts};
pub use file_items::{FileAlias, FileImpl, FileItem};
pub use law::{aliases_are_one, items_are_one};
pub use line_ends::file_text;
pub use parameters::is_in;
pub use serde_trait::SerdeTrait;
