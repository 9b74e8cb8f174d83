//! Syntax: from a source's text to the structs and enums that it declares. Texts of types are read by crate `type_grammar`.
//!
//! ```text
//! source  = (inner-doc | "#" "!" square-group)* item*
//! item    = attr* vis? (use | struct | enum)
//! use     = "use" any* ";"
//! struct  = "struct" name generics? (where? "{" named "}" | "(" unnamed ")" where? ";" | where? ";")
//! enum    = "enum" name generics? where? "{" variant "}"
//! variant = list of attr* name ("{" named "}" | "(" unnamed ")")? ("=" value+)?
//! named   = list of attr* vis? name ":" type
//! unnamed = list of attr* vis? type
//! vis     = "pub" ( "(" ("crate" | "self" | "super") ")" | "(" "in" any* ")" )?
//! generics = "<" list of param ">"
//! param   = attr* ( lifetime (":" (lifetime ("+" lifetime)*)?)? | name (":" bounds)? | "const" name ":" type )
//! where   = "where" list of (lifetime | type) ":" bounds
//! ```
//!
//! An attribute is a doc comment or `#[..]`, as crate `attributes` says; types and bounds are those of crate `type_grammar`. A list has commas between its items, perhaps one
//! at the end, and may be empty. A name is an identifier that is no keyword and not `_`; any is a token other than `;`, or
//! a group, and value one other than `,`, or a group. Where `pub` and a group in round brackets are all of an unnamed
//! field, the group is its type. Brackets nest at most 64 deep, and a type at most 64 levels.
#![tactic(auto)]

mod beginning;
mod fields;
mod generics;
mod item;
mod items;
mod law;
mod parse;
mod scope;
mod struct_body;
mod variants;
mod where_clause;

pub use attributes::{Attribute, CommentAttributes, Meta};
pub use item::{Body, Declaration, Declarations, Field, Fields, GenericParam, Generics, Variant};
pub use law::{one_deep_place, one_reading, read_fields_are_named, trees_are_read};
pub use lexing::{lex, one_cut};
pub use literal_values::{LiteralValue, literal_value};
pub use parse::parse_declarations;
pub use tokens::{Bracket, Cursor, Group, Token, TokenKind, TokenTree};
pub use type_grammar::{one_deep_type, one_type_reading, parse_type};
pub use written_types::{GenericArgument, Ident, Path, PathSegment, WrittenType};
