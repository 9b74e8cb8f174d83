//! The grammar of types, and from a text to a type.
//!
//! ```text
//! type     = path | "&" lifetime? "mut"? type | "(" type ")" | "(" ")"
//!          | "(" type "," list of type ")" | "[" type "]"
//!          | "[" type ";" expr "]" | "dyn" bound ("+" bound)*
//! bound    = lifetime | "?"? path
//! path     = "::"? segment ("::" segment)*
//! segment  = word ("::"? "<" list of argument ">")?
//! argument = lifetime | constant | type
//! constant = "-"? literal | "true" | "false" | curly-group
//! ```
//!
//! Bounds by themselves are `(bound ("+" bound)*)?`. A list has commas between its items, perhaps one at the end, and may be
//! empty. A word is a name, `_`, `crate`, `self`,
//! `super` or `Self`. An expr is one or more token trees up to the end of the brackets. A trait object has a path among its
//! bounds, of which the first counts; in the paths of later bounds an argument may also be `name "=" type`. Behind `&` it
//! has one bound.
#![tactic(auto)]

mod bound_list;
mod constants;
mod ended_list;
mod law;
mod parse;
mod parts;
mod read;
mod starts;
mod types;

pub use bound_list::after_bounds;
pub use ended_list::list_until;
pub use law::{one_deep_type, one_type_reading};
pub use parse::{parse_type, refusal_of};
pub use read::{
    MAX_LEVELS, bounds_are_read, one_bound, one_type, read_type, types_are_read, types_begin,
};
pub use starts::{Bounds, ListEnd};
pub use types::{bound_at, type_at};
