//! Where the names of a source are looked up: the places of its declarations, and what a written type stands for there.
#![tactic(auto)]

mod container;
mod lookup;
mod names;
mod parameters;
mod scope;
mod text;

pub use container::{ComponentDescription, Container};
pub use lookup::resolve;
pub use names::{
    Named, declared_places, duplicate_name, first_places, names_repeat_or_not, places_of,
};
pub use parameters::{ParameterKind, parameters_of};
pub use scope::{Places, Scope};
pub use text::{text_of_type, type_text};
