//! From a source to the components of its declarations, which describe the JSON that serde reads for them, within the bounds
//! on instances: how many are reachable, how large they are, that their names differ, how deep their schemas are inlined, and
//! how many copies that makes.
#![tactic(auto)]

mod bounds;
mod composition;
mod derive;
mod law;
mod names;
mod refusals;
mod sets;
mod settled;
mod types;
mod unplain;
mod within;

pub use closing::{
    components_describe, components_lead, places_agree, places_describe, references_accept,
    schemas_describe,
};
pub use composition::{Composition, composition_of, composition_of_source};
pub use derive::{Derived, derive_components, derive_declarations};
pub use law::{bounded_are_not_refused, components_are_one};
pub use names::component_name;
pub use sets::{InstanceSet, TermSet, compose, instances, terms};
pub use unplain::unplain_of;
