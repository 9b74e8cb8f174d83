//! What a declaration is warned of: attributes and types where the JSON that serde reads or writes is another than the
//! schema says. A warning is a place and a sentence. What is said of serde's items is the table `RULES`; what is said of
//! types looks through references, pointers and structs with one unnamed field, and of keys into declared generic types.
#![tactic(auto)]

mod applications;
mod flat;
mod flattened;
mod items;
mod keys;
mod lookup;
mod paths;
mod rules;
mod through;
mod types;
mod walk;
mod warning;

pub use flat::{BINDING, DENYING, Flat, NO_OBJECT, NO_OBJECT_UNTAGGED, NO_UNIT};
pub use flattened::{NOTHING_FOR_NONE, UNREAD_KEYS, VALUES_BIND};
pub use keys::NO_TEXTS_AS_KEYS;
pub use lookup::Lookup;
pub use paths::{BY_ANOTHER_TOOL, INSIDE_CFG_ATTR};
pub use rules::{
    Form, HARMLESS, KNOWN_ON_TUPLE, Place, RULES, Rule, Site, UNREAD_ON_TUPLE, UNREAD_ON_UNNAMED,
};
pub use types::{MISSING_IS_NULL, NONE_WHERE_MISSING};
pub use walk::warnings_of;
pub use warning::Warning;
