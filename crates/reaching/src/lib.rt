//! Which names are reached: nodes have names and name others. Those that a first node names are reached, and those that a
//! node of a reached name names.
#![tactic(auto)]

mod node;
mod unreached;

pub use node::{Node, NodeRef};
pub use unreached::{NamesByName, unreached_names};
