//! The built-in names that serde reads as a text, a truth value or a number (The Rust Reference, "Primitive types").
#![tactic(auto)]

mod leaf;

pub use leaf::{Leaf, LeafKind};
