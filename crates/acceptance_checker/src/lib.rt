//! A plain program that tells when a schema of a document accepts a JSON value.
#![tactic(auto)]

mod assertions;
mod equality;
mod judge;
mod keyword;
mod layer;
mod references;
mod siblings;

pub use judge::{accepts, component_accepts};
