//! What fields and variants are called in JSON by serde's attributes and a table of rows, which of their names need a row, and
//! which fields are flattened.
#![tactic(auto)]

mod asked;
mod kept;
mod names;

pub use asked::Asked;
pub use kept::is_flattened;
pub use names::written_ident;
