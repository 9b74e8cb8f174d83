//! A document that is written already.

use texts::{List, Text};

/// A document as its JSON, with the JSON of each of its schemas.
#[derive(Debug, Drop)]
pub struct Written {
    /// The compact JSON of the whole document, with no new line.
    pub json: Text,
    /// The names of its schemas, in byte order, each with the compact JSON of the schema.
    pub schemas: List<(Text, Text)>,
}
