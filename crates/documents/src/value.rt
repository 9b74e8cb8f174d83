//! The value of a text.

ghost use Rattle.std.specs.Prelude.{MatchOption, IfOk};
ghost use Rattle.serde_json.specs.Data.{Data};
ghost use Rattle.serde_json.specs.View.{view};
ghost use Rattle.documents.specs.Text.{IsJson};

use serde_json::Value;
use std::alloc::{AllocError, Global};

/// The value that the bytes are in JSON. Bytes that are no JSON are none.
pub fn value_of(alloc: Global, bytes: &[u8]) -> Result<Option<Value>, AllocError>
    ensures { IfOk result (λ found. MatchOption found ((value : Data) → ¬ IsJson bytes.now value)
        (λ value. IsJson bytes.now (view value))) }
{
    match Value::from_slice(alloc, bytes) {
        Ok(value) => Ok(Some(value)),
        Err(error) if error.is_memory() => Err(AllocError),
        Err(_) => Ok(None),
    }
}
