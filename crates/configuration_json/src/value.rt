//! The value of a configuration's text.

ghost use Rattle.std.specs.Prelude.{MatchOption, IfOk};
ghost use Rattle.serde_json.specs.Data.{Data};
ghost use Rattle.serde_json.specs.View.{view};
ghost use Rattle.configuration_json.specs.Form.{IsJson};

use serde_json::Value;
use std::alloc::{AllocError, Global};

/// The most bytes of a configuration's text.
const MAX_BYTES: usize = 1_048_576;

/// The value that the bytes are in JSON. Bytes that are no JSON, or more than 1,048,576, are none.
pub fn value_of(alloc: Global, bytes: &[u8]) -> Result<Option<Value>, AllocError>
    ensures { IfOk result (λ found. MatchOption found ((value : Data) → ¬ IsJson bytes.now value)
        (λ value. IsJson bytes.now (view value))) }
{
    if bytes.len() > MAX_BYTES {
        return Ok(None);
    }
    match Value::from_slice(alloc, bytes) {
        Ok(value) => Ok(Some(value)),
        Err(error) if error.is_memory() => Err(AllocError),
        Err(_) => Ok(None),
    }
}
