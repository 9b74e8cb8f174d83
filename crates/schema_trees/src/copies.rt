//! Copies of what may be absent, and of lists.

ghost use Rattle.std.specs.Prelude.{◌≡◌, IfOk};

use crate::json_value::Json;
use std::alloc::{AllocError, Global};
use texts::{List, Text};

/// Another text with the same bytes, where there is one.
pub fn copy_text(alloc: Global, text: &Option<Text>) -> Result<Option<Text>, AllocError>
    ensures { IfOk result (λ copy. copy ≡ text.now) }
{
    match text {
        None => Ok(None),
        Some(text) => Ok(Some(text.copy(alloc)?)),
    }
}

/// Another value that is equal, where there is one.
pub fn copy_json(alloc: Global, json: &Option<Json>) -> Result<Option<Json>, AllocError>
    ensures { IfOk result (λ copy. copy ≡ json.now) }
{
    match json {
        None => Ok(None),
        Some(json) => Ok(Some(json.copy(alloc)?)),
    }
}

/// Other values that are equal, where there is a list.
pub fn copy_jsons(
    alloc: Global,
    list: &Option<List<Json>>,
) -> Result<Option<List<Json>>, AllocError>
    ensures { IfOk result (λ copies. copies ≡ list.now) }
{
    match list {
        None => Ok(None),
        Some(list) => {
            let mut copies = List::new(alloc);
            for json in list.as_slice() {
                copies.push(json.copy(alloc)?)?;
            }
            Ok(Some(copies))
        }
    }
}

/// Other texts with the same bytes, in the same order.
pub fn copy_texts(alloc: Global, texts: &List<Text>) -> Result<List<Text>, AllocError>
    ensures { IfOk result (λ copies. copies ≡ texts.now) }
{
    let mut copies = List::new(alloc);
    for text in texts.as_slice() {
        copies.push(text.copy(alloc)?)?;
    }
    Ok(copies)
}
