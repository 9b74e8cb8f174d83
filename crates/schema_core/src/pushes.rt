//! Values and members as text.

ghost use Rattle.std.specs.Prelude.{◌≡◌, ◌∷◌, [], ◌++◌, false, All, IfOk, IsTrue, OnOk, option_map, string_bytes};
ghost use Rattle.serde_json.specs.View.{view};
ghost use Rattle.serde_json.specs.Written.{comma_if, compact_text, items_text};
ghost use Rattle.acceptance.specs.Json.{Json as Meant, boolean, number, text as json_text};
ghost use Rattle.acceptance.specs.Data.{data_of, items_data};
ghost use Rattle.schema_core.specs.Form.{true_form, texts_form, value_items, values_form};
ghost use Rattle.schema_core.specs.Writes.{IsPlain, WritesAt, WritesItems};

use crate::members::text_value;
use schema_trees::{Bound, Json};
use serde_json::Value;
use std::alloc::{AllocError, Global};
use texts::{List, Text};

/// Adds a comma, where something stands before.
pub(crate) fn push_comma(text: &mut String, later: bool) -> Result<(), AllocError>
    ensures { OnOk result (string_bytes text.new ≡ string_bytes text.old ++ comma_if later) }
{
    if later {
        text.push_str(",")?;
    }
    Ok(())
}

/// Adds the key, behind a comma where something stands before.
pub(crate) fn push_key(text: &mut String, later: bool, key: &str) -> Result<(), AllocError>
    ensures { OnOk result
        (string_bytes text.new ≡ string_bytes text.old ++ (comma_if later ++ key.now)) }
{
    push_comma(text, later)?;
    text.push_str(key)?;
    Ok(())
}

/// Adds the value's compact text.
pub(crate) fn push_value(alloc: Global, text: &mut String, value: &Value) -> Result<(), AllocError>
    ensures { OnOk result ((j : Meant) → view value.now ≡ data_of j
        → string_bytes text.new ≡ string_bytes text.old ++ compact_text (data_of j)) }
{
    let written = value.to_string(alloc)?;
    text.push_str(written.as_str())?;
    Ok(())
}

/// Whether each byte stands in a JSON string as it is, since none is a quote, a backslash or a control character.
fn is_plain(bytes: &[u8]) -> bool
    ensures { IsTrue result → All IsPlain bytes.now }
{
    bytes
        .iter()
        .all(|&byte| byte >= 0x20 && byte != b'"' && byte != b'\\')
}

/// Adds the words in quotes.
pub(crate) fn push_words(alloc: Global, text: &mut String, words: &str) -> Result<(), AllocError>
    ensures { OnOk result
        (string_bytes text.new
        ≡ string_bytes text.old ++ compact_text (data_of (json_text words.now))) }
{
    if is_plain(words.as_bytes()) {
        text.push_str("\"")?;
        text.push_str(words)?;
        text.push_str("\"")?;
        return Ok(());
    }
    let value = text_value(alloc, words)?;
    push_value(alloc, text, &value)?;
    Ok(())
}

/// Adds the member of a text, where there is one. Answers whether something stands before what follows, as do those below.
pub(crate) fn push_text(
    alloc: Global,
    text: &mut String,
    later: bool,
    key: &str,
    words: &Option<Text>,
) -> Result<bool, AllocError>
    ensures { IfOk result (λ went. WritesAt key.now (option_map json_text words.now) later
        (string_bytes text.old) went (string_bytes text.new)) }
{
    match words {
        None => Ok(later),
        Some(words) => {
            push_key(text, later, key)?;
            push_words(alloc, text, words.as_str())?;
            Ok(true)
        }
    }
}

/// Adds the member of a value, where there is one.
pub(crate) fn push_json(
    alloc: Global,
    text: &mut String,
    later: bool,
    key: &str,
    json: &Option<Json>,
) -> Result<bool, AllocError>
    ensures { IfOk result (λ went. WritesAt key.now json.now later
        (string_bytes text.old) went (string_bytes text.new)) }
{
    match json {
        None => Ok(later),
        Some(json) => {
            push_key(text, later, key)?;
            push_value(alloc, text, json.value())?;
            Ok(true)
        }
    }
}

/// Adds the member of a truth value, where there is one.
pub(crate) fn push_truth(
    text: &mut String,
    later: bool,
    key: &str,
    truth: Option<bool>,
) -> Result<bool, AllocError>
    ensures { IfOk result (λ went. WritesAt key.now (option_map boolean truth) later
        (string_bytes text.old) went (string_bytes text.new)) }
{
    match truth {
        None => Ok(later),
        Some(truth) => {
            push_key(text, later, key)?;
            text.push_str(if truth { "true" } else { "false" })?;
            Ok(true)
        }
    }
}

/// Adds the member `true`, where it holds.
pub(crate) fn push_true(
    text: &mut String,
    later: bool,
    key: &str,
    holds: bool,
) -> Result<bool, AllocError>
    ensures { IfOk result (λ went. WritesAt key.now (true_form holds) later
        (string_bytes text.old) went (string_bytes text.new)) }
{
    if holds {
        push_truth(text, later, key, Some(true))
    } else {
        Ok(later)
    }
}

/// Adds the member of a number, where there is one.
pub(crate) fn push_bound(
    alloc: Global,
    text: &mut String,
    later: bool,
    key: &str,
    bound: &Option<Bound>,
) -> Result<bool, AllocError>
    ensures { IfOk result (λ went. WritesAt key.now (option_map number bound.now) later
        (string_bytes text.old) went (string_bytes text.new)) }
{
    match bound {
        None => Ok(later),
        Some(bound) => {
            push_key(text, later, key)?;
            push_value(alloc, text, &Value::Number(bound.number()))?;
            Ok(true)
        }
    }
}

/// Adds the values with commas between.
fn push_values(alloc: Global, text: &mut String, jsons: &[Json]) -> Result<(), AllocError>
    ensures { OnOk result
        (WritesItems (value_items jsons.now) (string_bytes text.old) (string_bytes text.new)) }
{
    let mut later = false;
    for json in jsons {
        push_comma(text, later)?;
        push_value(alloc, text, json.value())?;
        later = true;
    }
    Ok(())
}

/// Adds the member of a list of values, where there is one.
pub(crate) fn push_jsons(
    alloc: Global,
    text: &mut String,
    later: bool,
    key: &str,
    jsons: &Option<List<Json>>,
) -> Result<bool, AllocError>
    ensures { IfOk result (λ went. WritesAt key.now (values_form jsons.now) later
        (string_bytes text.old) went (string_bytes text.new)) }
{
    match jsons {
        None => Ok(later),
        Some(jsons) => {
            push_key(text, later, key)?;
            text.push_str("[")?;
            push_values(alloc, text, jsons.as_slice())?;
            text.push_str("]")?;
            Ok(true)
        }
    }
}

/// Adds the texts with commas between.
pub(crate) fn push_texts(alloc: Global, text: &mut String, texts: &[Text]) -> Result<(), AllocError>
    ensures { OnOk result
        (string_bytes text.new ++ 93 ∷ []
        ≡ string_bytes text.old ++ items_text false (items_data (texts_form texts.now))) }
{
    let mut later = false;
    for words in texts {
        push_comma(text, later)?;
        push_words(alloc, text, words.as_str())?;
        later = true;
    }
    Ok(())
}
